use flow_types::Record;

/// What a FIB says of a key.
#[derive(Clone, Copy, Debug, PartialEq, Eq, Hash)]
pub struct FibSeen {
    /// The version of the key's group: how many of the turns that the FIB has taken are of this group.
    pub version: u32,
    /// The key's record, or `None` where the node doesn't handle the key.
    pub answer: Option<Record>,
}
