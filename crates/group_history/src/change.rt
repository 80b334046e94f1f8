use flow_types::{FlowKey, Record};

/// One accepted change of a group's map: a key was set or removed.
#[derive(Clone, Copy, Debug, PartialEq, Eq, Hash)]
pub struct Change {
    /// The block of the key's group.
    pub block: u16,
    /// The key's group in its block, 0..=63.
    pub group: u8,
    /// The key.
    pub key: FlowKey,
    /// The node and the record that the key has now, or `None` where it was removed.
    pub to: Option<(u8, Record)>,
}
