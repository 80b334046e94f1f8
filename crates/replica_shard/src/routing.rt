/// Where a table sends a key.
#[derive(Clone, Copy, Debug, PartialEq, Eq, Hash)]
pub struct Route {
    /// The version of the key's group: how many of its changes the table has taken.
    pub version: u32,
    /// The node, or `None` where the table sends the key nowhere.
    pub node: Option<u8>,
}
