use flow_types::FlowKey;
use hash_family::HashPair;

/// A key of a group, with its hashes and its handler.
#[derive(Clone, Copy, Debug, PartialEq, Eq, Hash)]
pub struct Entry {
    /// The key's hash pair.
    pub pair: HashPair,
    /// The key.
    pub key: FlowKey,
    /// The key's handler.
    pub node: u8,
}

/// What serves a group at one bit of its nodes.
#[derive(Clone, Copy, Debug, Default, PartialEq, Eq, Hash)]
pub struct Pair {
    /// The member of the hash family that gives each key a position.
    pub index: u16,
    /// The node's bit at each position, position 0 in the lowest bit.
    pub array: u8,
}
