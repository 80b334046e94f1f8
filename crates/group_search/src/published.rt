use crate::record::GroupRecord;

/// A record that was published for a group.
#[derive(Clone, Debug, PartialEq, Eq, Drop)]
pub struct Publication {
    /// The group's block.
    pub block: u16,
    /// The group's number in its block, below 64.
    pub group: u8,
    /// The record.
    pub content: GroupRecord,
}
