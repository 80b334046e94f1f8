use flow_types::{FlowKey, Record};
use group_search::{GroupRecord, Served};

/// The new record of a group, for a node's table.
#[derive(Clone, Debug, PartialEq, Eq, Drop)]
pub struct TableMessage {
    /// The node that owns the group's block.
    pub owner: u8,
    /// The owner's turn, counted from 1. At most 65,535 fit.
    pub turn: u32,
    /// The block.
    pub block: u16,
    /// The group, below 64.
    pub group: u8,
    /// The group's record.
    pub content: GroupRecord,
}

/// What a turn of an owner changes in a node's FIB.
#[derive(Clone, Copy, Debug, PartialEq, Eq, Hash)]
pub enum FibOp {
    /// No key: the turn concerns other nodes.
    Nothing,
    /// The key has this record from now on.
    Put(FlowKey, Record),
    /// The key has no record here any more.
    Drop(FlowKey),
}

/// What a turn of an owner changes in a node's FIB, and in which group.
#[derive(Clone, Copy, Debug, PartialEq, Eq, Hash)]
pub struct FibMessage {
    /// The node that owns the group's block.
    pub owner: u8,
    /// The owner's turn, counted from 1. At most 65,535 fit.
    pub turn: u32,
    /// The block.
    pub block: u16,
    /// The group, below 64.
    pub group: u8,
    /// The change.
    pub op: FibOp,
}

/// A message of an owner to a node.
#[derive(Clone, Debug, PartialEq, Eq, Drop)]
pub enum Message {
    /// For the node's table.
    Table(TableMessage),
    /// For the node's FIB.
    Fib(FibMessage),
}

/// A served record of a group, for a node's table.
#[derive(Clone, Copy, Debug, PartialEq, Eq, Hash)]
pub struct ServedMessage {
    /// The node that owns the group's block.
    pub owner: u8,
    /// The owner's turn, counted from 1. At most 65,535 fit.
    pub turn: u32,
    /// The block.
    pub block: u16,
    /// The group, below 64.
    pub group: u8,
    /// The pairs that serve the group.
    pub served: Served,
}

/// A message without rows, in a value that has no room for them.
#[derive(Clone, Copy, Debug, PartialEq, Eq, Hash)]
pub enum ShortMessage {
    /// For the node's table.
    Table(ServedMessage),
    /// For the node's FIB.
    Fib(FibMessage),
}
