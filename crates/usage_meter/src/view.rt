//! What a seat knows. A view stands in proofs alone: no value of one is made. A clause reads an array as a list, of any
//! length.

/// What a meter was opened with: the number of its nodes, and the octets that all seats together may add.
#[derive(Clone, Copy)]
pub struct Opening {
    pub nodes: u16,
    pub ration: u64,
}

/// Octets that were added to a node's total.
pub struct Add {
    pub node: u64,
    pub octets: u64,
}

/// What a load of a node's total found.
pub struct Reading {
    pub node: u64,
    pub total: u64,
}

/// What a seat knows of itself, and of the meter.
pub struct Account {
    /// The octets that all seats together may add.
    pub opening: u64,
    /// The octets that this one may still add.
    pub ration: u64,
    /// All that it has added, in order, and after that what the seats that it gathered had.
    pub adds: [Add; 0],
    /// The totals that it has loaded, in order.
    pub readings: [Reading; 0],
}

/// What a seat knows.
pub enum View {
    Live(Account),
    /// Nothing any more: what it had went to another seat.
    Spent,
}
