use flow_types::{Flow, FlowKey};

/// Which of the two messages that a turn makes for each node.
#[derive(Clone, Copy, Debug, PartialEq, Eq)]
pub enum Part {
    /// The one for the node's table: the changed group's record.
    Table,
    /// The one for the node's own records.
    Fib,
}

/// One thing that happens in a run, in the order of the script.
#[derive(Clone, Copy, Debug, PartialEq, Eq)]
pub enum Event {
    /// A flow is set: a new one, or another node or record for the key.
    Set(Flow),
    /// The flow of a key is deleted.
    Del(FlowKey),
    /// A packet enters the cluster.
    Packet {
        /// The node at which it enters.
        ingress: u8,
        /// Its flow's key.
        key: FlowKey,
    },
    /// One message is delivered. No such event stands in a storm's script.
    Carry {
        /// The node that it is delivered to.
        node: u8,
        /// The node whose turn it tells.
        owner: u8,
        /// The turn's number among that owner's, 1..=65,535.
        turn: u32,
        /// Which of the turn's two messages for the node.
        part: Part,
    },
    /// All messages that were not delivered yet are.
    Sync,
}
