use flow_types::Record;
use group_history::UpdateRefused;

/// What an event of the script was answered.
#[derive(Clone, Copy, Debug, PartialEq, Eq)]
pub enum Reply {
    /// The update was accepted.
    Accepted {
        /// The owner of the key's block.
        owner: u8,
        /// The update's turn in the owner's journal.
        turn: u32,
    },
    /// The update was refused, and nothing has changed.
    Refused(UpdateRefused),
    /// The packet's flow was found at the node that it was sent to.
    Found {
        /// The node that the packet was sent to.
        node: u8,
        /// The version of the flow's group at the ingress.
        seen: u32,
        /// The version of the flow's group at the node.
        fib: u32,
        /// The flow's record there.
        info: Record,
    },
    /// The node that the packet was sent to knows no such flow.
    Unknown {
        /// That node.
        node: u8,
        /// The version of the flow's group at the ingress.
        seen: u32,
        /// The version of the flow's group at the node.
        fib: u32,
    },
    /// The ingress has no node to send the packet to: its flow is unknown.
    Nowhere {
        /// The version of the flow's group at the ingress.
        seen: u32,
    },
    /// The message was taken.
    Applied,
    /// The message was taken before: the node has that many turns already.
    RepeatHave {
        /// The turns that the node has taken.
        have: u32,
    },
    /// A message before this one is missing.
    EarlyHave {
        /// The turns that the node has taken.
        have: u32,
    },
    /// There is no such turn yet.
    Unsent,
    /// Every message was delivered.
    Synced,
}
