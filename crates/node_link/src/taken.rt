use delta_codec::Message;

/// What a call took from a link.
#[derive(Clone, Debug, PartialEq, Eq, Drop)]
pub enum Taken {
    /// This message, the next of those that were sent.
    Item(Message),
    /// Nothing: the queue was empty.
    Empty,
}
