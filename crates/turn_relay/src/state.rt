/// How far the messages of one link got.
#[derive(Clone, Copy, Debug, PartialEq, Eq)]
pub enum State {
    /// All that was taken was applied.
    Clear,
    /// A message was refused. What was taken after it wasn't applied.
    Stuck,
    /// Memory was wanting.
    Failed,
}
