/// A thread of a run.
#[derive(Clone, Copy, Debug, PartialEq, Eq, Hash)]
pub enum Who {
    /// The owner of this number, which accepts updates.
    Owner(u8),
    /// The applier of the node of this number, which takes messages.
    Applier(u8),
    /// The lane of this number, which answers packets.
    Lane(u8),
}

/// What a run with threads passes before and after each piece of work, so that a test can hold a thread there.
///
/// The number is that of the update, the message's turn or the packet. A gate answers nothing and changes nothing that a
/// contract sees.
pub trait Gate {
    /// Called before the work.
    fn before(&self, who: Who, number: u32);

    /// Called after the work.
    fn after(&self, who: Who, number: u32);
}

/// The gate that holds nobody: both calls return at once.
#[derive(Clone, Copy, Debug, PartialEq, Eq, Hash)]
pub struct OpenGate;

impl Gate for OpenGate {
    fn before(&self, _who: Who, _number: u32) {}

    fn after(&self, _who: Who, _number: u32) {}
}
