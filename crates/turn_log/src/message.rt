ghost use Rattle.std.specs.Prelude.{◌≡◌};
ghost use Rattle.delta_codec.specs.declared.message.Message.TheVariants.{Fib, Table};
ghost use Rattle.turn_log.specs.Turn.{fib_with, table_with};

use delta_codec::{FibMessage, FibOp, Message, TableMessage};
use group_search::GroupRecord;

/// What all messages of a turn begin with.
#[derive(Clone, Copy)]
pub(crate) struct TurnHead {
    pub(crate) owner: u8,
    pub(crate) turn: u32,
    pub(crate) block: u16,
    pub(crate) group: u8,
}

impl TurnHead {
    /// The message for the nodes' tables.
    pub(crate) fn table(self, content: GroupRecord) -> Message
        ensures { result ≡ Table (table_with self content) }
    {
        Message::Table(TableMessage {
            owner: self.owner,
            turn: self.turn,
            block: self.block,
            group: self.group,
            content,
        })
    }

    /// The message for the FIBs of the nodes to which the turn means this.
    pub(crate) fn fib(self, op: FibOp) -> Message
        ensures { result ≡ Fib (fib_with self op) }
    {
        Message::Fib(FibMessage {
            owner: self.owner,
            turn: self.turn,
            block: self.block,
            group: self.group,
            op,
        })
    }
}
