use std::error::Error;
use std::fmt;

/// Why a shard doesn't take a message. The causes are tested in this order, and after each the shard is as it was.
#[derive(Clone, Copy, Debug, PartialEq, Eq, Hash)]
pub enum ShardRefused {
    /// The message is of another owner.
    Foreign {
        /// The message's owner.
        owner: u8,
    },
    /// The message's turn was taken before.
    Repeat {
        /// How many turns the shard has taken.
        have: u32,
    },
    /// A turn before the message's is still to be taken.
    Early {
        /// How many turns the shard has taken.
        have: u32,
    },
    /// The group's new record takes more of the block's 64 rows than the other groups' records leave.
    RowsFull {
        /// How many rows the record takes.
        needed: u8,
        /// How many rows are free.
        free: u8,
    },
}

impl fmt::Display for ShardRefused {
    ghost use Rattle.std.specs.Prelude.{Some};
    ghost use Rattle.replica_shard.specs.Refused.{refusal_text};

    ghost output = { λ refusal. Some (refusal_text refusal) };

    fn fmt<W: fmt::Write>(&self, f: &mut fmt::Formatter<W>) -> fmt::Result {
        match self {
            ShardRefused::Foreign { owner } => write!(f, "a message of owner {owner}"),
            ShardRefused::Repeat { have } => {
                write!(f, "a turn of the first {have}, which are taken")
            }
            ShardRefused::Early { have } => write!(f, "a turn too early: {have} are taken"),
            ShardRefused::RowsFull { needed, free } => {
                write!(f, "rows needed: {needed}, free: {free}")
            }
        }
    }
}

impl Error for ShardRefused {}
