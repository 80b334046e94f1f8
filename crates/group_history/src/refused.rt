use out_of_memory::OutOfMemory;
use std::alloc::AllocError;
use std::error::Error;
use std::fmt;

/// Why an owner refuses an update: the first of these that holds. After a refusal nothing has changed.
#[derive(Clone, Copy, Debug, PartialEq, Eq, Hash)]
pub enum UpdateRefused {
    /// The owner's journal has as many changes as there are turns.
    Spent {
        /// How many turns there are: 65,535.
        limit: u32,
    },
    /// The key that shall be removed isn't there.
    Absent,
    /// The key is new, and its block has 1,536 keys.
    BlockFull {
        /// The block.
        block: u16,
    },
    /// No indexes serve the new map of the key's group, and it has more keys than rows are free.
    RowsFull {
        /// The block.
        block: u16,
        /// How many keys the new map has.
        needed: u32,
        /// How many of the block's 64 rows its other groups leave.
        free: u32,
    },
    /// Memory that the owner asked for was not there. It asks after the other cases and before any change.
    OutOfMemory,
}

impl fmt::Display for UpdateRefused {
    ghost use Rattle.std.specs.Prelude.{Some};
    ghost use Rattle.group_history.specs.Refused.{refusal_text};

    ghost output = { λ refusal. Some (refusal_text refusal) };

    fn fmt<W: fmt::Write>(&self, f: &mut fmt::Formatter<W>) -> fmt::Result {
        match self {
            UpdateRefused::Spent { limit } => write!(f, "all {limit} turns are taken"),
            UpdateRefused::Absent => f.write_str("no flow has the key"),
            UpdateRefused::BlockFull { block } => {
                write!(f, "block {block} has as many keys as it may")
            }
            UpdateRefused::RowsFull {
                block,
                needed,
                free,
            } => write!(f, "rows needed in block {block}: {needed}, free: {free}"),
            UpdateRefused::OutOfMemory => f.write_str("out of memory"),
        }
    }
}

impl Error for UpdateRefused {}

impl From<AllocError> for UpdateRefused {
    ghost use Rattle.std.specs.Prelude.{◌≡◌};
    ghost use Rattle.group_history.specs.declared.refused.UpdateRefused.TheVariants as refused;

    ghost from_gives = { λ _ refusal. refusal ≡ refused.OutOfMemory };

    fn from(_error: AllocError) -> UpdateRefused {
        UpdateRefused::OutOfMemory
    }
}

impl From<OutOfMemory> for UpdateRefused {
    ghost use Rattle.std.specs.Prelude.{◌≡◌};
    ghost use Rattle.group_history.specs.declared.refused.UpdateRefused.TheVariants as refused;

    ghost from_gives = { λ _ refusal. refusal ≡ refused.OutOfMemory };

    fn from(_error: OutOfMemory) -> UpdateRefused {
        UpdateRefused::OutOfMemory
    }
}
