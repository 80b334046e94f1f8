use std::alloc::{AllocError, AllocFailed};
use std::error::Error;
use std::fmt;

/// Why flows can't be built. The first block in rising order that is past a limit is named.
#[derive(Clone, Copy, Debug, PartialEq, Eq, Hash)]
pub enum BuildRefused {
    /// The block has more than 1,536 flows.
    BlockFull {
        /// The block.
        block: u16,
    },
    /// The block's groups that no indexes serve have more than 64 flows in all.
    RowsFull {
        /// The block.
        block: u16,
        /// How many flows these groups have.
        needed: u32,
    },
    /// Memory that the build asked for was not there.
    OutOfMemory,
}

impl fmt::Display for BuildRefused {
    ghost use Rattle.std.specs.Prelude.{Some};
    ghost use Rattle.setsep_build.specs.Refused.{refusal_text};

    ghost output = { λ refusal. Some (refusal_text refusal) };

    fn fmt<W: fmt::Write>(&self, f: &mut fmt::Formatter<W>) -> fmt::Result {
        match self {
            BuildRefused::BlockFull { block } => write!(f, "block {block} has too many flows"),
            BuildRefused::RowsFull { block, needed } => {
                write!(f, "block {block} needs {needed} rows")
            }
            BuildRefused::OutOfMemory => f.write_str("out of memory"),
        }
    }
}

impl Error for BuildRefused {}

impl From<AllocError> for BuildRefused {
    ghost use Rattle.std.specs.Prelude.{◌≡◌};
    ghost use Rattle.setsep_build.specs.declared.refused.BuildRefused.TheVariants.{OutOfMemory};

    ghost from_gives = { λ _ refused. refused ≡ OutOfMemory };

    fn from(_error: AllocError) -> BuildRefused {
        BuildRefused::OutOfMemory
    }
}

impl<T: Drop> From<AllocFailed<T>> for BuildRefused {
    ghost use Rattle.std.specs.Prelude.{◌≡◌};
    ghost use Rattle.setsep_build.specs.declared.refused.BuildRefused.TheVariants.{OutOfMemory};

    ghost from_gives = { λ _ refused. refused ≡ OutOfMemory };

    fn from(_error: AllocFailed<T>) -> BuildRefused {
        BuildRefused::OutOfMemory
    }
}
