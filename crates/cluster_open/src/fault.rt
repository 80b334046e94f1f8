use flow_reader::RowRefused;
use flow_types::BadRow;
use out_of_memory::OutOfMemory;
use setsep_build::BuildRefused;
use std::error::Error;
use std::fmt;

/// Why an input has no output.
#[derive(Clone, Copy, Debug, PartialEq, Eq)]
pub enum InputFault {
    /// The first row that breaks a rule.
    Bad(BadRow),
    /// No row breaks a rule, and this is the first block that is past a limit: it has more than 1,536 flows.
    BlockFull {
        /// The block.
        block: u16,
    },
    /// No row breaks a rule, and this is the first block that is past a limit: its flows that no indexes serve need more
    /// than 64 rows.
    RowsFull {
        /// The block.
        block: u16,
    },
    /// Memory that the call asked for was not there.
    OutOfMemory,
}

impl fmt::Display for InputFault {
    ghost use Rattle.std.specs.Prelude.{Some};
    ghost use Rattle.cluster_open.specs.Limits.{fault_text};

    ghost output = { λ fault. Some (fault_text fault) };

    fn fmt<W: fmt::Write>(&self, f: &mut fmt::Formatter<W>) -> fmt::Result {
        match self {
            InputFault::Bad(bad) => write!(f, "{bad}"),
            InputFault::BlockFull { block } => write!(f, "block {block} has too many flows"),
            InputFault::RowsFull { block } => write!(f, "block {block} needs too many rows"),
            InputFault::OutOfMemory => f.write_str("out of memory"),
        }
    }
}

impl Error for InputFault {}

impl From<RowRefused> for InputFault {
    ghost use Rattle.std.specs.Prelude.{◌≡◌};
    ghost use Rattle.cluster_open.specs.Limits.{fault_of};

    ghost from_gives = { λ refused fault. fault ≡ fault_of refused };

    fn from(refused: RowRefused) -> InputFault {
        match refused {
            RowRefused::Bad(bad) => InputFault::Bad(bad),
            RowRefused::OutOfMemory => InputFault::OutOfMemory,
        }
    }
}

impl From<OutOfMemory> for InputFault {
    ghost use Rattle.std.specs.Prelude.{◌≡◌};
    ghost use Rattle.cluster_open.specs.declared.fault.InputFault.TheVariants.{OutOfMemory};

    ghost from_gives = { λ _ fault. fault ≡ OutOfMemory };

    fn from(_error: OutOfMemory) -> InputFault {
        InputFault::OutOfMemory
    }
}

impl From<BuildRefused> for InputFault {
    ghost use Rattle.std.specs.Prelude.{◌≡◌};
    ghost use Rattle.cluster_open.specs.Limits.{fault_of_build};

    ghost from_gives = { λ refused fault. fault ≡ fault_of_build refused };

    fn from(refused: BuildRefused) -> InputFault {
        match refused {
            BuildRefused::BlockFull { block } => InputFault::BlockFull { block },
            BuildRefused::RowsFull { block, .. } => InputFault::RowsFull { block },
            BuildRefused::OutOfMemory => InputFault::OutOfMemory,
        }
    }
}
