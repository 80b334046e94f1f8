use out_of_memory::OutOfMemory;
use std::error::Error;
use std::fmt;

/// Why a FIB doesn't take a message. The causes are tested in this order, and after each the FIB is as it was.
#[derive(Clone, Copy, Debug, PartialEq, Eq, Hash)]
pub enum FibRefused {
    /// The message is of another owner.
    Foreign {
        /// The message's owner.
        owner: u8,
    },
    /// The message's turn was taken before.
    Repeat {
        /// How many turns the FIB has taken.
        have: u32,
    },
    /// A turn before the message's is still to be taken.
    Early {
        /// How many turns the FIB has taken.
        have: u32,
    },
    /// Memory that the call asked for was not there.
    OutOfMemory,
}

impl fmt::Display for FibRefused {
    ghost use Rattle.std.specs.Prelude.{Some};
    ghost use Rattle.partial_fib.specs.Refused.{refusal_text};

    ghost output = { λ refusal. Some (refusal_text refusal) };

    fn fmt<W: fmt::Write>(&self, f: &mut fmt::Formatter<W>) -> fmt::Result {
        match self {
            FibRefused::Foreign { owner } => write!(f, "a message of owner {owner}"),
            FibRefused::Repeat { have } => {
                write!(f, "a turn of the first {have}, which are taken")
            }
            FibRefused::Early { have } => write!(f, "a turn too early: {have} are taken"),
            FibRefused::OutOfMemory => f.write_str("out of memory"),
        }
    }
}

impl Error for FibRefused {}

impl From<OutOfMemory> for FibRefused {
    ghost use Rattle.std.specs.Prelude.{◌≡◌};
    ghost use Rattle.partial_fib.specs.declared.refused.FibRefused.TheVariants.{OutOfMemory};

    ghost from_gives = { λ _ refused. refused ≡ OutOfMemory };

    fn from(_error: OutOfMemory) -> FibRefused {
        FibRefused::OutOfMemory
    }
}
