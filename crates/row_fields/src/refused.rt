ghost use Rattle.std.specs.Prelude.{◌≡◌};
ghost use Rattle.row_fields.specs.Refused.{bad_row};

use flow_types::{BadRow, Why};
use out_of_memory::OutOfMemory;
use std::error::Error;
use std::fmt;

/// Why an input isn't read.
#[derive(Clone, Copy, Debug, PartialEq, Eq)]
pub enum RowRefused {
    /// The first row that breaks a rule.
    Bad(BadRow),
    /// Memory that the call asked for was not there.
    OutOfMemory,
}

impl From<OutOfMemory> for RowRefused {
    ghost use Rattle.row_fields.specs.declared.refused.RowRefused.TheVariants as refused;

    ghost from_gives = { λ _ e. e ≡ refused.OutOfMemory };

    fn from(_error: OutOfMemory) -> RowRefused {
        RowRefused::OutOfMemory
    }
}

impl fmt::Display for RowRefused {
    ghost use Rattle.std.specs.Prelude.{Some};
    ghost use Rattle.row_fields.specs.Refused.{refused_text};

    ghost output = { λ refused. Some (refused_text refused) };

    fn fmt<W: fmt::Write>(&self, f: &mut fmt::Formatter<W>) -> fmt::Result {
        match self {
            RowRefused::Bad(bad) => write!(f, "{bad}"),
            RowRefused::OutOfMemory => f.write_str("out of memory"),
        }
    }
}

impl Error for RowRefused {}

/// The refusal of the row of this number, counted from 1.
pub fn refusal(row: u32, why: Why) -> RowRefused
    ensures { result ≡ RowRefused.Bad (bad_row row why) }
{
    RowRefused::Bad(BadRow { row, why })
}
