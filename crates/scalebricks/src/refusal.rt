ghost use Rattle.std.specs.Prelude.{◌≡◌, IfOk, string_bytes};
ghost use Rattle.scalebricks.specs.Printed.{refused_block, refused_row, why_word};

use flow_types::{BadRow, Why};
use std::alloc::{AllocError, Global};

/// The line of a row that is refused.
#[tactic(auto, unfolding(crate::specs::Printed::refused_row))]
pub fn refused_row(alloc: Global, bad: BadRow) -> Result<String, AllocError>
    ensures { IfOk result (λ line. string_bytes line ≡ refused_row bad) }
{
    let row = bad.row;
    let why = why_word(bad.why);
    format!(in alloc; "refused row {row} {why}\n")
}

/// The line of a block that is past a limit.
#[tactic(auto, unfolding(crate::specs::Printed::refused_block))]
pub fn refused_block(alloc: Global, block: u16, why: &str) -> Result<String, AllocError>
    ensures { IfOk result (λ line. string_bytes line ≡ refused_block block why.now) }
{
    format!(in alloc; "refused block {block} {why}\n")
}

fn why_word(why: Why) -> &'static str
    ensures { result.now ≡ why_word why }
{
    match why {
        Why::Fields => "Fields",
        Why::Kind => "Kind",
        Why::Number => "Number",
        Why::Address => "Address",
        Why::Node => "Node",
        Why::Duplicate => "Duplicate",
        Why::NoBegin => "NoBegin",
        Why::CarryInStorm => "CarryInStorm",
        Why::TooManyPhases => "TooManyPhases",
        Why::NoEnd => "NoEnd",
        Why::AfterEnd => "AfterEnd",
    }
}
