use std::error::Error;
use std::fmt;

/// Why a row of input is refused.
#[derive(Clone, Copy, Debug, PartialEq, Eq, Hash)]
pub enum Why {
    /// The row has another number of fields than its kind has.
    Fields,
    /// The first field names no kind that may stand here, or a part is neither `table` nor `fib`.
    Kind,
    /// A field isn't a number in its range.
    Number,
    /// A field isn't a dotted IPv4 address.
    Address,
    /// A node isn't one of the cluster's.
    Node,
    /// A `flow` whose key an earlier `flow` has.
    Duplicate,
    /// The input ends before `begin`.
    NoBegin,
    /// A `carry` in a run that has threads.
    CarryInStorm,
    /// One `sync` more than a run with threads may have.
    TooManyPhases,
    /// The input ends before `end`.
    NoEnd,
    /// A row after `end`.
    AfterEnd,
}

/// A row of input that is refused, and why.
#[derive(Clone, Copy, Debug, PartialEq, Eq, Hash)]
pub struct BadRow {
    /// The row's number, counted from 1. Where rows are missing, it is the number of rows plus 1.
    pub row: u32,
    /// What is wrong with it.
    pub why: Why,
}

impl fmt::Display for Why {
    ghost use Rattle.std.specs.Prelude.{Some};
    ghost use Rattle.flow_types.specs.Refusal.{why_text};

    ghost output = { λ why. Some (why_text why) };

    fn fmt<W: fmt::Write>(&self, f: &mut fmt::Formatter<W>) -> fmt::Result {
        f.write_str(match self {
            Why::Fields => "another number of fields than the kind of row has",
            Why::Kind => "no kind of row or part that may stand here",
            Why::Number => "a field that is no number in its range",
            Why::Address => "a field that is no dotted address",
            Why::Node => "a node that the cluster doesn't have",
            Why::Duplicate => "a key that an earlier flow has",
            Why::NoBegin => "the input ends before begin",
            Why::CarryInStorm => "a carry in a run that has threads",
            Why::TooManyPhases => "more syncs than a run with threads may have",
            Why::NoEnd => "the input ends before end",
            Why::AfterEnd => "a row after end",
        })
    }
}

impl Error for Why {}

impl fmt::Display for BadRow {
    ghost use Rattle.std.specs.Prelude.{Some};
    ghost use Rattle.flow_types.specs.Refusal.{bad_row_text};

    ghost output = { λ bad. Some (bad_row_text bad) };

    fn fmt<W: fmt::Write>(&self, f: &mut fmt::Formatter<W>) -> fmt::Result {
        write!(f, "row {}: {}", self.row, self.why)
    }
}

impl Error for BadRow {}
