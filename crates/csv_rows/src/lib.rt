//! The rows of a text of bytes, one after the other, as the crate `csv` reads them: commas, double quotes, lines that
//! end in CR, LF or both, no header row, no trimming, and any number of fields in a row. Blank lines are no rows, a
//! byte order mark at the start is skipped, and a last line needs no end.
//!
//! A contract sees the rows of the bytes as a list (`specs/Rows.antt`), and of a reader the rows that it has left.
//! Proved: `next_row` gives exactly them, in order. Only tested: that memory suffices.
#![tactic(auto)]

mod reader;

pub use csv::ByteRecord;
pub use reader::{RowReader, field};

#[cfg(test)]
mod tests;
