//! Groups of a cluster's table that one writer rewrites in place under any number of readers, without a lock.
//!
//! A group's record stands in a sequence word and two data words, and its rows, if it has any, in places of its block.
//! The writer makes the sequence word odd, writes, and makes it even again; a look that finds the same even number
//! before and after has read one whole published record, and any other look answers `Changing`. Of a served record it
//! loads the two data words and no place. For a gateway: share the `CellTable`, give its `WriterSeat` to the thread that
//! applies updates and a `ReaderSeat` to each that routes.
//!
//! A contract sees the list of what the writer has published and, of each reader, how much of it the reader has seen
//! (`specs/Seats.antt`; counts and versions are those of `group_search/specs/Published.antt`). `specs/Rule.antt` says
//! what words and seats have to do with these lists, and `specs/Plays.antt` what each step tells its seat.
//!
//! No call waits. What makes a plan or opens a table takes memory (`TablePlan::of`, `open`, `open_plan`), and no other call.
//! Proved, for every interleaving of loads and stores: each call's exact answer, and that the node in it is one of the
//! cluster's. Not said: that a look ever succeeds beside a writer that never rests. Only tested: that threads ran.
#![tactic(auto)]

mod layout;
mod plays;
mod table;
#[cfg(test)]
mod tests;
mod view;

pub use table::{CellTable, Changing, Look, ReaderSeat, TablePlan, WriterSeat};
