//! The printed lines of a run with updates, packets and messages.
//!
//! `specs/Report.antt` says which line each event and its reply have, and which replies are printed: want of memory ends a
//! run, and a `sync` has no line. Packets are numbered by packets, and the last line has their counts. `report` is that text,
//! built in one piece of memory. `summary` is one line with the counts of a run over rows that were made from a seed.
//! Proved: the text, octet by octet, or want of memory. Of the lists of replies that are allowed for a script whose numbers fit
//! their types, each has a text of its own (`specs/Law.antt`). Only tested: that memory suffices.
#![tactic(auto)]

pub mod laws;
mod lines;
mod reporting;

pub use reporting::{report, summary};

#[cfg(test)]
mod tests;
