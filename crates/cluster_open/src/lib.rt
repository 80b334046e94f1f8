//! What a run of either mode begins with: the rows of its input, read whole, and what stands in its cluster before the first
//! event. And what is said of a run.
//!
//! A contract sees an input as what it says in a mode: its opening and its script, or its fault (`specs/Input.antt`, and row by
//! row `specs/FirstBad.antt`). `specs/Runs.antt` says what a run's replies and its text are, in the words of `run_model`, and
//! `specs/Laws.antt` that a text has one run.
//! The parts of a cluster are seen as what owners, tables and FIBs are before the first turn (`specs/Opened.antt`).
//!
//! Proved: `read_rows` gives what the rows say or the first bad row, `open_parts` the cluster's parts or the first block past
//! a limit, or want of memory. Only tested: that memory suffices.
#![tactic(auto)]

mod dealing;
mod fault;
mod law;
mod node;
mod opening;
mod reading;
mod table;

pub use fault::InputFault;
pub use law::{first_bad_row_law, one_text_one_run, openings_can_be_opened};
pub use node::NodeParts;
pub use opening::{ClusterParts, open_parts};
pub use reading::{InputRows, read_rows, read_vec};
pub use table::Table;

#[cfg(test)]
mod tests;
