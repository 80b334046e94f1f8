//! A cluster's run by one thread: from the rows of an input to the printed reply of each event.
//!
//! A contract sees an input as what it comes to: its report, its first bad row, or its first block past a limit
//! (`specs/Outcome.antt`); `cluster_open` says what stands in the output of a run, and row by row what its faults are. A
//! `Cluster` is seen as how far the run has come: its opening, what each owner has accepted, and how many of each owner's turns
//! each node has taken (`specs/Cluster.antt`).
//!
//! Proved: `replay` gives its input's outcome, or want of memory; its text is a run's. `Cluster::handle` answers each event
//! as the model does by the events before it, and after want of memory answers so for ever. Only tested: that memory
//! suffices. No clause says that the replies are taken from the nodes' tables and FIBs.
#![tactic(auto)]

mod answering;
mod carrying;
mod cluster;
mod law;
mod node;
mod opening;
mod replaying;
mod syncing;

pub use cluster::Cluster;
pub use cluster_open::{InputFault, first_bad_row_law, openings_can_be_opened};
pub use law::replays_are_runs;
pub use opening::open;
pub use packet_reader::{Event, Part};
pub use replaying::{Replayed, answer_rows, replay, replay_input};
pub use run_model::Reply;
pub use run_report::report;
