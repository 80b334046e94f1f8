//! A cluster's run by threads, from the rows of an input to the printed reply of each event: owners accept the updates, lanes
//! answer the packets beside them, and each node has an applier that takes the turns' messages.
//!
//! A contract sees a storm as its owners, appliers and lanes, and `specs/Rest.antt` says what stands between two phases: each
//! node has all turns of each owner, and each lane has seen them. `specs/Opening.antt` says how it begins, `specs/Crew.antt`,
//! `specs/Dealing.antt` and `specs/Taking.antt` what the threads of a phase are given and give back, and `specs/Ending.antt` and
//! `specs/Meeting.antt` what is made of that at the phase's end. What a run's replies are stands in `cluster_open`
//! (its `specs/Runs.antt`), and what owners and lanes say together in a phase in `storm_model`.
//!
//! Proved, for every interleaving: `storm` gives the text of a run of its input on the lanes asked for, or the input's fault, or
//! want of memory. The model allows the run's replies; each packet goes by a canonical record, and what it is told where all that
//! answer stand at one version is of the group's map at this version; no lane goes back. No return is promised. Only tested: that
//! a storm ends, that memory suffices, and that owners, lanes and appliers work beside one another.
#![tactic(auto)]

mod crew;
mod dealing;
mod finishing;
mod making;
mod meeting;
mod merging;
mod phase;
mod phases;
mod running;
mod seating;
mod stage;
mod taking;

pub use cluster_open::InputFault;
pub use packet_path::path_of;
pub use running::{storm, storm_input};
