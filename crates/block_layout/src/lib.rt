//! The layout of a block: its 256 buckets of keys, and the group that each bucket goes to.
//!
//! A bucket has four candidate groups among the 64 of its block (`specs/Candidate.antt`). `choose` deals the buckets
//! out to their candidates so that the groups fill evenly, by the numbers of keys alone (`specs/Dealing.antt`). A
//! contract sees the choices of a block as the list of its buckets' choices (`specs/Choices.antt`). No call takes
//! memory.
//! Proved: each call computes its definition, and what `laws` says of the definitions. Only tested: that the
//! definitions meet vectors from outside.
#![tactic(auto)]

mod candidates;
mod choices;
mod dealing;
pub mod laws;
mod limits;
mod ranking;
#[cfg(test)]
mod tests;

pub use candidates::candidate;
pub use choices::Choices;
pub use dealing::choose;
pub use limits::{BUCKETS, CANDIDATES, GROUPS, MOST_KEYS};
