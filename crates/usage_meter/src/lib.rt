//! Octet totals of a cluster's nodes, which any number of lanes add to at once, without a lock.
//!
//! A node's total is a word, and an add is one fetch-and-add on it. A lane adds with a seat of its own, whose ration is the
//! octets that it may still add. Rations are cut off one another, so no word wraps. For a gateway: share the `Meter`, cut a
//! seat for each lane, gather the lanes' seats once they are done, and read the totals with the seat that gathered them.
//!
//! A contract sees a seat's ration, its adds and the totals that it has read (`specs/Seats.antt`), which stand in proofs
//! alone. `specs/Rule.antt` says what words and seats have to do with one another, `specs/Plays.antt` what each step tells
//! its seat, and `proofs/Refused.antt` which wrong steps keep the rule under no view.
//!
//! No call waits, and none but `new` takes memory. Proved, for every interleaving of the steps: what each call makes of its
//! seats; that a total is at least what its seat added and had read there, at most that with what other seats were given,
//! and exact where the seat has gathered all others. Not said: that a call loads nothing besides. Only tested: that memory
//! suffices, and that threads ran.
#![tactic(auto)]

mod meter;
mod plays;
mod seat;
mod steps;
#[cfg(test)]
mod tests;
mod view;

pub use meter::Meter;
pub use seat::MeterSeat;
