//! A node's FIB of one owner: the records of the keys in the owner's blocks that the node handles.
//!
//! A contract sees a `Fib` as a `FibState`: `specs/Fib.antt` says what a turn of the owner makes of it, and what it is after
//! the owner's first turns.
//!
//! `share` makes of a FIB one writer, and readers in other threads that find in it while the writer applies turns. A
//! contract sees each of these ends as the turns that it has published or seen (`specs/Ends.antt`); `specs/Rule.antt` says
//! what holds of all of them at every moment. A call of these ends may wait, so no return of it is promised.
//!
//! `Fib::open`, `Fib::apply`, `share` and `FibWriter::apply` take memory.
//! Proved: each call's exact answer, but that want of memory may come at any time; after a refusal nothing has changed; a
//! FIB that took its owner's first turns is the FIB after these turns, and has of a key what its node answers by the map of
//! the key's group. Of a shared FIB, for every interleaving: a find is by published turns, all that its reader had seen
//! before and perhaps more; after `told` they are all; after want of memory readers find what they found. Only tested: that
//! memory suffices, and that threads ran.
#![tactic(auto)]

mod fib;
pub mod laws;
mod records;
mod refused;
mod seen;
mod sharing;
mod slot;
#[cfg(test)]
mod tests;

pub use fib::Fib;
pub use refused::FibRefused;
pub use seen::FibSeen;
pub use sharing::{FibReader, FibWriter, share, told};
