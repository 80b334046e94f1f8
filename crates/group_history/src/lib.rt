//! The accepted changes of one owner, and what they make of a group's map.
//!
//! A contract sees a `Journal` as its list of changes and its spare room. `specs/Change.antt` says what a change makes
//! of a map, `specs/Journal.antt` which changes concern a group, `specs/History.antt` the group's map at each of its
//! versions, and `specs/Routes.antt` what a map says of a packet. Only `Journal::reserve` takes memory.
//! Proved: each call's exact answer, and that the definitions fit together as `laws` says. Only tested: that memory
//! suffices.
#![tactic(auto)]

mod change;
mod journal;
pub mod laws;
mod refused;
#[cfg(test)]
mod tests;
mod update;

pub use change::Change;
pub use journal::Journal;
pub use refused::UpdateRefused;
pub use update::Update;
