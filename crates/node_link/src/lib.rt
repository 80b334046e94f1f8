//! A link from an owner to a node: what the one end sends, the other takes, in order.
//!
//! A contract sees an end as an `End`: its link, the shape of the link's messages, and the list of all messages that it sent
//! or took (`specs/Ends.antt`). The queue between the ends holds each message as its octets; `specs/Rule.antt` says what it
//! has to do with the two lists, and `specs/Moves.antt` what each call makes of them. Each end may be in a thread of its own.
//! `link` and `send` take memory; a call but `link` may wait, so no return of it is promised.
//! Proved, for every interleaving: what was taken is a beginning of what was sent, and where `settle` answers `Empty` it is
//! all that was sent. Only tested: that `receive` which answers `Empty` has looked, that memory suffices, and that threads ran.
#![tactic(auto)]

mod ends;
mod letter;
mod linking;
mod receiving;
mod rule;
mod sending;
mod settling;
mod taken;
#[cfg(test)]
mod tests;

pub use ends::{SendEnd, TakeEnd};
pub use linking::link;
pub use receiving::receive;
pub use sending::send;
pub use settling::settle;
pub use taken::Taken;
