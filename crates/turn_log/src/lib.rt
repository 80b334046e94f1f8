//! An owner with the messages of its turns.
//!
//! A contract sees a `Sender` as a `SenderState`: its owner, the octets of all messages, and where those of each turn begin.
//! `specs/Sender.antt` says what holds of it, `specs/Sent.antt` which messages a turn has and where they begin, and
//! `specs/Room.antt` that no change asked for more rows than were free. A turn's message for the nodes' tables is kept once,
//! and of the messages for their FIBs those that differ: one that puts, one that drops, and one for all other nodes. They
//! are decoded each time they are asked for. `Sender::open` and `Sender::accept` take memory.
//! Proved: each call's exact answer, but that want of memory may come at any time; after a refusal nothing has changed; a
//! message of any turn so far is the one that the turn's change makes. Only tested: that memory suffices, and the octets of
//! three turns.
#![tactic(auto)]

mod message;
mod octets;
mod opening;
mod sender;
mod sending;
mod sent;
#[cfg(test)]
mod tests;

pub use sender::Sender;
