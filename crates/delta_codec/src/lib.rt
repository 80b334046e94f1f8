//! The octets of the messages that owners send to nodes: a group's new record for a node's table, and what becomes of a
//! key in a node's FIB.
//!
//! `specs/Fits.antt` says which messages fit a shape, `specs/Spelling.antt` what octets a message has, and
//! `specs/Fields.antt` of which fields octets are read and which of them is the first at fault.
//!
//! What messages say stands here, too: `specs/Journals.antt` whose changes a journal has, `specs/Op.antt` what a change means
//! for a node, `specs/Messages.antt` the messages of an owner's changes, `specs/Deltas.antt` what they tell the tables,
//! `specs/Turns.antt` why who takes an owner's turns in order refuses one, and `specs/Routed.antt` where flows send a key.
//!
//! No call takes memory.
//! Proved: a message that fits has one spelling, which `encode` gives; `decode` gives exactly the message whose spelling
//! begins the octets, and else exactly the first fault. Only tested: that the definitions meet vectors from outside.
#![tactic(auto)]

mod content;
mod decoding;
mod encoding;
mod fitting;
mod heading;
pub mod laws;
mod message;
mod operation;
mod reading;
mod refused;
mod starting;
#[cfg(test)]
mod tests;

pub use decoding::{decode, decode_short};
pub use encoding::{LONGEST_MESSAGE, LONGEST_SHORT_MESSAGE, encode, encode_short};
pub use fitting::fits;
pub use message::{FibMessage, FibOp, Message, ServedMessage, ShortMessage, TableMessage};
pub use refused::{BadField, DecodeRefused};
