//! The types that every layer names: flow keys, records, flows, a cluster's shape, and why a row of input is bad.
//!
//! A contract sees a key as its fields, of which `specs/Key.antt` makes its number and its octets, a shape as its two
//! numbers (`specs/Size.antt`), and texts by what they write (`specs/Text.antt`). No call takes memory.
//! Proved: each call computes its definition, and the definitions fit together as `laws` says. Only tested: that the
//! definitions meet vectors from outside.
#![tactic(auto)]

mod address;
mod key;
pub mod laws;
mod limits;
mod numeral;
mod record;
mod shape;
#[cfg(test)]
mod tests;
mod why;

pub use address::{read_address, write_address};
pub use key::FlowKey;
pub use limits::MOST_TURNS;
pub use numeral::read_number;
pub use record::{Flow, Record};
pub use shape::Shape;
pub use why::{BadRow, Why};
