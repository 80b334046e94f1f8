//! The rows that a grind makes from its seed: a cluster of four nodes and 16 blocks, 16,384 flows, and a script of 1,000
//! updates with 20 packets after each and a `sync` after every tenth.
//!
//! A contract sees the random numbers as a function of the seed and of their number (`specs/Draws.antt`), of them the flows and
//! the script (`specs/Made.antt`), and the octets of the rows (`specs/Rows.antt`, `specs/Input.antt`).
//! Proved: the octets, or want of memory, and that they are within the limit of an input. Only tested: that memory suffices,
//! and that the rows are read again as what they were made from.
#![tactic(auto)]

mod drawing;
mod fields;
mod input;
mod made;
mod rows;

pub use input::grind_input;

#[cfg(test)]
mod tests;
