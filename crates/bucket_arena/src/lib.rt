//! 256 lists in one allocation of raw memory.
//!
//! A contract sees an `Arena` as its 256 lists and `spare`, the number of items that can be pushed before memory is asked
//! for. Items stand in cells of one piece of raw memory, each with the number of the next cell of its chain: a chain a
//! bucket, and one of the cells that were given back. `specs/Chains.antt` has the laws: each cell stands in exactly one
//! chain, and the chains' lengths add up to the cells.
//! Four functions touch the raw memory (`src/piece.rt`): take a piece, read a cell, write a cell, give the piece back.
//! Only `reserve` and `settle` ask for memory, and a refusal changes nothing that a contract sees.
//! Proved: each call's exact answer. Only tested: that `reserve` answers Ok where there is memory.
#![tactic(auto)]

mod arena;
mod chain;
mod items;
mod piece;
mod row;
#[cfg(test)]
mod tests;

pub use arena::Arena;
pub use items::Items;
