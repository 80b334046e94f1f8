//! The hash functions of the table: a key's block and bucket, and the pair that gives its position in its group.
//!
//! `HashedKey` is a key with its hashes, for calls that would hash it again. A contract cites the functions of
//! `specs/Hash.antt`, over a key's number. No call takes memory.
//! Proved: each call computes its definition. The vectors that the definitions must agree with are in `src/tests.rt`.
#![tactic(auto)]

mod bucket;
mod hashed;
mod mixing;
mod pairing;
mod placing;
mod reciprocal;
#[cfg(test)]
mod tests;

pub use bucket::Place;
pub use hashed::HashedKey;
pub use mixing::{base, mix};
pub use pairing::{HashPair, pair, position};
pub use placing::place;
pub use reciprocal::Reciprocal;
