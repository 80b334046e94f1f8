//! The path of one packet, and the seats at a node's tables that outlive the thread which takes them along.
//!
//! `path_of` routes a key by the ingress's table of the key's owner, and asks the FIB of the node that it is sent to. A
//! contract sees the shard's list that the reader has then seen, and the list of the node's FIB reader: the reply is the
//! one that these two lists give, and no other reader has moved. `TableSeat` and `ViewSeat` hold a shard in common, each with
//! a seat of it: whoever has one needs no word on whose seat it is.
#![tactic(auto)]

mod path;
mod seats;
#[cfg(test)]
mod tests;

pub use path::{path_hashed, path_of};
pub use seats::{TableSeat, ViewSeat};
