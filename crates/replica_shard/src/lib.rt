//! A node's table of the blocks that one node owns: by it the node routes each key of these blocks.
//!
//! One writer takes the owner's turns, and any number of readers route beside it without a lock. For a gateway: share the
//! `Shard`, give its `ShardWriter` to the thread that applies messages and a `ShardReader` to each that routes. The groups
//! stand in `group_cell`'s cells, where the owner's blocks are numbered from 0; here they have the cluster's numbers.
//!
//! A contract sees, of each seat, the list of the records that it has taken or seen (`specs/Seats.antt`), and by such a
//! list a `ShardState` (`specs/Store.antt`): the cluster's size, the owner, the choices of each of the owner's blocks, the
//! record and the version of each of their groups, and how many of the owner's turns were taken. `specs/Shard.antt` says
//! what a turn makes of it, what it is after turns, and where it sends a key; `specs/Turns.antt` what the
//! messages of an owner's changes make of it.
//!
//! Only `open`, `open_plan` and `ShardPlan::of` take memory, and no call waits. Proved, for every interleaving of loads and
//! stores: each call's exact answer; that a shard takes its owner's next turn and no other, and after a refusal is as it
//! was; that one opened with the images of a cluster's flows, which took the first turns of its owner, has the canonical
//! record of each group's map after these turns, and the number of the group's changes as its version, and so has what a
//! reader has seen of it; that a route goes to no node but the cluster's. `open` may answer want of memory at any time. Not
//! said: that a route ever succeeds beside a writer that never rests. Only tested: that memory suffices, and that threads
//! ran.
#![tactic(auto)]

pub mod laws;
mod refused;
mod routing;
mod shard;
#[cfg(test)]
mod tests;
mod threads;

pub use group_cell::Changing;
pub use refused::ShardRefused;
pub use routing::Route;
pub use shard::{Shard, ShardPlan, ShardReader, ShardWriter};
