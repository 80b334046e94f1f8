//! How an owner's turns come to the nodes in a storm, by links from thread to thread.
//!
//! An `Owner` goes along the events of a phase, answers its own updates, and sends each turn's two messages to every node. A
//! node's `Applier` has a `Part` for each owner: its table, its FIB, and the end of the link. A contract sees them as
//! `OwnerState`, `ApplierState` and `PartState`. `own_all` and `apply_all` are the work of threads, and their clauses are
//! relations between what a thread was given and what it gives back (`specs/OwnWork.antt`, `specs/Follow.antt`). When all
//! threads are taken in, `finish` empties an owner's links; `specs/Finish.antt` says what stands at the nodes then, and
//! `specs/Linking.antt` how `link` begins it.
//!
//! Proved, for every interleaving: an owner's replies and changes are the model's, and it has sent all its turns, or memory was
//! wanting; after `finish` a node's table and FIB of the owner have all its turns, each once and in order, or memory was
//! wanting; whoever doesn't work in a phase stays as it was. Only tested: that appliers take messages beside owners that send
//! them, that nothing waits for ever, and that the gate is passed round each piece of work.
#![tactic(auto)]

mod applier;
mod applying;
mod finishing;
mod linking;
mod owner;
mod owning;
mod part;
mod sending;
mod state;

pub use applier::{Applier, close_all, close_parts};
pub use applying::apply_all;
pub use finishing::finish;
pub use linking::link;
pub use owner::Owner;
pub use owning::own_all;
pub use part::Part;
pub use state::State;
