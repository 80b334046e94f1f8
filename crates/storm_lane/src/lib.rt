//! A lane of a storm: it answers its packets by its own readers of every node's tables and FIBs.
//!
//! A contract sees a lane's readers as lists of what they have seen (`specs/Readers.antt`, `specs/Lane.antt`), and what a lane
//! does in a phase as a walk along the events (`specs/Work.antt`): what its readers have seen only grows, and each of its packets
//! is answered by what they have then seen. Of which tables and FIBs the readers are stays as it is, and that each is of its
//! node and owner is part of the types, so that a thread takes a lane along without a word on its readers. Between phases
//! `meet_node` lets the readers of one owner at one node see all that its table and its FIB have taken.
//!
//! Proved: the above, for every schedule. A packet is answered again where its group was being rewritten, so `work` promises no
//! return. Only tested: that memory suffices.
#![tactic(auto)]

mod lane;
mod readers;
mod walking;

pub use lane::Lane;
pub use readers::OwnerReaders;
