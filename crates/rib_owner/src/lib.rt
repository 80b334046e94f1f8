//! The flows that one owner keeps, and the updates that it accepts.
//!
//! A contract sees an `Owner` as a `Rib`: its blocks with the map of each of their groups, and its journal. The flows of
//! a block stand by their buckets in one arena (`specs/Stock.antt`), and a group's map has those of its buckets.
//! `specs/Rib.antt` says what these maps are after the journal's changes, `group_history/specs/Acceptance.antt` which
//! updates are accepted and for what the others are refused, and `specs/Turn.antt` what an accepted one gives. An
//! update is accepted in two halves, between which a caller may reserve memory of its own: `Owner::judge` decides and
//! changes nothing (`specs/Decision.antt`), and `Owner::commit` makes the change. `Owner::open`, `Owner::commit` and
//! `Owner::accept` take memory.
//! Proved: each answer, exactly, but that want of memory may come at any time; after a refusal nothing has changed.
//! Only tested: that memory suffices.
#![tactic(auto)]

mod acceptance;
mod block;
mod decision;
mod gathering;
mod item;
mod judging;
mod opening;
mod owner;
#[cfg(test)]
mod tests;
mod turn;

pub use decision::Decision;
pub use flow_types::MOST_TURNS;
pub use group_history::{Update, UpdateRefused};
pub use owner::Owner;
pub use turn::{FibPlan, Turn};
