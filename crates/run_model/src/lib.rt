//! The definitions of a run with updates, carries and syncs, and what holds of every such run.
//!
//! `specs/State.antt` says what a cluster is in a run, `Updates`, `Packets` and `Carrying` what an event makes of it and how
//! it is answered, and `Replaying` what a whole script is answered on one thread. `specs/Allowed.antt` says which replies the
//! model allows, on one thread or on many; `Sound` and `Paths` what makes a reply a path; `specs/Laws.antt` what holds of all.
//! Proved: each replay's replies are allowed, with one lane or any other number; a packet's reply at any version between the two
//! ends of its phase is a path, by the canonical record; where replies are allowed, no lane goes
//! back, and where ingress and node stand at one version a known flow is found at its handler and only an absent key is
//! unknown; each packet of a replay goes where the canonical record of its key's group sends it; nodes have taken prefixes of
//! the owners' turns, in whatever order and however often messages are carried, since a message is applied only where it is the next
//! turn; and an accepted update has the next turn of its owner. There is no code here but the reply's type.
#![tactic(auto)]

mod laws;
mod reply;

pub use laws::{
    carries_take_the_next_turn, each_version_is_a_path, no_lane_goes_back, nodes_take_prefixes,
    one_version_tells, replays_are_allowed, replays_go_by_records, updates_take_the_next_turn,
};
pub use reply::Reply;
