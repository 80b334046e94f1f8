//! What lanes, owners and nodes say together in a storm: definitions and laws, and no code.
//!
//! A phase is what lies between two `sync` rows. In it each owner walks along the events and answers its own updates
//! (`specs/Owners.antt`), and each lane walks along them and answers its own packets by what its readers have then seen
//! (`specs/Walk.antt`): by lists of records and turns (`Lists`), or by numbers of turns (`Stood`). `Follows` says what stands
//! at a node's table and FIB after an owner's turns, `Merging` how the workers' replies become the script's, `Run` what workers
//! give back of a phase and what a phase has said, `Storm` what a contract sees of a run.
//!
//! Proved (`specs/Laws.antt`): owners answer by themselves what the model answers; what lanes answered by lists is what the model
//! answers by turns; once all workers have done their part there is a reply to each event, and the merged replies are the phase's;
//! and what phase after phase has said is allowed by the model, so that `run_model`'s laws hold of it: where ingress and node
//! stand at one version the answer is the map's, and no lane goes back. Each packet goes where the canonical record of its
//! key's group sends it. That workers do their part is proved in the crates of their code, whose edits are refused where they don't.
#![tactic(auto)]

mod laws;

pub use laws::{
    idle_owners_say_nothing, journals_go_on, lanes_walk_by_turns, owners_answer_alone,
    owners_end_alone, phases_are_said, storms_are_allowed, storms_go_by_records,
};
