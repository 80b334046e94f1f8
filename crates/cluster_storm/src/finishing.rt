//! At a phase's end the links of the owners that worked are emptied.
ghost use Rattle.std.specs.Prelude.{◌≡◌, ◌+◌, ◌<◌, ◌^◌, ◌⊎◌, true, length};
ghost use Rattle.turn_relay.specs.Each.{AllFrom, Each, Every};
ghost use Rattle.turn_relay.specs.Finish.{Finishes, IsQuietAt};
ghost use Rattle.turn_relay.specs.Follow.{works};
ghost use Rattle.cluster_storm.specs.Ending.{Awaits, KeepsBefore, KeepsParts};

use crate::dealing::is_working;
use flow_types::Flow;
use sb_io::Gate;
use std::sync::Wait;
use turn_relay::{Applier, Owner, finish};

/// Takes and applies all that is left in the owner's links, if it worked: whether the nodes are up to date with it then.
#[tactic(auto, using(turn_relay::proofs::Phases::are_quiet))]
fn finish_one<R: Wait, G: Gate>(
    rt: &R,
    gate: &G,
    flows: &[Flow],
    working: &[bool],
    owner: &mut Owner,
    appliers: &mut [Applier],
) -> bool
    requires awaits { Awaits flows.now working.now appliers.old owner.old }
    ensures kept { owner.new ≡ owner.old }
    ensures finishes { (appliers.new ≡ appliers.old) ⊎ Each (Finishes owner.old.number) appliers.old
        appliers.new }
    ensures quiet { result ≡ true → Every (IsQuietAt flows.now owner.old) appliers.new }
{
    if !is_working(working, usize::from(owner.number())) {
        return true;
    }
    finish(rt, gate, flows, owner, appliers)
}

/// Takes and applies all that is left in the links of the owners that worked, from this owner on, where all threads are taken
/// in: whether the nodes are up to date then. Else memory was wanting, and the links of later owners are left as they are.
#[tactic(auto, using(crate::proofs::Finishings::finishings))]
pub(crate) fn finish_all<R: Wait, G: Gate>(
    rt: &R,
    gate: &G,
    flows: &[Flow],
    working: &[bool],
    first: usize,
    owners: &mut [Owner],
    appliers: &mut [Applier],
) -> bool
    requires room { first + length owners.old < 2 ^ 64 }
    requires numbered { AllFrom (λ number owner. owner.number ≡ number) first owners.old }
    requires awaits { Every (Awaits flows.now working.now appliers.old) owners.old }
    ensures kept { owners.new ≡ owners.old }
    ensures parts { Each KeepsParts appliers.old appliers.new }
    ensures before { Each (KeepsBefore first) appliers.old appliers.new }
    ensures quiet { result ≡ true → Every (λ owner. Every (IsQuietAt flows.now owner) appliers.new)
        owners.old }
{
    let Some((owner, others)) = owners.split_first_mut() else {
        return true;
    };
    if !finish_one(rt, gate, flows, working, owner, appliers) {
        return false;
    }
    finish_all(rt, gate, flows, working, first + 1, others, appliers)
}
