//! At a phase's end the lanes see all that there is.
ghost use Rattle.std.specs.Prelude.{◌≡◌, ◌+◌, ◌<◌, ◌^◌, length};
ghost use Rattle.storm_lane.specs.Work.{MeetsAt};
ghost use Rattle.turn_relay.specs.Each.{Each, Every};
ghost use Rattle.cluster_storm.specs.Meeting.{HasMet, IsReaderOf, MeetsNodes, MeetsParts, ReadsNodes, ReadsParts};

use std::sync::Wait;
use storm_lane::Lane;
use turn_relay::{Applier, Part};

/// A lane sees all that a node has of an owner.
fn meet_part<R: Wait>(rt: &R, node: usize, owner: usize, lane: &mut Lane, part: &mut Part)
    requires reads { IsReaderOf lane.old node owner part.old }
    ensures kept { part.new ≡ part.old }
    ensures met { MeetsAt node owner part.old.table.list part.old.fib.turns lane.old lane.new }
{
    lane.meet_node(rt, owner, node, &mut part.table, &mut part.fib);
}

/// A lane sees all that a node has of the owners from this one on.
#[tactic(auto, using(crate::proofs::Meetings::parts_still_read))]
fn meet_parts<R: Wait>(rt: &R, node: usize, owner: usize, lane: &mut Lane, parts: &mut [Part])
    requires room { owner + length parts.old < 2 ^ 64 }
    requires reads { ReadsParts lane.old node owner parts.old }
    ensures kept { parts.new ≡ parts.old }
    ensures met { MeetsParts node owner parts.old lane.old lane.new }
{
    let Some((part, parts)) = parts.split_first_mut() else {
        return;
    };
    meet_part(rt, node, owner, lane, part);
    meet_parts(rt, node, owner + 1, lane, parts);
}

/// A lane sees all that a node has.
fn meet_node<R: Wait>(rt: &R, node: usize, lane: &mut Lane, applier: &mut Applier)
    requires reads { ReadsParts lane.old node 0 applier.old.parts }
    ensures kept { applier.new ≡ applier.old }
    ensures met { MeetsParts node 0 applier.old.parts lane.old lane.new }
{
    meet_parts(rt, node, 0, lane, applier.parts.as_mut_slice());
}

/// A lane sees all that the nodes from this one on have.
#[tactic(auto, using(crate::proofs::Meetings::nodes_still_read))]
fn meet_nodes<R: Wait>(rt: &R, node: usize, lane: &mut Lane, appliers: &mut [Applier])
    requires room { node + length appliers.old < 2 ^ 64 }
    requires reads { ReadsNodes lane.old node appliers.old }
    ensures kept { appliers.new ≡ appliers.old }
    ensures met { MeetsNodes node appliers.old lane.old lane.new }
{
    let Some((applier, appliers)) = appliers.split_first_mut() else {
        return;
    };
    meet_node(rt, node, lane, applier);
    meet_nodes(rt, node + 1, lane, appliers);
}

/// Each lane sees all that there is. Tables and FIBs stay as they are.
#[tactic(auto, using(crate::proofs::Meetings::nodes_met))]
pub(crate) fn meet<R: Wait>(rt: &R, lanes: &mut [Lane], appliers: &mut [Applier])
    requires room { length appliers.old < 2 ^ 64 }
    requires reads { Every (λ lane. ReadsNodes lane 0 appliers.old) lanes.old }
    ensures kept { appliers.new ≡ appliers.old }
    ensures met { Each (HasMet appliers.old) lanes.old lanes.new }
{
    let Some((first, rest)) = lanes.split_first_mut() else {
        return;
    };
    meet_nodes(rt, 0, first, appliers);
    meet(rt, rest, appliers);
}
