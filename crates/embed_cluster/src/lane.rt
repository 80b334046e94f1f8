//! A lane's thread, and what a lane answers after a barrier.
ghost use Rattle.embed_cluster.specs.Parts.{AreSameNodes, AreSameReaders, CanAnswer, ReadBoth};

use crate::key;
use crate::node::Nodes;
use crate::owner::OWNER;
use flow_types::Shape;
use hash_family::HashedKey;
use run_model::Reply;
use std::sync::Wait;
use storm_lane::OwnerReaders;

/// How many packets a lane answers beside the owner.
const MANY: u16 = 1000;

/// A lane: its readers, and the node where its packets enter.
#[derive(Drop)]
pub(crate) struct Lane {
    pub(crate) readers: OwnerReaders,
    pub(crate) ingress: usize,
    /// How many packets it has answered beside the owner.
    pub(crate) answered: u16,
}

/// What a lane said.
#[derive(Drop)]
pub(crate) struct Said {
    pub(crate) ingress: usize,
    pub(crate) beside: u16,
    pub(crate) after: [Option<Reply>; 3],
}

/// The lane's work beside the owner: it answers packets from three ports in turn.
#[tactic(auto, using(crate::proofs::Same::staying))]
pub(crate) fn answer_many<R: Wait>(rt: &R, shape: Shape, lane: &mut Lane)
    requires can { CanAnswer shape lane.old }
    ensures same { AreSameReaders lane.old lane.new }
{
    let mut answered = 0;
    'packets: for packet in 0..MANY {
        if answer(rt, shape, lane, 1000 + packet % 3).is_some() {
            answered += 1;
        }
    }
    lane.answered = answered;
}

/// The path of a packet from this port, if its key is of the owner's blocks.
fn answer<R: Wait>(rt: &R, shape: Shape, lane: &mut Lane, port: u16) -> Option<Reply>
    requires can { CanAnswer shape lane.old }
    ensures same { AreSameReaders lane.old lane.new }
{
    let key = HashedKey::of(&key(port));
    if shape.owner(key.place(shape).block) != OWNER {
        return None;
    }
    Some(lane.readers.path(rt, lane.ingress, &key))
}

/// The lane's readers see all that both nodes have applied.
pub(crate) fn meet<R: Wait>(rt: &R, lane: &mut Lane, nodes: &mut Nodes)
    requires reads { ReadBoth lane.old nodes.old }
    ensures lane { AreSameReaders lane.old lane.new }
    ensures nodes { AreSameNodes nodes.old nodes.new }
{
    let Nodes { first, second } = nodes;
    let readers = &mut lane.readers;
    readers.meet_node(rt, 0, &mut first.table, &mut first.fib);
    readers.meet_node(rt, 1, &mut second.table, &mut second.fib);
}

/// What the lane says after the barrier.
#[tactic(auto, using(crate::proofs::Same::staying))]
pub(crate) fn say<R: Wait>(rt: &R, shape: Shape, lane: &mut Lane) -> Said
    requires can { CanAnswer shape lane.old }
{
    let first = answer(rt, shape, lane, 1000);
    let second = answer(rt, shape, lane, 1001);
    let third = answer(rt, shape, lane, 1002);
    Said {
        ingress: lane.ingress,
        beside: lane.answered,
        after: [first, second, third],
    }
}
