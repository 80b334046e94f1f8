//! The replies of owners and lanes, in the order of the script.
ghost use Rattle.std.specs.Prelude.{◌≡◌, ◌≢◌, ℕ, ◌+◌, ◌<◌, ◌≤◌, ◌^◌, ◌∷◌, [], length, List, OnOk};
ghost use Rattle.packet_reader.specs.declared.event.Event.{Event};
ghost use Rattle.storm_model.specs.Phase.{packets_after};
ghost use Rattle.storm_model.specs.Merging.{CanMerge, HasNext, MergesBehind, Takes, TakesOne, owner_of_key, queues_of};

use flow_types::{FlowKey, Shape};
use hash_family::place;
use out_of_memory::OutOfMemory;
use packet_reader::Event;
use run_model::Reply;
use std::marker::Model;

/// The replies that a worker has still to give, in their order.
#[derive(Drop)]
pub(crate) struct Queue {
    replies: Vec<Reply>,
    next: usize,
}

impl Model for Queue {
    ghost use Rattle.std.specs.Prelude.{List, drop};
    ghost use Rattle.run_model.specs.declared.reply.Reply.{Reply};

    ghost Value = { List Reply };

    ghost view = { λ q. drop q.next q.replies.items };
}

impl Queue {
    /// All of these replies.
    pub(crate) fn new(replies: Vec<Reply>) -> Queue
        ensures { result ≡ replies.items }
    {
        Queue { replies, next: 0 }
    }

    /// Takes the next reply, if there is one.
    fn take(&mut self) -> Option<Reply>
        ensures { Takes self.old result self.new }
    {
        if self.next < self.replies.len() {
            let reply = self.replies[self.next];
            self.next += 1;
            Some(reply)
        } else {
            None
        }
    }
}

/// The next reply of a worker, which has one.
fn next(queues: &mut [Queue], worker: usize) -> Reply
    requires there { worker < length queues.old }
    requires more { HasNext (queues_of queues.old worker) }
    ensures taken { queues_of queues.old worker ≡ result ∷ queues_of queues.new worker }
    ensures others { (other : ℕ) → other ≢ worker → queues_of queues.new other ≡ queues_of queues.old other }
    ensures count { length queues.new ≡ length queues.old }
{
    match queues[worker].take() {
        Some(reply) => reply,
        None => unreachable!(),
    }
}

/// The node that owns the key.
pub(crate) fn owner_of(shape: Shape, key: FlowKey) -> usize
    ensures is { result ≡ owner_of_key shape key }
    ensures low { result < shape.nodes }
{
    usize::from(shape.owner(place(shape, key).block))
}

/// The next reply of the worker that answers the event.
#[tactic(auto, using(crate::proofs::Merges::takings))]
fn take_one(
    shape: Shape,
    lanes: usize,
    event: &Event,
    packet: usize,
    owners: &mut [Queue],
    by_lane: &mut [Queue],
) -> Reply
    requires some { 0 < lanes }
    requires lanes { length by_lane.old ≡ lanes }
    requires owners { length owners.old ≡ shape.nodes }
    requires can { (script : List Event) × CanMerge shape lanes (queues_of owners.old)
        (queues_of by_lane.old) packet (event.now ∷ script) }
    ensures takes { TakesOne shape lanes event.now result (queues_of owners.old) (queues_of by_lane.old)
        (queues_of owners.new) (queues_of by_lane.new)
        packet (packets_after packet (event.now ∷ [])) }
    ensures lanes { length by_lane.new ≡ lanes }
    ensures owners { length owners.new ≡ shape.nodes }
{
    match *event {
        Event::Set(flow) => next(owners, owner_of(shape, flow.key)),
        Event::Del(key) => next(owners, owner_of(shape, key)),
        Event::Packet { ingress: _, key: _ } => next(by_lane, packet % lanes),
        Event::Carry {
            node: _,
            owner: _,
            turn: _,
            part: _,
        } => unreachable!(),
        Event::Sync => unreachable!(),
    }
}

/// The number of the next packet after the event.
pub(crate) fn counted(event: &Event, packet: usize) -> usize
    requires { packet + 1 < 2 ^ 64 }
    ensures is { result ≡ packets_after packet (event.now ∷ []) }
    ensures within { result ≤ packet + 1 }
{
    match event {
        Event::Packet { ingress: _, key: _ } => packet + 1,
        Event::Set(_) | Event::Del(_) | Event::Sync => packet,
        Event::Carry {
            node: _,
            owner: _,
            turn: _,
            part: _,
        } => packet,
    }
}

/// The replies of a phase, in the order of its events.
#[tactic(auto, using(crate::proofs::Merges::takings))]
pub(crate) fn merge(
    shape: Shape,
    lanes: usize,
    events: &[Event],
    first: usize,
    owners: &mut [Queue],
    by_lane: &mut [Queue],
    replies: &mut Vec<Reply>,
) -> Result<(), OutOfMemory>
    requires few { first + length events.now < 2 ^ 64 }
    requires some { 0 < lanes }
    requires lanes { length by_lane.old ≡ lanes }
    requires owners { length owners.old ≡ shape.nodes }
    requires can { CanMerge shape lanes (queues_of owners.old) (queues_of by_lane.old) first events.now }
    ensures { OnOk result (MergesBehind shape lanes (queues_of owners.old) (queues_of by_lane.old) first
        events.now replies.old.items replies.new.items) }
{
    let mut packet = first;
    'events: for event in events {
        let reply = take_one(shape, lanes, event, packet, owners, by_lane);
        packet = counted(event, packet);
        replies.push(reply)?;
    }
    Ok(())
}
