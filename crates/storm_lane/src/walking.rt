//! A lane's walk along the events of a phase.
ghost use Rattle.std.specs.Prelude.{◌≡◌, ◌+◌, ◌<◌, ◌≤◌, ◌^◌, ◌∷◌, [], length, All, OnOk};
ghost use Rattle.storm_model.specs.Lists.{IsLater, reply_by_lists};
ghost use Rattle.storm_model.specs.Merging.{behind_with, owner_of_key};
ghost use Rattle.storm_model.specs.Phase.{packets_after};
ghost use Rattle.storm_lane.specs.Lane.{AreWhole, all_seats, lists_of, parts_of};
ghost use Rattle.storm_lane.specs.Stepping.{Enters, TakesStep, WalksBehind};

use crate::readers::OwnerReaders;
use flow_types::laws::numbers_of_a_shape;
use flow_types::{FlowKey, Shape};
use hash_family::HashedKey;
use out_of_memory::OutOfMemory;
use packet_reader::Event;
use run_model::Reply;
use sb_io::{Gate, Who};
use std::sync::Wait;

/// Answers the lane's packets among the events of a phase, one after the other. The replies go behind others.
pub(crate) fn walk<R: Wait, G: Gate>(
    rt: &R,
    gate: &G,
    shape: Shape,
    readers: &mut [OwnerReaders],
    events: &[Event],
    first: u32,
    lanes: u8,
    lane: u8,
    replies: &mut Vec<Reply>,
) -> Result<(), OutOfMemory>
    requires few { first + length events.now < 2 ^ 32 }
    requires some { 0 < lanes }
    requires whole { AreWhole shape (all_seats readers.old) }
    requires enters { All (Enters shape) events.now }
    ensures seats { all_seats readers.new ≡ all_seats readers.old }
    ensures later { IsLater (lists_of readers.old) (lists_of readers.new) }
    ensures walks { OnOk result (WalksBehind shape (parts_of (all_seats readers.old)) lanes lane (lists_of readers.old) first events.now
        replies.old.items replies.new.items (lists_of readers.new)) }
{
    let mut packet = first;
    'events: for event in events {
        let said = step(rt, gate, shape, readers, event, packet, lanes, lane);
        packet = counted(event, packet);
        put(replies, said)?;
    }
    Ok(())
}

/// The lane's reply to the event, where that is one of its packets.
fn step<R: Wait, G: Gate>(
    rt: &R,
    gate: &G,
    shape: Shape,
    readers: &mut [OwnerReaders],
    event: &Event,
    packet: u32,
    lanes: u8,
    lane: u8,
) -> Option<Reply>
    requires some { 0 < lanes }
    requires whole { AreWhole shape (all_seats readers.old) }
    requires enters { Enters shape event.now }
    ensures seats { all_seats readers.new ≡ all_seats readers.old }
    ensures later { IsLater (lists_of readers.old) (lists_of readers.new) }
    ensures takes { TakesStep shape (parts_of (all_seats readers.old)) lanes lane event.now packet (packets_after packet (event.now ∷ []))
        (lists_of readers.old) (lists_of readers.new) result }
{
    match *event {
        Event::Packet { ingress, key } => {
            if packet % u32::from(lanes) == u32::from(lane) {
                gate.before(Who::Lane(lane), packet);
                let reply = answer(rt, shape, readers, usize::from(ingress), key);
                gate.after(Who::Lane(lane), packet);
                Some(reply)
            } else {
                None
            }
        }
        _ => None,
    }
}

/// The path of a packet, by the readers of its key's owner.
fn answer<R: Wait>(
    rt: &R,
    shape: Shape,
    readers: &mut [OwnerReaders],
    ingress: usize,
    key: FlowKey,
) -> Reply
    requires whole { AreWhole shape (all_seats readers.old) }
    requires entered { ingress < shape.nodes }
    ensures seats { all_seats readers.new ≡ all_seats readers.old }
    ensures later { IsLater (lists_of readers.old) (lists_of readers.new) }
    ensures said { result ≡ reply_by_lists shape (parts_of (all_seats readers.old)) (lists_of readers.new) ingress key }
{
    numbers_of_a_shape(shape);
    let key = HashedKey::of(&key);
    let owner = owner_of(shape, &key);
    readers[owner].path(rt, ingress, &key)
}

/// The node that owns the key.
fn owner_of(shape: Shape, key: &HashedKey) -> usize
    ensures { result ≡ owner_of_key shape key.now }
{
    usize::from(shape.owner(key.place(shape).block))
}

/// The number of the next packet after the event.
fn counted(event: &Event, packet: u32) -> u32
    requires { packet + 1 < 2 ^ 32 }
    ensures is { result ≡ packets_after packet (event.now ∷ []) }
    ensures within { result ≤ packet + 1 }
{
    match event {
        Event::Packet { ingress: _, key: _ } => packet + 1,
        Event::Set(_) | Event::Del(_) | Event::Sync => packet,
        Event::Carry {
            node: _,
            owner: _,
            turn: _,
            part: _,
        } => packet,
    }
}

/// Puts the reply, if there is one, behind the others.
fn put(replies: &mut Vec<Reply>, said: Option<Reply>) -> Result<(), OutOfMemory>
    ensures { OnOk result (replies.new.items ≡ behind_with replies.old.items said) }
{
    if let Some(reply) = said {
        replies.push(reply)?;
    }
    Ok(())
}
