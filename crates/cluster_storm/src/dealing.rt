//! Which owners work in a phase.
ghost use Rattle.std.specs.Prelude.{◌≡◌, ◌≤◌, ℕ, false, IfOk, length, replicate};
ghost use Rattle.turn_relay.specs.Follow.{works};
ghost use Rattle.cluster_storm.specs.Dealing.{IsMarked, WorkAlone};

use crate::merging::owner_of;
use flow_types::Shape;
use out_of_memory::OutOfMemory;
use packet_reader::Event;
use std::alloc::Global;

/// For each node whether it owns a key that an update among the events names.
pub(crate) fn working_owners(
    alloc: Global,
    shape: Shape,
    events: &[Event],
) -> Result<Vec<bool>, OutOfMemory>
    ensures { IfOk result (λ working. WorkAlone shape events.now working.items) }
{
    let mut working = none_works(alloc, shape.nodes())?;
    'events: for event in events {
        mark(shape, event, &mut working);
    }
    Ok(working)
}

/// The marks of owners of which none works yet.
fn none_works(alloc: Global, nodes: u16) -> Result<Vec<bool>, OutOfMemory>
    ensures { IfOk result (λ working. working.items ≡ replicate nodes false) }
{
    Ok(vec![in alloc; false; usize::from(nodes)]?)
}

/// Notes that the event's owner works, if the event is an update.
fn mark(shape: Shape, event: &Event, working: &mut Vec<bool>)
    requires { length working.old.items ≡ shape.nodes }
    ensures many { length working.new.items ≡ shape.nodes }
    ensures marked { IsMarked shape event.now working.old.items working.new.items }
{
    match *event {
        Event::Set(flow) => working[owner_of(shape, flow.key)] = true,
        Event::Del(key) => working[owner_of(shape, key)] = true,
        Event::Packet { ingress: _, key: _ } => (),
        Event::Carry {
            node: _,
            owner: _,
            turn: _,
            part: _,
        } => (),
        Event::Sync => (),
    }
}

/// Whether the owner of this number works.
pub(crate) fn is_working(working: &[bool], number: usize) -> bool
    ensures { result ≡ works working.now number }
{
    number < working.len() && working[number]
}

/// How many owners work.
#[tactic(auto, using(crate::proofs::Dealt::none_more))]
pub(crate) fn how_many(working: &[bool]) -> u64
    ensures none { result ≡ 0 → (owner : ℕ) → works working.now owner ≡ false }
    ensures few { result ≤ length working.now }
{
    let Some((first, others)) = working.split_first() else {
        return 0;
    };
    let more = how_many(others);
    if *first { more + 1 } else { more }
}
