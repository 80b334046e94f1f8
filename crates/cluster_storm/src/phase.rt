//! A phase of a storm: its threads, what they left in the links, what the lanes are told, and the replies of all.
ghost use Rattle.std.specs.Prelude.{◌≡◌, ◌+◌, ◌<◌, ◌^◌, All, ℕ, OnOk, false, length};
ghost use Rattle.run_model.specs.Laws.{IsRow};
ghost use Rattle.storm_model.specs.Phase.{IsOnePhase};
ghost use Rattle.turn_relay.specs.Follow.{works};
ghost use Rattle.cluster_storm.specs.Dealing.{WorkAlone};
ghost use Rattle.cluster_storm.specs.Rest.{AreLinkedFor, IsAtRest, IsWorked, opening_of};

use crate::crew::{Phase, run};
use crate::dealing::{how_many, working_owners};
use crate::finishing::finish_all;
use crate::meeting::meet;
use crate::merging::merge;
use crate::stage::Storm;
use crate::taking::{have_all_worked, lanes_replies, owners_replies};
use flow_types::{Flow, Shape};
use out_of_memory::OutOfMemory;
use packet_reader::Event;
use run_model::Reply;
use sb_io::Gate;
use std::alloc::Global;
use std::sync::Wait;
use std::sync::atomic::AtomicU64;
use std::thread::Threads;
use storm_lane::Lane;
use turn_relay::{Applier, Owner};

/// Runs the events of a phase, in which the first packet and the first update have these numbers. Their replies are put behind
/// the others.
///
/// After `OutOfMemory` the storm can only be closed.
pub(crate) fn run_phase<R: Threads + Wait + Sync, G: Gate + Sync>(
    rt: &R,
    alloc: Global,
    gate: &G,
    storm: &mut Storm,
    events: &[Event],
    first_packet: u32,
    first_update: u32,
    replies: &mut Vec<Reply>,
) -> Result<(), OutOfMemory>
    requires rests { IsAtRest storm.old }
    requires few_packets { first_packet + length events.now < 2 ^ 32 }
    requires few_updates { first_update + length events.now < 2 ^ 32 }
    requires one { IsOnePhase events.now }
    requires rows { All (IsRow (opening_of storm.old)) events.now }
    requires linked { AreLinkedFor storm.old events.now }
    ensures worked { OnOk result (IsWorked storm.old storm.new events.now first_packet replies.old.items
        replies.new.items) }
{
    let working = working_owners(alloc, storm.shape, events)?;
    let phase = Phase {
        gate,
        flows: storm.flows.as_slice(),
        events,
        first_packet,
        first_update,
        working: working.as_slice(),
        owners: how_many(working.as_slice()),
        started: AtomicU64::new(0),
        done: AtomicU64::new(0),
    };
    work(
        rt,
        alloc,
        storm.shape,
        &phase,
        storm.threads,
        storm.owners.as_mut_slice(),
        storm.appliers.as_mut_slice(),
        storm.lanes.as_mut_slice(),
        replies,
    )?;
    Ok(())
}

/// The work of a phase.
fn work<R: Threads + Wait + Sync, G: Gate + Sync>(
    rt: &R,
    alloc: Global,
    shape: Shape,
    phase: &Phase<G>,
    threads: usize,
    owners: &mut [Owner],
    appliers: &mut [Applier],
    lanes: &mut [Lane],
    replies: &mut Vec<Reply>,
) -> Result<(), OutOfMemory>
    requires rests { IsAtRest (record {
      size = shape;
      flows = phase.now.flows.now;
      owners = owners.old;
      appliers = appliers.old;
      lanes = lanes.old;
    }) }
    requires few_packets { phase.now.first_packet + length phase.now.events.now < 2 ^ 32 }
    requires few_updates { phase.now.first_update + length phase.now.events.now < 2 ^ 32 }
    requires one { IsOnePhase phase.now.events.now }
    requires rows { All (IsRow (record { size = shape; flows = phase.now.flows.now })) phase.now.events.now }
    requires linked { AreLinkedFor (record {
      size = shape;
      flows = phase.now.flows.now;
      owners = owners.old;
      appliers = appliers.old;
      lanes = lanes.old;
    }) phase.now.events.now }
    requires working { WorkAlone shape phase.now.events.now phase.now.working.now }
    requires counted { phase.now.owners ≡ 0 → (owner : ℕ) → works phase.now.working.now owner ≡ false }
    ensures worked { OnOk result (IsWorked
        (record { size = shape; flows = phase.now.flows.now; owners = owners.old; appliers = appliers.old; lanes = lanes.old })
        (record { size = shape; flows = phase.now.flows.now; owners = owners.new; appliers = appliers.new; lanes = lanes.new })
        phase.now.events.now phase.now.first_packet replies.old.items replies.new.items) }
{
    run(rt, phase, threads, appliers, lanes, owners);
    if !have_all_worked(owners, lanes) {
        return Err(OutOfMemory);
    }
    let mut by_owner = owners_replies(alloc, shape.nodes(), owners)?;
    let mut by_lane = lanes_replies(alloc, lanes)?;
    if !finish_all(
        rt,
        phase.gate,
        phase.flows,
        phase.working,
        0,
        owners,
        appliers,
    ) {
        return Err(OutOfMemory);
    }
    meet(rt, lanes, appliers);
    merge(
        shape,
        lanes.len(),
        phase.events,
        phase.first_packet as usize,
        by_owner.as_mut_slice(),
        by_lane.as_mut_slice(),
        replies,
    )?;
    Ok(())
}
