//! A storm's run over a script, phase by phase: syncs part it.
ghost use Rattle.std.specs.Prelude.{◌≡◌, ◌↔◌, ◌+◌, ◌<◌, ◌≤◌, ◌^◌, ◌∷◌, [], All, IfOk, IsTrue, drop, length, take};
ghost use Rattle.packet_reader.specs.declared.event.Event.TheVariants.{Sync};
ghost use Rattle.packet_reader.specs.declared.mode.Mode.TheVariants as mode;
ghost use Rattle.run_model.specs.Laws.{IsRow, no_journals};
ghost use Rattle.storm_model.specs.Phase.{BreaksOff, IsOnePhase, packets_after};
ghost use Rattle.storm_model.specs.Storm.{IsNoCarry};
ghost use Rattle.cluster_open.specs.Runs.{AreRunReplies};
ghost use Rattle.cluster_storm.specs.Rest.{AreLinkedFor, IsAtRest, journals_in, opening_of};

use crate::phase::run_phase;
use crate::stage::Storm;
use out_of_memory::OutOfMemory;
use packet_reader::Event;
use run_model::Reply;
use sb_io::Gate;
use std::alloc::Global;
use std::sync::Wait;
use std::thread::Threads;

/// The number of the next packet, and that of the next update.
#[derive(Clone, Copy)]
struct Numbers {
    packet: u32,
    update: u32,
}

/// The replies of a new storm to a script, one for each event. The gate is passed round each step of a worker.
///
/// After `OutOfMemory` the storm can only be closed.
pub(crate) fn run_storm<R: Threads + Wait + Sync, G: Gate + Sync>(
    rt: &R,
    alloc: Global,
    gate: &G,
    storm: &mut Storm,
    script: &[Event],
) -> Result<Vec<Reply>, OutOfMemory>
    requires rests { IsAtRest storm.old }
    requires new { journals_in storm.old.size storm.old.owners ≡ no_journals (opening_of storm.old) }
    requires few { length script.now < 2 ^ 32 }
    requires carries { All IsNoCarry script.now }
    requires rows { All (IsRow (opening_of storm.old)) script.now }
    requires linked { AreLinkedFor storm.old script.now }
    ensures { IfOk result (λ replies. AreRunReplies mode.Storm (length storm.old.lanes)
        (opening_of storm.old) script.now replies.items) }
{
    let mut replies = Vec::with_capacity(alloc, script.len())?;
    let mut next = Numbers {
        packet: 0,
        update: 0,
    };
    let mut left = script;
    'phases: loop {
        let (events, behind) = left.split_at(phase_length(left));
        run_phase(
            rt,
            alloc,
            gate,
            storm,
            events,
            next.packet,
            next.update,
            &mut replies,
        )?;
        let Some((_sync, others)) = behind.split_first() else {
            return Ok(replies);
        };
        replies.push(Reply::Synced)?;
        next = numbers_after(events, next);
        left = others;
    }
}

/// How many events there are up to the first sync, or in all if there is none.
fn phase_length(script: &[Event]) -> usize
    requires { All IsNoCarry script.now }
    ensures within { result ≤ length script.now }
    ensures one { IsOnePhase (take result script.now) }
    ensures breaks { BreaksOff (drop result script.now) }
{
    'events: for (at, event) in script.iter().enumerate() {
        if is_sync(event) {
            return at;
        }
    }
    script.len()
}

fn is_sync(event: &Event) -> bool
    ensures { IsTrue result ↔ (event.now ≡ Sync) }
{
    matches!(event, Event::Sync)
}

/// The next numbers after the events.
fn numbers_after(events: &[Event], first: Numbers) -> Numbers
    requires few_packets { first.packet + length events.now < 2 ^ 32 }
    requires few_updates { first.update + length events.now < 2 ^ 32 }
    ensures packets { result.packet ≡ packets_after first.packet events.now }
    ensures packets_within { result.packet ≤ first.packet + length events.now }
    ensures updates_within { result.update ≤ first.update + length events.now }
{
    let mut next = first;
    'events: for event in events {
        next = numbers_behind(event, next);
    }
    next
}

/// The next numbers after the event.
fn numbers_behind(event: &Event, next: Numbers) -> Numbers
    requires few_packets { next.packet + 1 < 2 ^ 32 }
    requires few_updates { next.update + 1 < 2 ^ 32 }
    ensures packets { result.packet ≡ packets_after next.packet (event.now ∷ []) }
    ensures packets_within { result.packet ≤ next.packet + 1 }
    ensures updates_within { result.update ≤ next.update + 1 }
{
    match event {
        Event::Packet { ingress: _, key: _ } => Numbers {
            packet: next.packet + 1,
            update: next.update,
        },
        Event::Set(_) | Event::Del(_) => Numbers {
            packet: next.packet,
            update: next.update + 1,
        },
        Event::Sync => next,
        Event::Carry {
            node: _,
            owner: _,
            turn: _,
            part: _,
        } => next,
    }
}
