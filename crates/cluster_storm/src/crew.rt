//! The threads of a phase. Owners are started first, then lanes, then appliers. What can't be started is done by who would
//! have started it, and never an applier before an owner: appliers wait for owners, and owners and lanes for nobody.
ghost use Rattle.std.specs.Prelude.{◌≡◌, ◌+◌, ◌<◌, ◌≤◌, ◌^◌, ◌∷◌, [], length, true, false, All, ℕ, slice_index_or};
ghost use Rattle.std.specs.Thread.{IsSync};
ghost use Rattle.storm_lane.specs.Stepping.{Enters};
ghost use Rattle.storm_lane.specs.Work.{LaneDid};
ghost use Rattle.turn_relay.specs.Each.{Each, Every};
ghost use Rattle.turn_relay.specs.Follow.{ApplierDid, works};
ghost use Rattle.cluster_storm.specs.Crew.{CanWork, IsPhaseOf, OwnerTook};

use crate::dealing::is_working;
use flow_types::Flow;
use packet_reader::Event;
use sb_io::Gate;
use std::sync::Wait;
use std::sync::atomic::{AtomicU64, Ordering};
use std::thread;
use std::thread::{Threads, join_mut};
use storm_lane::Lane;
use turn_relay::{Applier, Owner, apply_all, own_all};

/// What all threads of a phase share.
#[derive(Drop)]
pub(crate) struct Phase<'a, G> {
    /// What waits or looks round each step of a worker.
    pub(crate) gate: &'a G,
    /// The flows of the cluster's opening.
    pub(crate) flows: &'a [Flow],
    /// The phase's events.
    pub(crate) events: &'a [Event],
    /// The number of the first packet among them.
    pub(crate) first_packet: u32,
    /// The number of the first update among them.
    pub(crate) first_update: u32,
    /// Whether the owner of each number has an update among them.
    pub(crate) working: &'a [bool],
    /// How many owners have.
    pub(crate) owners: u64,
    /// Whether all owners are started.
    pub(crate) started: AtomicU64,
    /// How many owners are done.
    pub(crate) done: AtomicU64,
}

/// Waits until the owners are started.
fn wait<R: Wait>(rt: &R, started: &AtomicU64) {
    'looks: for _ in rt.forever() {
        if started.load(Ordering::SeqCst) > 0 {
            return;
        }
        thread::yield_now();
    }
}

/// An owner's work. Want of memory ends it, and it counts as done.
fn own<R: Wait, G: Gate>(rt: &R, phase: &Phase<G>, owner: &mut Owner)
    requires phase { IsPhaseOf owner.old.size phase.now.events.now phase.now.first_packet
        phase.now.first_update }
    requires can { CanWork phase.now.flows.now phase.now.working.now owner.old }
    requires works { works phase.now.working.now owner.old.number ≡ true }
    ensures { OwnerTook phase.now.flows.now phase.now.events.now phase.now.working.now owner.old owner.new }
{
    own_all(
        rt,
        phase.gate,
        &phase.done,
        phase.flows,
        phase.events,
        phase.first_update,
        owner,
    );
}

/// Whether the owner has an update in the phase.
fn works_in(working: &[bool], owner: &Owner) -> bool
    ensures { result ≡ works working.now owner.now.number }
{
    is_working(working, usize::from(owner.number()))
}

/// Starts the owners that have an update but the last, where `left` of them are left: that one it does itself once it has told
/// that all are started.
fn start_owners<R: Threads + Wait + Sync, G: Gate + Sync>(
    rt: &R,
    phase: &Phase<G>,
    left: u64,
    owners: &mut [Owner],
)
    requires phase { Every (λ owner. IsPhaseOf owner.size phase.now.events.now phase.now.first_packet
        phase.now.first_update) owners.old }
    requires can { Every (CanWork phase.now.flows.now phase.now.working.now) owners.old }
    ensures { Each (OwnerTook phase.now.flows.now phase.now.events.now phase.now.working.now) owners.old
        owners.new }
{
    let Some((first, rest)) = owners.split_first_mut() else {
        phase.started.store(1, Ordering::SeqCst);
        return;
    };
    if !works_in(phase.working, first) {
        return start_owners(rt, phase, left, rest);
    }
    if left <= 1 {
        phase.started.store(1, Ordering::SeqCst);
        own(rt, phase, first);
        return start_owners(rt, phase, 0, rest);
    }
    let others = left - 1;
    let mut there = ||
        requires { IsSync R.row × IsSync G.row
            × IsPhaseOf first.now.size phase.now.events.now phase.now.first_packet phase.now.first_update
            × CanWork phase.now.flows.now phase.now.working.now first.now
            × (works phase.now.working.now first.now.number ≡ true) }
        ensures { OwnerTook phase.entry.now.flows.now phase.entry.now.events.now phase.entry.now.working.now
            first.entry.now first.exit.now }
    { own(rt, phase, first) };
    let mut here = ||
        requires { IsSync R.row × IsSync G.row
            × Every (λ owner. IsPhaseOf owner.size phase.now.events.now phase.now.first_packet phase.now.first_update) rest.now
            × Every (CanWork phase.now.flows.now phase.now.working.now) rest.now }
        ensures { Each (OwnerTook phase.entry.now.flows.now phase.entry.now.events.now
            phase.entry.now.working.now) rest.entry.now rest.exit.now }
    { start_owners(rt, phase, others, rest) };
    join_mut(rt, &mut there, &mut here);
}

/// Starts the lanes, and then the appliers.
fn start_lanes<R: Threads + Wait + Sync, G: Gate + Sync>(
    rt: &R,
    phase: &Phase<G>,
    threads: usize,
    appliers: &mut [Applier],
    lanes: &mut [Lane],
)
    requires { Every (λ lane. IsPhaseOf lane.size phase.now.events.now phase.now.first_packet
        phase.now.first_update) lanes.old }
    ensures lanes { Each (LaneDid phase.now.first_packet phase.now.events.now) lanes.old lanes.new }
    ensures appliers { Each (ApplierDid phase.now.working.now) appliers.old appliers.new }
{
    let Some((first, rest)) = lanes.split_first_mut() else {
        return start_appliers(rt, phase, threads, appliers);
    };
    let mut there = ||
        requires { IsSync R.row × IsSync G.row
            × IsPhaseOf first.now.size phase.now.events.now phase.now.first_packet phase.now.first_update }
        ensures { LaneDid phase.entry.now.first_packet phase.entry.now.events.now first.entry.now
            first.exit.now }
    { answer(rt, phase, first) };
    let mut here = ||
        requires { IsSync R.row × IsSync G.row
            × Every (λ lane. IsPhaseOf lane.size phase.now.events.now phase.now.first_packet phase.now.first_update) rest.now }
        ensures { Each (LaneDid phase.entry.now.first_packet phase.entry.now.events.now) rest.entry.now
            rest.exit.now
            × Each (ApplierDid phase.entry.now.working.now) appliers.entry.now appliers.exit.now }
    { start_lanes(rt, phase, threads, appliers, rest) };
    join_mut(rt, &mut there, &mut here);
}

/// A lane's work.
fn answer<R: Wait, G: Gate>(rt: &R, phase: &Phase<G>, lane: &mut Lane)
    requires { IsPhaseOf lane.old.size phase.now.events.now phase.now.first_packet phase.now.first_update }
    ensures { LaneDid phase.now.first_packet phase.now.events.now lane.old lane.new }
{
    lane.work(rt, phase.gate, phase.events, phase.first_packet);
}

/// Deals the nodes to threads and starts these but the last, whose nodes it does itself.
#[tactic(auto, using(crate::proofs::Crews::each_of_parts))]
fn start_appliers<R: Threads + Wait + Sync, G: Gate + Sync>(
    rt: &R,
    phase: &Phase<G>,
    threads: usize,
    appliers: &mut [Applier],
)
    ensures { Each (ApplierDid phase.now.working.now) appliers.old appliers.new }
{
    if threads <= 1 || appliers.is_empty() {
        return apply(rt, phase, appliers);
    }
    let count = (appliers.len() - 1) / threads + 1;
    let others = threads - 1;
    let (first, rest) = appliers.split_at_mut(count);
    let mut there = ||
        requires { IsSync R.row × IsSync G.row }
        ensures { Each (ApplierDid phase.entry.now.working.now) first.entry.now first.exit.now }
    { apply(rt, phase, first) };
    let mut here = ||
        requires { IsSync R.row × IsSync G.row }
        ensures { Each (ApplierDid phase.entry.now.working.now) rest.entry.now rest.exit.now }
    { start_appliers(rt, phase, others, rest) };
    join_mut(rt, &mut there, &mut here);
}

/// The appliers of one thread.
fn apply<R: Wait, G: Gate>(rt: &R, phase: &Phase<G>, appliers: &mut [Applier])
    ensures { Each (ApplierDid phase.now.working.now) appliers.old appliers.new }
{
    apply_all(
        rt,
        phase.gate,
        phase.owners,
        &phase.done,
        phase.working,
        appliers,
    );
}

/// Starts the lanes but the last, which it does itself.
fn start_lanes_alone<R: Threads + Wait + Sync, G: Gate + Sync>(
    rt: &R,
    phase: &Phase<G>,
    lanes: &mut [Lane],
)
    requires { Every (λ lane. IsPhaseOf lane.size phase.now.events.now phase.now.first_packet
        phase.now.first_update) lanes.old }
    ensures { Each (LaneDid phase.now.first_packet phase.now.events.now) lanes.old lanes.new }
{
    let Some((first, rest)) = lanes.split_first_mut() else {
        return;
    };
    if rest.is_empty() {
        return answer(rt, phase, first);
    }
    let mut there = ||
        requires { IsSync R.row × IsSync G.row
            × IsPhaseOf first.now.size phase.now.events.now phase.now.first_packet phase.now.first_update }
        ensures { LaneDid phase.entry.now.first_packet phase.entry.now.events.now first.entry.now
            first.exit.now }
    { answer(rt, phase, first) };
    let mut here = ||
        requires { IsSync R.row × IsSync G.row
            × Every (λ lane. IsPhaseOf lane.size phase.now.events.now phase.now.first_packet phase.now.first_update) rest.now }
        ensures { Each (LaneDid phase.entry.now.first_packet phase.entry.now.events.now) rest.entry.now
            rest.exit.now }
    { start_lanes_alone(rt, phase, rest) };
    join_mut(rt, &mut there, &mut here);
}

/// All threads of a phase in which owners work. This one has the owners' part, and another the lanes' and the appliers', once
/// the owners are started.
fn start_all<R: Threads + Wait + Sync, G: Gate + Sync>(
    rt: &R,
    phase: &Phase<G>,
    threads: usize,
    appliers: &mut [Applier],
    lanes: &mut [Lane],
    owners: &mut [Owner],
)
    requires lanes { Every (λ lane. IsPhaseOf lane.size phase.now.events.now phase.now.first_packet
        phase.now.first_update) lanes.old }
    requires owners { Every (λ owner. IsPhaseOf owner.size phase.now.events.now phase.now.first_packet
        phase.now.first_update) owners.old }
    requires can { Every (CanWork phase.now.flows.now phase.now.working.now) owners.old }
    ensures owners { Each (OwnerTook phase.now.flows.now phase.now.events.now phase.now.working.now)
        owners.old owners.new }
    ensures lanes { Each (LaneDid phase.now.first_packet phase.now.events.now) lanes.old lanes.new }
    ensures appliers { Each (ApplierDid phase.now.working.now) appliers.old appliers.new }
{
    let mut there = ||
        requires { IsSync R.row × IsSync G.row
            × Every (λ lane. IsPhaseOf lane.size phase.now.events.now phase.now.first_packet phase.now.first_update) lanes.now }
        ensures { Each (LaneDid phase.entry.now.first_packet phase.entry.now.events.now) lanes.entry.now
            lanes.exit.now
            × Each (ApplierDid phase.entry.now.working.now) appliers.entry.now appliers.exit.now }
    {
        wait(rt, &phase.started);
        start_lanes(rt, phase, threads, appliers, lanes)
    };
    let mut here = ||
        requires { IsSync R.row × IsSync G.row
            × Every (λ owner. IsPhaseOf owner.size phase.now.events.now phase.now.first_packet phase.now.first_update) owners.now
            × Every (CanWork phase.now.flows.now phase.now.working.now) owners.now }
        ensures { Each (OwnerTook phase.entry.now.flows.now phase.entry.now.events.now
            phase.entry.now.working.now) owners.entry.now owners.exit.now }
    { start_owners(rt, phase, phase.owners, owners) };
    join_mut(rt, &mut there, &mut here);
}

/// All threads of a phase: where no owner works, the lanes alone.
pub(crate) fn run<R: Threads + Wait + Sync, G: Gate + Sync>(
    rt: &R,
    phase: &Phase<G>,
    threads: usize,
    appliers: &mut [Applier],
    lanes: &mut [Lane],
    owners: &mut [Owner],
)
    requires lanes { Every (λ lane. IsPhaseOf lane.size phase.now.events.now phase.now.first_packet
        phase.now.first_update) lanes.old }
    requires owners { Every (λ owner. IsPhaseOf owner.size phase.now.events.now phase.now.first_packet
        phase.now.first_update) owners.old }
    requires can { Every (CanWork phase.now.flows.now phase.now.working.now) owners.old }
    requires counted { phase.now.owners ≡ 0 → (owner : ℕ) → works phase.now.working.now owner ≡ false }
    ensures owners { Each (OwnerTook phase.now.flows.now phase.now.events.now phase.now.working.now)
        owners.old owners.new }
    ensures lanes { Each (LaneDid phase.now.first_packet phase.now.events.now) lanes.old lanes.new }
    ensures appliers { Each (ApplierDid phase.now.working.now) appliers.old appliers.new }
{
    if phase.owners == 0 {
        start_lanes_alone(rt, phase, lanes);
    } else {
        start_all(rt, phase, threads, appliers, lanes, owners);
    }
}
