ghost use Rattle.std.specs.Prelude.{◌≡◌, ℕ, ◌+◌, ◌<◌, ◌≤◌, [], IfOk};
ghost use Rattle.std.specs.Thread.{IsSync};
ghost use Rattle.usage_meter.specs.Adds.{octets, usage};
ghost use Rattle.usage_meter.specs.Seats.{IsSeatOf, adds_of, nodes_of, opening_ration, ration_of, readings_of};

use crate::{Meter, MeterSeat};
use out_of_memory::OutOfMemory;
use std::alloc::Global;
use std::test::Fail;
use std::thread::{Threads, join};

/// Adds octets to a node's total, one at a time.
#[tactic(auto, using(crate::proofs::Usage::usages))]
fn add_singly(meter: &Meter, mut seat: MeterSeat, node: u8, count: u64) -> MeterSeat
    requires seat { IsSeatOf meter.now seat }
    requires node { node < nodes_of meter.now }
    requires enough { count ≤ ration_of seat }
    ensures seat { IsSeatOf meter.now result }
    ensures ration { ration_of result + count ≡ ration_of seat }
    ensures octets { octets (adds_of result) ≡ octets (adds_of seat) + count }
    ensures usage { usage node (adds_of result) ≡ usage node (adds_of seat) + count }
{
    'adds: for added in 0..count {
        meter.add(&mut seat, node, 1);
    }
    seat
}

/// The same, by several threads that share the adds evenly.
#[cycle(adding)]
#[tactic(auto, using(crate::proofs::Usage::usages))]
fn add_by_threads<R: Threads + Sync>(
    rt: &R,
    meter: &Meter,
    mut seat: MeterSeat,
    node: u8,
    count: u64,
    threads: u8,
) -> MeterSeat
    requires seat { IsSeatOf meter.now seat }
    requires node { node < nodes_of meter.now }
    requires enough { count ≤ ration_of seat }
    ensures seat { IsSeatOf meter.now result }
    ensures ration { ration_of result + count ≡ ration_of seat }
    ensures octets { octets (adds_of result) ≡ octets (adds_of seat) + count }
    ensures usage { usage node (adds_of result) ≡ usage node (adds_of seat) + count }
{
    if threads < 2 {
        return add_singly(meter, seat, node, count);
    }
    let half = count / 2;
    let mine = count - half;
    let other = meter.seat(&mut seat, half);
    let (mut seat, other) = join(
        rt,
        || -> MeterSeat
            requires seat { IsSync R.row × IsSeatOf meter.now seat }
            requires node { node < nodes_of meter.now }
            requires enough { mine ≤ ration_of seat }
            requires threads { 2 ≤ threads }
            ensures seat { IsSeatOf meter.entry.now result }
            ensures ration { ration_of result + mine ≡ ration_of seat }
            ensures octets { octets (adds_of result) ≡ octets (adds_of seat) + mine }
            ensures usage { usage node (adds_of result) ≡ usage node (adds_of seat) + mine }
        { add_by_threads(rt, meter, seat, node, mine, threads / 2) },
        || -> MeterSeat
            requires seat { IsSync R.row × IsSeatOf meter.now other }
            requires node { node < nodes_of meter.now }
            requires enough { half ≤ ration_of other }
            requires threads { 2 ≤ threads }
            ensures seat { IsSeatOf meter.entry.now result }
            ensures ration { ration_of result + half ≡ ration_of other }
            ensures octets { octets (adds_of result) ≡ octets (adds_of other) + half }
            ensures usage { usage node (adds_of result) ≡ usage node (adds_of other) + half }
        { add_by_threads(rt, meter, other, node, half, threads / 2) },
    );
    meter.gather(&mut seat, other);
    seat
}

/// Reads a total so often, and says how often it had fallen, and what it was at last.
fn read_often(meter: &Meter, mut seat: MeterSeat, node: u8, count: u64) -> (MeterSeat, u64, u64)
    requires seat { IsSeatOf meter.now seat }
    requires node { node < nodes_of meter.now }
    requires fresh { readings_of seat ≡ [] }
    ensures seat { IsSeatOf meter.now result.0 }
    ensures ration { ration_of result.0 ≡ ration_of seat }
    ensures adds { adds_of result.0 ≡ adds_of seat }
    ensures falls { result.1 ≡ 0 }
    ensures most { result.2 ≤ opening_ration meter.now }
{
    let mut falls = 0;
    let mut before = 0;
    'reads: for read in 0..count {
        let now = meter.total(&mut seat, node);
        if now < before {
            falls += 1;
        }
        before = now;
    }
    (seat, falls, before)
}

/// Four threads add 10,000 octets each to the total of node 2, while a fifth reads it. Says what the total then is, how
/// often it had fallen under the reader, and what the reader read at last.
#[tactic(auto, using(crate::proofs::Usage::usages))]
fn add_and_read<R: Threads + Sync>(rt: &R, alloc: Global) -> Result<(u64, u64, u64), OutOfMemory>
    ensures total { IfOk result (λ r. r.0 ≡ 40000) }
    ensures falls { IfOk result (λ r. r.1 ≡ 0) }
    ensures most { IfOk result (λ r. r.2 ≤ 40000) }
{
    let (meter, mut keep) = Meter::new(alloc, 4, 40_000)?;
    let adder = meter.seat(&mut keep, 40_000);
    let reader = meter.seat(&mut keep, 0);
    let (adder, (reader, falls, last)) = join(
        rt,
        || -> MeterSeat
            requires seat { IsSync R.row × IsSeatOf meter adder × (ration_of adder ≡ 40000) × (adds_of adder ≡ []) }
            requires node { nodes_of meter ≡ 4 }
            ensures seat { IsSeatOf meter result }
            ensures ration { ration_of result ≡ 0 }
            ensures octets { octets (adds_of result) ≡ 40000 }
            ensures usage { usage 2 (adds_of result) ≡ 40000 }
        { add_by_threads(rt, &meter, adder, 2, 40_000, 4) },
        || read_often(&meter, reader, 2, 100_000),
    );
    meter.gather(&mut keep, adder);
    meter.gather(&mut keep, reader);
    Ok((meter.total(&mut keep, 2), falls, last))
}

#[test]
fn four_threads_add_while_another_reads(rt: HostRuntime) -> Result<(), Fail> {
    let (total, falls, last) = add_and_read(&rt, rt.alloc())?;
    assert_eq!(rt; total, 40_000);
    assert_eq!(rt; falls, 0);
    assert!(rt; last <= 40_000);
    Ok(())
}

#[test]
fn the_first_and_the_last_node_have_their_own_totals(rt: HostRuntime) -> Result<(), Fail> {
    let (meter, mut keep) = Meter::new(rt.alloc(), 256, u64::MAX)?;
    let mut lane = meter.seat(&mut keep, 70_000);
    meter.add(&mut lane, 255, u16::MAX);
    meter.add(&mut lane, 0, 0);
    meter.add(&mut keep, 0, 7);
    meter.add(&mut lane, 255, 1);
    let before = (meter.total(&mut lane, 0), meter.total(&mut keep, 255));
    assert_eq!(rt; before, (7, 65_536));
    meter.gather(&mut keep, lane);
    let after = (
        meter.total(&mut keep, 0),
        meter.total(&mut keep, 1),
        meter.total(&mut keep, 255),
    );
    assert_eq!(rt; after, (7, 0, 65_536));
    Ok(())
}
