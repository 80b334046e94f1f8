//! Storms as calls, under gates that hold one worker until another has got somewhere.

ghost use Rattle.std.specs.Prelude.{◌≤◌};

use cluster_open::read_vec;
use cluster_storm::{InputFault, storm, storm_input};
use flow_reader::MOST_OCTETS;
use flow_types::{BadRow, Why};
use packet_reader::Mode;
use sb_io::{Gate, OpenGate, Who};
use std::alloc::Global;
use std::sync::Wait;
use std::sync::atomic::{AtomicU64, Ordering};
use std::test::Fail;
use std::thread;
use std::thread::Threads;

/// How long a gate holds a worker: so often it looks whether the worker may go on.
const MOST_LOOKS: u32 = 100_000_000;

/// One update and one packet of its key in one phase.
const ONE_PHASE: &str = "cluster,4,1\nflow,10.0.0.1,192.0.2.7,1000,443,6,1,77,192.168.0.9\nbegin\n\
     set,10.0.0.1,192.0.2.7,1000,443,6,2,78,192.168.0.10\n\
     packet,0,10.0.0.1,192.0.2.7,1000,443,6\nend\n";

/// The text of a storm of these rows, or its fault.
fn stormed<R: Threads + Wait + Sync, G: Gate + Sync>(
    rt: &R,
    alloc: Global,
    rows: &str,
    workers: u8,
    lanes: u8,
    gate: &G,
) -> Result<Result<Vec<u8>, InputFault>, Fail>
    requires some_worker { 1 ≤ workers }
    requires few_workers { workers ≤ 64 }
    requires some_lane { 1 ≤ lanes }
    requires few_lanes { lanes ≤ 8 }
{
    let bytes = rows.as_bytes();
    if bytes.len() > MOST_OCTETS {
        return Err("too many octets".into());
    }
    Ok(storm(rt, alloc, bytes, workers, lanes, gate))
}

/// The text of a storm of these rows, of which none is bad.
fn printed<R: Threads + Wait + Sync, G: Gate + Sync>(
    rt: &R,
    alloc: Global,
    rows: &str,
    workers: u8,
    lanes: u8,
    gate: &G,
) -> Result<Vec<u8>, Fail>
    requires some_worker { 1 ≤ workers }
    requires few_workers { workers ≤ 64 }
    requires some_lane { 1 ≤ lanes }
    requires few_lanes { lanes ≤ 8 }
{
    match stormed(rt, alloc, rows, workers, lanes, gate)? {
        Ok(text) => Ok(text),
        Err(_) => Err("a text".into()),
    }
}

// No packet stands in a phase with an update, so each output is that of a replay.
#[test]
fn prints_what_a_replay_prints(rt: HostRuntime) -> Result<(), Fail> {
    let cases = [
        (
            "cluster,4,1\nbegin\nend\n",
            "done packets 0 found 0 unknown 0\n",
        ),
        (
            "cluster,4,2\nflow,10.0.0.1,192.0.2.7,1000,443,6,1,77,192.168.0.9\n\
             flow,10.0.0.1,192.0.2.7,1002,443,6,2,80,192.168.0.12\nbegin\n\
             packet,0,10.0.0.1,192.0.2.7,1000,443,6\npacket,2,10.0.0.1,192.0.2.7,1002,443,6\n\
             packet,1,10.0.0.1,192.0.2.7,1000,443,6\nsync\nsync\n\
             packet,3,10.0.0.1,192.0.2.7,1002,443,6\nend\n",
            "packet 0 in 0 to 1 hops 1 seen 0 fib 0 teid 77 base 192.168.0.9\n\
             packet 1 in 2 to 2 hops 0 seen 0 fib 0 teid 80 base 192.168.0.12\n\
             packet 2 in 1 to 1 hops 0 seen 0 fib 0 teid 77 base 192.168.0.9\n\
             packet 3 in 3 to 2 hops 1 seen 0 fib 0 teid 80 base 192.168.0.12\n\
             done packets 4 found 4 unknown 0\n",
        ),
        (
            "cluster,4,2\nflow,10.0.0.1,192.0.2.7,1000,443,6,1,77,192.168.0.9\nbegin\n\
             packet,0,10.0.0.1,192.0.2.7,1000,443,6\nsync\n\
             set,10.0.0.1,192.0.2.7,1000,443,6,2,78,192.168.0.10\n\
             set,10.0.0.1,192.0.2.7,1002,443,6,3,80,192.168.0.12\n\
             del,10.0.0.9,192.0.2.7,1000,443,6\nsync\n\
             packet,1,10.0.0.1,192.0.2.7,1000,443,6\npacket,3,10.0.0.1,192.0.2.7,1002,443,6\n\
             sync\ndel,10.0.0.1,192.0.2.7,1000,443,6\nsync\n\
             packet,1,10.0.0.1,192.0.2.7,1000,443,6\nend\n",
            "packet 0 in 0 to 1 hops 1 seen 0 fib 0 teid 77 base 192.168.0.9\n\
             set accepted owner 1 turn 1\nset accepted owner 0 turn 1\ndel refused absent\n\
             packet 1 in 1 to 2 hops 1 seen 1 fib 1 teid 78 base 192.168.0.10\n\
             packet 2 in 3 to 3 hops 0 seen 1 fib 1 teid 80 base 192.168.0.12\n\
             del accepted owner 1 turn 2\n\
             packet 3 in 1 to 0 hops 1 seen 2 fib 2 unknown\n\
             done packets 4 found 3 unknown 1\n",
        ),
    ];
    'lanes: for lanes in 1..9 {
        'cases: for (rows, wanted) in cases {
            let text = printed(&rt, rt.alloc(), rows, 2, lanes, &OpenGate)?;
            assert!(rt;
                text.as_slice() == wanted.as_bytes(),
                "of {rows:?} by {lanes} lanes"
            );
        }
    }
    Ok(())
}

#[test]
fn runs_an_input_that_was_read(rt: HostRuntime) -> Result<(), Fail> {
    let bytes = String::from_str(rt.alloc(), "cluster,4,1\nbegin\nend\n")?.into_bytes();
    if bytes.len() > MOST_OCTETS {
        return Err("too many octets".into());
    }
    let Ok(input) = read_vec(rt.alloc(), bytes, Mode::Storm) else {
        return Err("an input".into());
    };
    let text = storm_input(&rt, rt.alloc(), input, 64, 8, &OpenGate);
    let wanted = "done packets 0 found 0 unknown 0\n";
    assert!(rt; text.ok().ok_or("a text")?.as_slice() == wanted.as_bytes());
    Ok(())
}

#[test]
fn tells_the_first_bad_row(rt: HostRuntime) -> Result<(), Fail> {
    let cases = [
        (
            "cluster,4,1\nbegin\nset,10.0.0.1,192.0.2.7,1000,443,6,1,1,192.168.0.9\n\
             sync\ncarry,0,0,2,table\nsync,1\nend\n",
            5,
            Why::CarryInStorm,
        ),
        ("cluster,4,1\nbegin\n", 3, Why::NoEnd),
    ];
    'cases: for (rows, row, why) in cases {
        let given = stormed(&rt, rt.alloc(), rows, 1, 2, &OpenGate)?;
        let fault = InputFault::Bad(BadRow { row, why });
        assert!(rt; given == Err(fault), "of {rows:?}");
    }
    Ok(())
}

/// Waits until the count is reached. Where it isn't in good time that is noted.
fn hold(count: &AtomicU64, wanted: u64, notes: &AtomicU64) {
    'looks: for _ in 0..MOST_LOOKS {
        if count.load(Ordering::SeqCst) >= wanted {
            return;
        }
        thread::yield_now();
    }
    notes.fetch_add(1, Ordering::SeqCst);
}

/// What has been done so far in a storm of one owner.
#[derive(Drop)]
struct Counts {
    /// How many messages of turn 1 were applied, at all nodes.
    applied: AtomicU64,
    /// How many of these at node 1.
    applied_at_1: AtomicU64,
    /// How many packets were answered, but for packet 0.
    answered: AtomicU64,
    /// Whether packet 0 was.
    answered_0: AtomicU64,
    /// How many holds came to no end.
    notes: AtomicU64,
}

impl Counts {
    fn new() -> Counts {
        Counts {
            applied: AtomicU64::new(0),
            applied_at_1: AtomicU64::new(0),
            answered: AtomicU64::new(0),
            answered_0: AtomicU64::new(0),
            notes: AtomicU64::new(0),
        }
    }

    fn note(&self, who: Who, number: u32) {
        let count = match who {
            Who::Applier(node) if number == 1 => {
                if node == 1 {
                    self.applied_at_1.fetch_add(1, Ordering::SeqCst);
                }
                &self.applied
            }
            Who::Lane(_) if number == 0 => &self.answered_0,
            Who::Lane(_) => &self.answered,
            _ => return,
        };
        count.fetch_add(1, Ordering::SeqCst);
    }
}

/// Packet 1 waits until each of four nodes has turn 1, and update 1 until packet 1 is answered.
#[derive(Drop)]
struct UpdateWaits {
    counts: Counts,
}

impl Gate for UpdateWaits {
    fn before(&self, who: Who, number: u32) {
        let Counts {
            applied,
            answered,
            notes,
            ..
        } = &self.counts;
        if number == 1 {
            match who {
                Who::Lane(_) => hold(applied, 8, notes),
                Who::Owner(_) => hold(answered, 1, notes),
                Who::Applier(_) => (),
            }
        }
    }

    fn after(&self, who: Who, number: u32) {
        self.counts.note(who, number);
    }
}

// Owners that were done before the lanes begin, or packets that are answered by what stood at their phase's beginning, print
// another line or make a hold last.
#[test]
fn a_packet_sees_a_turn_of_its_phase(rt: HostRuntime) -> Result<(), Fail> {
    let rows = "cluster,4,1\nflow,10.0.0.1,192.0.2.7,1000,443,6,1,77,192.168.0.9\nbegin\n\
         set,10.0.0.1,192.0.2.7,1000,443,6,2,78,192.168.0.10\n\
         packet,0,10.0.0.1,192.0.2.7,1000,443,6\n\
         set,10.0.0.1,192.0.2.7,1000,443,6,3,79,192.168.0.11\n\
         packet,0,10.0.0.1,192.0.2.7,1000,443,6\nend\n";
    let wanted = "\npacket 1 in 0 to 2 hops 1 seen 1 fib 1 teid 78 base 192.168.0.10\n".as_bytes();
    let gate = UpdateWaits {
        counts: Counts::new(),
    };
    let text = printed(&rt, rt.alloc(), rows, 1, 2, &gate)?;
    assert_eq!(rt; gate.counts.notes.load(Ordering::SeqCst), 0);
    assert!(rt;
        text.as_slice()
            .windows(wanted.len())
            .any(|line| line == wanted)
    );
    Ok(())
}

/// Packet 0 waits until node 1 has turn 1, and node 0 takes its first message when packet 0 is answered.
#[derive(Drop)]
struct ApplierWaits {
    counts: Counts,
}

impl Gate for ApplierWaits {
    fn before(&self, who: Who, number: u32) {
        let Counts {
            applied_at_1,
            answered_0,
            notes,
            ..
        } = &self.counts;
        match who {
            Who::Lane(_) => hold(applied_at_1, 2, notes),
            Who::Applier(0) => hold(answered_0, 1, notes),
            _ => (),
        }
    }

    fn after(&self, who: Who, number: u32) {
        self.counts.note(who, number);
    }
}

// What was accepted already comes to one node before it comes to another.
#[test]
fn a_packet_is_answered_by_what_each_node_has(rt: HostRuntime) -> Result<(), Fail> {
    let wanted = "set accepted owner 0 turn 1\npacket 0 in 0 to 1 hops 1 seen 0 fib 1 unknown\n\
         done packets 1 found 0 unknown 1\n";
    let gate = ApplierWaits {
        counts: Counts::new(),
    };
    let text = printed(&rt, rt.alloc(), ONE_PHASE, 1, 2, &gate)?;
    assert_eq!(rt; gate.counts.notes.load(Ordering::SeqCst), 0);
    assert!(rt; text.as_slice() == wanted.as_bytes());
    Ok(())
}

/// Adds up the numbers of updates.
#[derive(Drop)]
struct Sum {
    updates: AtomicU64,
}

impl Gate for Sum {
    fn before(&self, who: Who, number: u32) {
        if let Who::Owner(_) = who {
            self.updates.fetch_add(u64::from(number), Ordering::SeqCst);
        }
    }

    fn after(&self, _who: Who, _number: u32) {}
}

#[test]
fn numbers_updates_over_the_whole_script(rt: HostRuntime) -> Result<(), Fail> {
    let rows = "cluster,4,1\nbegin\ndel,10.0.0.1,192.0.2.7,1000,443,6\nsync\n\
         packet,0,10.0.0.1,192.0.2.7,1000,443,6\n\
         del,10.0.0.1,192.0.2.7,1000,443,6\ndel,10.0.0.1,192.0.2.7,1000,443,6\nsync\n\
         del,10.0.0.1,192.0.2.7,1000,443,6\nend\n";
    let gate = Sum {
        updates: AtomicU64::new(0),
    };
    printed(&rt, rt.alloc(), rows, 1, 1, &gate)?;
    assert_eq!(rt; gate.updates.load(Ordering::SeqCst), 1 + 2 + 3);
    Ok(())
}
