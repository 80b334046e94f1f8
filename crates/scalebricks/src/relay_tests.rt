//! Owners and appliers without a storm round them.

ghost use Rattle.std.specs.Prelude.{◌≡◌, ◌<◌, [], IfOk};
ghost use Rattle.turn_relay.specs.OwnerState.{OwnerState, Stands};

use flow_types::{Flow, FlowKey, Record, Shape};
use group_history::UpdateRefused;
use packet_reader::Event;
use run_model::Reply;
use sb_io::{Gate, OpenGate, Who};
use setsep_build::build;
use std::alloc::Global;
use std::sync::atomic::{AtomicU64, Ordering};
use std::test::Fail;
use std::thread::Threads;
use turn_log::Sender;
use turn_relay::{Applier, Owner, apply_all, own_all};

const KEY: FlowKey = FlowKey {
    source: 0x0A00_0001,
    destination: 0xC000_0207,
    source_port: 1000,
    destination_port: 443,
    protocol: 6,
};

/// A gate that adds up the numbers of an owner's updates.
#[derive(Drop)]
struct Sums {
    before: AtomicU64,
    after: AtomicU64,
}

impl Gate for Sums {
    fn before(&self, who: Who, number: u32) {
        if who == Who::Owner(0) {
            self.before.fetch_add(u64::from(number), Ordering::SeqCst);
        }
    }

    fn after(&self, who: Who, number: u32) {
        if who == Who::Owner(0) {
            self.after.fetch_add(u64::from(number), Ordering::SeqCst);
        }
    }
}

/// The owner of the one block of two nodes, without flows and without links.
#[tactic(auto, using(turn_log::proofs::Accepting::as_seen))]
fn opened(rt: &(impl Threads + Sync), alloc: Global) -> Result<Owner, Fail>
    ensures stands { IfOk result (λ owner. Stands [] owner) }
    ensures two { IfOk result (λ owner. 1 < owner.size.nodes) }
{
    let two_nodes = Shape::new(2, 1).ok_or("a shape")?;
    let images = build(rt, alloc, two_nodes, &[], 1)?;
    let sender = Sender::open(alloc, two_nodes, 0, &[], images.as_slice())?;
    Ok(Owner::new(alloc, two_nodes, 0, sender))
}

#[test]
fn passes_the_gate_round_each_update(rt: HostRuntime) -> Result<(), Fail> {
    let mut owner = opened(&rt, rt.alloc())?;
    let flow = Flow {
        key: KEY,
        node: 1,
        info: Record { teid: 77, base: 9 },
    };
    let packet = Event::Packet {
        ingress: 0,
        key: KEY,
    };
    let events = [
        packet,
        Event::Set(flow),
        packet,
        Event::Del(KEY),
        Event::Del(KEY),
    ];
    let gate = Sums {
        before: AtomicU64::new(0),
        after: AtomicU64::new(0),
    };
    let done = AtomicU64::new(0);
    own_all(&rt, &gate, &done, &[], &events, 7, &mut owner);
    assert!(rt; !owner.failed());
    let replies = owner.take_replies(rt.alloc());
    let accepted = |turn| Reply::Accepted { owner: 0, turn };
    let wanted = [
        accepted(1),
        accepted(2),
        Reply::Refused(UpdateRefused::Absent),
    ];
    assert_eq!(rt; replies.as_slice(), wanted.as_slice());
    assert_eq!(rt; gate.before.load(Ordering::SeqCst), 7 + 8 + 9);
    assert_eq!(rt; gate.after.load(Ordering::SeqCst), 7 + 8 + 9);
    assert_eq!(rt; done.load(Ordering::SeqCst), 1);
    Ok(())
}

#[test]
fn ends_where_all_owners_are_done(rt: HostRuntime) {
    let mut appliers: [Applier; 0] = [];
    let done = AtomicU64::new(1);
    apply_all(&rt, &OpenGate, 1, &done, &[true], &mut appliers);
}
