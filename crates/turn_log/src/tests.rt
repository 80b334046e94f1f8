ghost use Rattle.std.specs.Prelude.{[], IfOk};
ghost use Rattle.turn_log.specs.Sender.{IsSenderOf};

use crate::Sender;
use delta_codec::{FibMessage, FibOp, TableMessage};
use flow_types::{Flow, FlowKey, Record, Shape};
use group_search::{GroupRecord, Pair, Served};
use rib_owner::{Update, UpdateRefused};
use setsep_build::build;
use std::alloc::Global;
use std::process::Abort;
use std::test::Fail;
use std::thread::Threads;

/// Its bucket is 75, so that its group is 11 in a cluster without flows, and its position under index 0 is 3.
const KEY: FlowKey = FlowKey {
    source: 0x0A00_0001,
    destination: 0xC000_0207,
    source_port: 1000,
    destination_port: 443,
    protocol: 6,
};

const INFO: Record = Record { teid: 77, base: 9 };

/// The octets of three turns. The key goes to node 1: the array 8 for the lowest bit of the node, and the messages that do
/// nothing and put. It moves to node 2: the array 8 for the other bit, and the messages that do nothing, put and drop. It is
/// removed: no array has a bit, and the messages do nothing and drop.
const OCTETS: [u8; 166] = [
    0x11, 0, 0, 1, 0, 0, 11, 0, 0, 0, 8, 0, 0, 0, //
    0x12, 0, 0, 1, 0, 0, 11, 0, //
    0x12, 0, 0, 1, 0, 0, 11, 1, 0x0A, 0, 0, 1, 0xC0, 0, 2, 7, 0x03, 0xE8, 0x01, 0xBB, 6, 0, 0, 0,
    77, 0, 0, 0, 9, //
    0x11, 0, 0, 2, 0, 0, 11, 0, 0, 0, 0, 0, 0, 8, //
    0x12, 0, 0, 2, 0, 0, 11, 0, //
    0x12, 0, 0, 2, 0, 0, 11, 1, 0x0A, 0, 0, 1, 0xC0, 0, 2, 7, 0x03, 0xE8, 0x01, 0xBB, 6, 0, 0, 0,
    77, 0, 0, 0, 9, //
    0x12, 0, 0, 2, 0, 0, 11, 2, 0x0A, 0, 0, 1, 0xC0, 0, 2, 7, 0x03, 0xE8, 0x01, 0xBB, 6, //
    0x11, 0, 0, 3, 0, 0, 11, 0, 0, 0, 0, 0, 0, 0, //
    0x12, 0, 0, 3, 0, 0, 11, 0, //
    0x12, 0, 0, 3, 0, 0, 11, 2, 0x0A, 0, 0, 1, 0xC0, 0, 2, 7, 0x03, 0xE8, 0x01, 0xBB, 6,
];

fn shape() -> Result<Shape, Fail> {
    Ok(Shape::new(4, 1).ok_or("a shape")?)
}

/// The sender of the one block of four nodes, without flows.
#[tactic(auto, using(crate::proofs::Accepting::as_seen))]
fn opened(rt: &(impl Threads + Sync), alloc: Global) -> Result<Sender, Fail>
    ensures { IfOk result (λ sender. IsSenderOf sender.rib.size sender.rib.number [] sender) }
{
    let four_nodes = shape()?;
    let images = build(rt, alloc, four_nodes, &[], 1)?;
    Ok(Sender::open(alloc, four_nodes, 0, &[], images.as_slice())?)
}

fn set(node: u8) -> Update {
    Update::Set(Flow {
        key: KEY,
        node,
        info: INFO,
    })
}

#[tactic(auto, using(crate::proofs::Accepting::as_seen))]
fn asked(rt: &impl Abort, sender: &mut Sender, update: Update) -> Result<u32, UpdateRefused>
    requires { IsSenderOf sender.old.rib.size sender.old.rib.number [] sender.old }
    ensures { IsSenderOf sender.new.rib.size sender.new.rib.number [] sender.new }
{
    assert!(rt; sender.owner.owns(update.key()));
    if let Update::Set(flow) = update {
        assert!(rt; u16::from(flow.node) < sender.shape.nodes());
    }
    sender.accept(&[], update)
}

/// The key goes to node 1, moves to node 2, and is removed.
fn moved(rt: &impl Abort, sender: &mut Sender) -> Result<(), Fail>
    requires { IsSenderOf sender.old.rib.size sender.old.rib.number [] sender.old }
    ensures { IfOk result (λ _. IsSenderOf sender.new.rib.size sender.new.rib.number [] sender.new) }
{
    assert_eq!(rt; asked(rt, sender, set(1)), Ok(1));
    assert_eq!(rt; asked(rt, sender, set(2)), Ok(2));
    assert_eq!(rt; asked(rt, sender, Update::Del(KEY)), Ok(3));
    Ok(())
}

#[test]
fn keeps_each_message_once(rt: HostRuntime) -> Result<(), Fail> {
    let mut sender = opened(&rt, rt.alloc())?;
    assert_eq!(rt; sender.turns(), 0);
    moved(&rt, &mut sender)?;
    assert_eq!(rt; sender.turns(), 3);
    assert_eq!(rt; sender.octets.as_slice(), OCTETS.as_slice());
    Ok(())
}

fn table_told(rt: &impl Abort, sender: &Sender, turn: u32) -> TableMessage {
    assert!(rt; turn >= 1);
    assert!(rt; turn <= sender.turns());
    sender.table_message(turn)
}

fn fib_told(rt: &impl Abort, sender: &Sender, turn: u32, node: u8) -> FibMessage {
    assert!(rt; turn >= 1);
    assert!(rt; turn <= sender.turns());
    assert!(rt; u16::from(node) < sender.shape.nodes());
    sender.fib_message(turn, node)
}

/// What a turn says for the tables: the arrays of the two bits, both under index 0.
fn says_arrays(rt: &impl Abort, sender: &Sender, turn: u32, low: u8, high: u8) {
    let pair = |array| Pair { index: 0, array };
    let pairs = [pair(low), pair(high), pair(0), pair(0)];
    let message = TableMessage {
        owner: 0,
        turn,
        block: 0,
        group: 11,
        content: GroupRecord::Served(Served { bits: 2, pairs }),
    };
    assert_eq!(rt; table_told(rt, sender, turn), message, "turn {turn}");
}

/// What a turn says for the FIBs of the four nodes.
fn says_ops(rt: &impl Abort, sender: &Sender, turn: u32, ops: [FibOp; 4]) {
    'nodes: for node in 0..4 {
        let message = FibMessage {
            owner: 0,
            turn,
            block: 0,
            group: 11,
            op: ops[usize::from(node)],
        };
        assert_eq!(rt;
            fib_told(rt, sender, turn, node),
            message,
            "turn {turn}, node {node}"
        );
    }
}

#[test]
fn tells_late_and_again(rt: HostRuntime) -> Result<(), Fail> {
    let mut sender = opened(&rt, rt.alloc())?;
    moved(&rt, &mut sender)?;
    let (none, put, drop) = (FibOp::Nothing, FibOp::Put(KEY, INFO), FibOp::Drop(KEY));
    'times: for _ in 0..2 {
        says_arrays(&rt, &sender, 3, 0, 0);
        says_ops(&rt, &sender, 3, [none, none, drop, none]);
        says_arrays(&rt, &sender, 1, 8, 0);
        says_ops(&rt, &sender, 1, [none, put, none, none]);
        says_arrays(&rt, &sender, 2, 0, 8);
        says_ops(&rt, &sender, 2, [none, drop, put, none]);
    }
    Ok(())
}

#[test]
fn stays_as_it_was_where_it_refuses(rt: HostRuntime) -> Result<(), Fail> {
    let mut sender = opened(&rt, rt.alloc())?;
    let absent = Err(UpdateRefused::Absent);
    assert_eq!(rt; asked(&rt, &mut sender, Update::Del(KEY)), absent);
    assert_eq!(rt; sender.turns(), 0);
    assert_eq!(rt; asked(&rt, &mut sender, set(1)), Ok(1));
    let other = FlowKey {
        protocol: 17,
        ..KEY
    };
    assert_eq!(rt; asked(&rt, &mut sender, Update::Del(other)), absent);
    assert_eq!(rt; sender.turns(), 1);
    assert_eq!(rt; sender.octets.as_slice(), &OCTETS[..51]);
    says_arrays(&rt, &sender, 1, 8, 0);
    Ok(())
}
