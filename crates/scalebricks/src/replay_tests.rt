//! A cluster event by event, and replays as calls.

ghost use Rattle.std.specs.Prelude.{◌≡◌, IfOk, IsTrue};
ghost use Rattle.packet_reader.specs.Form.{IsFormed};
ghost use Rattle.packet_reader.specs.declared.mode.Mode.TheVariants.{Replay};

use cluster_replay::{
    Cluster, Event, InputFault, Part, Reply, first_bad_row_law, open, openings_can_be_opened,
    replay, replays_are_runs,
};
use flow_reader::{MOST_OCTETS, read_opening};
use flow_types::{BadRow, Flow, FlowKey, MOST_TURNS, Record, Shape, Why};
use group_history::UpdateRefused;
use out_of_memory::OutOfMemory;
use std::alloc::Global;
use std::process::Abort;
use std::test::Fail;
use std::thread::Threads;

/// Of one block it stands in block 0, of two in block 1.
const KEY: FlowKey = FlowKey {
    source: 0x0A00_0001,
    destination: 0xC000_0207,
    source_port: 1000,
    destination_port: 443,
    protocol: 6,
};

/// Of two blocks it stands in block 0.
const OTHER: FlowKey = FlowKey {
    source_port: 1002,
    ..KEY
};

const FIRST: Record = Record {
    teid: 77,
    base: 0xC0A8_0009,
};

const SECOND: Record = Record {
    teid: 78,
    base: 0xC0A8_000A,
};

fn set(key: FlowKey, node: u8, info: Record) -> Event {
    Event::Set(Flow { key, node, info })
}

fn packet(ingress: u8, key: FlowKey) -> Event {
    Event::Packet { ingress, key }
}

fn carry(node: u8, owner: u8, turn: u32, part: Part) -> Event {
    Event::Carry {
        node,
        owner,
        turn,
        part,
    }
}

fn table(node: u8, turn: u32) -> Event {
    carry(node, 0, turn, Part::Table)
}

fn fib(node: u8, turn: u32) -> Event {
    carry(node, 0, turn, Part::Fib)
}

fn accepted(owner: u8, turn: u32) -> Reply {
    Reply::Accepted { owner, turn }
}

fn found(node: u8, seen: u32, fib: u32, info: Record) -> Reply {
    Reply::Found {
        node,
        seen,
        fib,
        info,
    }
}

fn unknown(node: u8, seen: u32, fib: u32) -> Reply {
    Reply::Unknown { node, seen, fib }
}

/// The cluster that these rows open, and its shape.
#[tactic(auto, unfolding(run_model::specs::Replaying::fresh))]
fn opened(rt: &(impl Threads + Sync), alloc: Global, rows: &str) -> Result<(Shape, Cluster), Fail>
    ensures { IfOk result (λ made. made.1.cluster.opened.size ≡ made.0) }
{
    let bytes = rows.as_bytes();
    if bytes.len() > MOST_OCTETS {
        return Err("too many octets".into());
    }
    let Ok(opening) = read_opening(alloc, bytes) else {
        return Err("an opening".into());
    };
    let Ok(cluster) = open(rt, alloc, &opening, 2) else {
        return Err("a cluster".into());
    };
    Ok((opening.shape, cluster))
}

/// Whether the event's nodes and turn are in their ranges.
fn is_formed(shape: Shape, event: &Event) -> bool
    ensures { IsTrue result → IsFormed Replay shape event.now }
{
    let nodes = shape.nodes();
    match *event {
        Event::Set(flow) => u16::from(flow.node) < nodes,
        Event::Packet { ingress, .. } => u16::from(ingress) < nodes,
        Event::Carry {
            node,
            owner,
            turn,
            ..
        } => {
            u16::from(node) < nodes && u16::from(owner) < nodes && turn >= 1 && turn <= MOST_TURNS
        }
        Event::Del(_) | Event::Sync => true,
    }
}

/// The reply of a cluster of this shape to an event whose nodes and turn are in their ranges.
fn reply_to(
    rt: &impl Abort,
    shape: Shape,
    cluster: &mut Cluster,
    event: &Event,
) -> Result<Reply, OutOfMemory>
    requires { cluster.old.cluster.opened.size ≡ shape }
    ensures { cluster.new.cluster.opened.size ≡ shape }
{
    assert!(rt; is_formed(shape, event));
    cluster.handle(event)
}

/// Fails where an event gets another reply. Whatever it gets, the cluster stays one that can handle the next.
fn replies(rt: &impl Abort, shape: Shape, cluster: &mut Cluster, wanted: &[(Event, Reply)])
    requires { cluster.old.cluster.opened.size ≡ shape }
    ensures { cluster.new.cluster.opened.size ≡ shape }
{
    'events: for (event, reply) in wanted {
        let given = reply_to(rt, shape, cluster, event);
        assert_eq!(rt; given, Ok(*reply), "to {event:?}");
    }
}

#[test]
fn answers_events_by_those_before_them(rt: HostRuntime) -> Result<(), Fail> {
    let cases: [(&str, &[(Event, Reply)]); 3] = [
        // The ingress knows the move before the node that the flow moves to, and another ingress learns it after the node that
        // the flow has left.
        (
            "cluster,4,1\nflow,10.0.0.1,192.0.2.7,1000,443,6,1,77,192.168.0.9\nbegin\n",
            &[
                (set(KEY, 2, SECOND), accepted(0, 1)),
                (table(0, 1), Reply::Applied),
                (packet(0, KEY), unknown(2, 1, 0)),
                (fib(2, 1), Reply::Applied),
                (packet(0, KEY), found(2, 1, 1, SECOND)),
                (packet(3, KEY), found(1, 0, 0, FIRST)),
                (fib(1, 1), Reply::Applied),
                (packet(3, KEY), unknown(1, 0, 1)),
            ],
        ),
        // Each message is taken once and in order.
        (
            "cluster,4,1\nbegin\n",
            &[
                // No carry waits for its update.
                (table(0, 1), Reply::Unsent),
                (set(KEY, 1, FIRST), accepted(0, 1)),
                (set(KEY, 2, FIRST), accepted(0, 2)),
                (table(0, 2), Reply::EarlyHave { have: 0 }),
                (table(0, 1), Reply::Applied),
                (table(0, 1), Reply::RepeatHave { have: 1 }),
                // The node's own records are counted apart.
                (fib(0, 2), Reply::EarlyHave { have: 0 }),
                (fib(0, 1), Reply::Applied),
                (table(0, 2), Reply::Applied),
                (fib(0, 1), Reply::RepeatHave { have: 1 }),
                (table(0, 1), Reply::RepeatHave { have: 2 }),
                (table(0, 9), Reply::Unsent),
                // Node 3 owns no block.
                (carry(0, 3, 1, Part::Fib), Reply::Unsent),
            ],
        ),
        // What is there alone is deleted.
        (
            "cluster,4,1\nbegin\n",
            &[
                (Event::Del(KEY), Reply::Refused(UpdateRefused::Absent)),
                (packet(0, KEY), unknown(0, 0, 0)),
                (set(KEY, 2, FIRST), accepted(0, 1)),
                // A flow that is set as it stands is a turn like any other.
                (set(KEY, 2, FIRST), accepted(0, 2)),
                (Event::Sync, Reply::Synced),
                (packet(0, KEY), found(2, 2, 2, FIRST)),
                (Event::Del(KEY), accepted(0, 3)),
                (packet(0, KEY), found(2, 2, 2, FIRST)),
                (Event::Sync, Reply::Synced),
                (packet(0, KEY), unknown(0, 3, 3)),
            ],
        ),
    ];
    'cases: for (rows, wanted) in cases {
        let (shape, mut cluster) = opened(&rt, rt.alloc(), rows)?;
        replies(&rt, shape, &mut cluster, wanted);
    }
    Ok(())
}

// Node 1 has taken one of four messages of owner 1, and none of owner 0.
#[test]
fn a_sync_brings_every_node_up(rt: HostRuntime) -> Result<(), Fail> {
    let (shape, mut cluster) = opened(&rt, rt.alloc(), "cluster,4,2\nbegin\n")?;
    let before = [
        (set(KEY, 1, FIRST), accepted(1, 1)),
        (set(KEY, 2, SECOND), accepted(1, 2)),
        (set(OTHER, 3, FIRST), accepted(0, 1)),
        (carry(1, 1, 1, Part::Table), Reply::Applied),
        (Event::Sync, Reply::Synced),
    ];
    replies(&rt, shape, &mut cluster, &before);
    'nodes: for node in 0..4 {
        let have = |have| Reply::RepeatHave { have };
        let after = [
            (carry(node, 0, 1, Part::Table), have(1)),
            (carry(node, 0, 1, Part::Fib), have(1)),
            (carry(node, 1, 1, Part::Table), have(2)),
            (carry(node, 1, 1, Part::Fib), have(2)),
            (packet(node, KEY), found(2, 2, 2, SECOND)),
            (packet(node, OTHER), found(3, 1, 1, FIRST)),
        ];
        replies(&rt, shape, &mut cluster, &after);
    }
    Ok(())
}

#[test]
fn replays_a_script(rt: HostRuntime) -> Result<(), Fail> {
    let rows = "cluster,4,1\nflow,10.0.0.1,192.0.2.7,1000,443,6,1,77,192.168.0.9\nbegin\n\
         set,10.0.0.1,192.0.2.7,1000,443,6,2,78,192.168.0.10\ncarry,0,0,1,table\n\
         packet,0,10.0.0.1,192.0.2.7,1000,443,6\nsync\ncarry,0,0,1,fib\n\
         packet,3,10.0.0.1,192.0.2.7,1000,443,6\ndel,10.0.0.1,192.0.2.7,1000,443,6\n\
         carry,3,0,2,table\npacket,3,10.0.0.1,192.0.2.7,1000,443,6\nend\n";
    let printed = "set accepted owner 0 turn 1\ncarry applied\n\
         packet 0 in 0 to 2 hops 1 seen 1 fib 0 unknown\ncarry repeat have 1\n\
         packet 1 in 3 to 2 hops 1 seen 1 fib 1 teid 78 base 192.168.0.10\n\
         del accepted owner 0 turn 2\ncarry applied\n\
         packet 2 in 3 to 0 hops 1 seen 2 fib 1 unknown\n\
         done packets 3 found 1 unknown 2\n";
    let text = replay(&rt, rt.alloc(), rows.as_bytes(), 2)
        .ok()
        .ok_or("a text")?;
    assert!(rt; text.as_slice() == printed.as_bytes());
    Ok(())
}

#[test]
fn tells_the_first_bad_row(rt: HostRuntime) -> Result<(), Fail> {
    let cases: [(&str, u32, Why); 2] = [
        ("", 1, Why::NoBegin),
        (
            "cluster,4,1\nbegin\nsync\ncarry,4,0,1,table\ncarry\n",
            4,
            Why::Node,
        ),
    ];
    for (rows, row, why) in cases {
        let given = replay(&rt, rt.alloc(), rows.as_bytes(), 1);
        let fault = InputFault::Bad(BadRow { row, why });
        assert!(rt; given == Err(fault), "of {rows:?}");
    }
    Ok(())
}

#[test]
fn laws_can_be_called() {
    first_bad_row_law();
    openings_can_be_opened();
    replays_are_runs();
}
