use crate::{MOST_TURNS, Owner, Turn, Update, UpdateRefused};
use flow_types::{Flow, FlowKey, Record, Shape};
use hash_family::place;
use setsep_build::build;
use std::alloc::Global;
use std::process::Abort;
use std::test::Fail;
use std::thread::Threads;

fn flow(port: u16, node: u8) -> Flow {
    Flow {
        key: FlowKey {
            source: 0x0A00_0001,
            destination: 0xC000_0207,
            source_port: port,
            destination_port: 443,
            protocol: 6,
        },
        node,
        info: Record { teid: 1, base: 9 },
    }
}

fn shape() -> Result<Shape, Fail> {
    Ok(Shape::new(4, 1).ok_or("a shape")?)
}

/// The owner of the one block of four nodes, without flows.
fn opened(rt: &(impl Threads + Sync), alloc: Global) -> Result<Owner, Fail> {
    let four_nodes = shape()?;
    let images = build(rt, alloc, four_nodes, &[], 1)?;
    Ok(Owner::open(alloc, four_nodes, 0, &[], images.as_slice())?)
}

/// The owner of the block of this shape, with this flow, which node 0 handles. `None` for want of memory.
fn opened_with(
    rt: &(impl Threads + Sync),
    alloc: Global,
    shape: Shape,
    flow: Flow,
) -> Option<Owner> {
    let flows = [Flow { node: 0, ..flow }];
    let Ok(images) = build(rt, alloc, shape, &flows, 1) else {
        return None;
    };
    match Owner::open(alloc, shape, 0, &flows, images.as_slice()) {
        Ok(owner) => Some(owner),
        Err(_) => None,
    }
}

fn asked(rt: &impl Abort, owner: &mut Owner, update: Update) -> Result<Turn, UpdateRefused> {
    assert!(rt; owner.owns(update.key()));
    owner.accept(update)
}

#[test]
fn gives_turns_and_plans(rt: HostRuntime) -> Result<(), Fail> {
    let mut owner = opened(&rt, rt.alloc())?;
    let key = flow(1000, 0).key;
    assert_eq!(rt; owner.find(key), None);
    assert_eq!(rt;
        asked(&rt, &mut owner, Update::Del(key)).err(),
        Some(UpdateRefused::Absent)
    );
    'steps: for (update, number, put, drop) in [
        (Update::Set(flow(1000, 1)), 1, Some(1), None),
        (Update::Set(flow(1000, 2)), 2, Some(2), Some(1)),
        (Update::Set(flow(1000, 2)), 3, Some(2), None),
        (Update::Del(key), 4, None, Some(2)),
    ] {
        let turn = asked(&rt, &mut owner, update)?;
        assert_eq!(rt;
            (turn.number, turn.fib.put, turn.fib.drop),
            (number, put, drop)
        );
    }
    assert_eq!(rt; owner.journal().len(), 4);
    assert_eq!(rt; owner.find(key), None);
    Ok(())
}

/// Whether the owner has the flows of these ports below `end`, and none of the others.
fn has_ports_below(rt: &impl Abort, owner: &Owner, end: u16) {
    'ports: for port in FIRST_PORT..=LAST_PORT {
        let kept = if port < end {
            Some((1, flow(port, 1).info))
        } else {
            None
        };
        assert_eq!(rt; owner.find(flow(port, 1).key), kept, "port {port}");
    }
}

const FIRST_PORT: u16 = 1000;

const LAST_PORT: u16 = 1020;

/// Meant for allocations that fail one by one: the owner is as before, and the next try succeeds.
#[test]
fn is_as_before_where_memory_is_wanted(rt: HostRuntime) -> Result<(), Fail> {
    let kept = flow(7, 0);
    let four_nodes = shape()?;
    let mut owner = match opened_with(&rt, rt.alloc(), four_nodes, kept) {
        Some(owner) => owner,
        None => opened_with(&rt, rt.alloc(), four_nodes, kept).ok_or("an owner")?,
    };
    'ports: for port in FIRST_PORT..=LAST_PORT {
        let turns = owner.journal().len();
        let update = Update::Set(flow(port, 1));
        if let Err(refused) = asked(&rt, &mut owner, update) {
            assert_eq!(rt; refused, UpdateRefused::OutOfMemory);
            assert_eq!(rt; owner.journal().len(), turns);
            has_ports_below(&rt, &owner, port);
            asked(&rt, &mut owner, update)?;
        }
        assert_eq!(rt; owner.journal().len(), turns.saturating_add(1));
        has_ports_below(&rt, &owner, port.saturating_add(1));
    }
    assert_eq!(rt; owner.find(kept.key), Some((0, kept.info)));
    Ok(())
}

#[test]
fn refuses_the_key_past_the_last_row(rt: HostRuntime) -> Result<(), Fail> {
    let mut owner = opened(&rt, rt.alloc())?;
    let mut keys = 0;
    'ports: for port in 0..=u16::MAX {
        if place(shape()?, flow(port, 0).key).bucket != 0 {
            continue;
        }
        let answer = asked(&rt, &mut owner, Update::Set(flow(port, port_node(keys))));
        if keys == 64 {
            assert_eq!(rt;
                answer.err(),
                Some(UpdateRefused::RowsFull {
                    block: 0,
                    needed: 65,
                    free: 64
                })
            );
            assert_eq!(rt; owner.find(flow(port, 0).key), None);
            return Ok(());
        }
        assert!(rt; answer.is_ok());
        keys = next(keys);
    }
    Err(Fail::from("fewer than 65 keys of one bucket"))
}

fn port_node(keys: u32) -> u8 {
    (keys % 2) as u8
}

fn next(keys: u32) -> u32 {
    keys.saturating_add(1)
}

#[test]
fn refuses_a_key_past_the_limit_of_its_block(rt: HostRuntime) -> Result<(), Fail> {
    let mut owner = opened(&rt, rt.alloc())?;
    'ports: for port in 0..1536 {
        let turn = asked(&rt, &mut owner, Update::Set(flow(port, 0)))?;
        assert_eq!(rt; turn.number, u32::from(port) + 1);
    }
    assert_eq!(rt;
        asked(&rt, &mut owner, Update::Set(flow(1536, 0))).err(),
        Some(UpdateRefused::BlockFull { block: 0 })
    );
    assert_eq!(rt;
        asked(&rt, &mut owner, Update::Set(flow(7, 0)))?.number,
        1537
    );
    Ok(())
}

#[test]
fn spends_its_turns(rt: HostRuntime) -> Result<(), Fail> {
    let mut owner = opened(&rt, rt.alloc())?;
    let update = Update::Set(flow(1000, 1));
    'turns: for turn in 1..=MOST_TURNS {
        assert_eq!(rt; asked(&rt, &mut owner, update)?.number, turn);
    }
    assert_eq!(rt;
        asked(&rt, &mut owner, update).err(),
        Some(UpdateRefused::Spent { limit: 65_535 })
    );
    Ok(())
}
