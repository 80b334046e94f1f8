ghost use Rattle.std.specs.Prelude.{◌≤◌, IfOk};
ghost use Rattle.flow_types.specs.Map.{AreDistinct};
ghost use Rattle.group_search.specs.Records.{AreHandled};
ghost use Rattle.setsep_build.specs.Workers.{most_workers};

use crate::{BuildRefused, Placed, build, place_all, the_limits_are};
use block_layout::GROUPS;
use flow_types::{Flow, FlowKey, Record, Shape};
use group_search::{BlockImage, GroupRecord, Pair};
use hash_family::place;
use std::alloc::Global;
use std::test::Fail;
use std::thread::Threads;

/// So many flows with ports from 0 up, at nodes 0 to `nodes - 1` in turn; where blocks are given, of these alone, and where
/// a bucket is given, of that bucket alone. It fails where there are too few such ports.
fn flows(
    alloc: Global,
    shape: Shape,
    count: usize,
    nodes: u8,
    blocks: &[u16],
    bucket: Option<u8>,
) -> Result<Vec<Flow>, Fail>
    requires some { 1 ≤ nodes }
    requires few { nodes ≤ shape.nodes }
    ensures distinct { IfOk result (λ made. AreDistinct made.items) }
    ensures handled { IfOk result (λ made. AreHandled shape.nodes made.items) }
{
    let mut made = Vec::with_capacity(alloc, count)?;
    'ports: for port in 0..u16::MAX {
        let key = FlowKey {
            source: 0,
            destination: 0,
            source_port: port,
            destination_port: 0,
            protocol: 6,
        };
        let at = place(shape, key);
        let wanted = (blocks.is_empty() || blocks.contains(&at.block))
            && (bucket.is_none() || bucket == Some(at.bucket));
        if wanted && made.len() < count {
            let info = Record { teid: 0, base: 0 };
            let node = (made.len() % nodes as usize) as u8;
            made.push(Flow { key, node, info })?;
        }
    }
    if made.len() < count {
        return Err("too few ports".into());
    }
    Ok(made)
}

/// What the build of the flows is refused for.
fn refusal<R: Threads + Sync>(
    rt: &R,
    alloc: Global,
    shape: Shape,
    flows: &[Flow],
    workers: u8,
) -> Option<BuildRefused>
    requires distinct { AreDistinct flows.now }
    requires handled { AreHandled shape.nodes flows.now }
    requires some_worker { 1 ≤ workers }
    requires few_workers { workers ≤ most_workers }
{
    build(rt, alloc, shape, flows, workers).err()
}

/// The node that the images give a key.
fn routed(images: &[BlockImage], shape: Shape, key: FlowKey) -> Option<u8> {
    let at = place(shape, key);
    let image = images.get(at.block as usize)?;
    image
        .record(image.choices().group(at.bucket))
        .decode(shape.nodes(), key)
}

/// The first of the flows whose key the images don't give its node.
fn astray(images: &[BlockImage], shape: Shape, flows: &[Flow]) -> Option<FlowKey> {
    for flow in flows {
        if routed(images, shape, flow.key) != Some(flow.node) {
            return Some(flow.key);
        }
    }
    None
}

/// The first block at which the images differ.
fn difference(images: &[BlockImage], others: &[BlockImage]) -> Option<usize> {
    if images.len() != others.len() {
        return Some(images.len());
    }
    images
        .iter()
        .zip(others.iter())
        .position(|(image, other)| !are_same(image, other))
}

fn are_same(image: &BlockImage, other: &BlockImage) -> bool {
    for group in 0..GROUPS {
        if image.record(group) != other.record(group) {
            return false;
        }
    }
    image.choices() == other.choices()
}

/// The first group whose record isn't that of flows at node 0 alone.
fn other_than_node_0(image: &BlockImage, bits: u8) -> Option<u8> {
    for group in 0..GROUPS {
        if !gives_node_0(image.record(group), bits) {
            return Some(group);
        }
    }
    None
}

fn gives_node_0(record: &GroupRecord, bits: u8) -> bool {
    match record {
        GroupRecord::Served(served) => {
            served.bits == bits && served.pairs == [Pair { index: 0, array: 0 }; 4]
        }
        GroupRecord::Fallback(_) => false,
    }
}

/// The first of the flows that doesn't stand before the next.
fn out_of_order(all: &[Placed]) -> Option<usize> {
    let rank = |one: &Placed| (one.block, one.bucket, one.key.number());
    all.iter()
        .zip(all.iter().skip(1))
        .position(|(one, next)| rank(one) >= rank(next))
}

#[test]
fn gives_each_flow_its_handler(rt: HostRuntime) -> Result<(), Fail> {
    let alloc = rt.alloc();
    the_limits_are();
    let shape = Shape::new(16, 3).ok_or("16 nodes and 3 blocks")?;
    let flows = flows(alloc, shape, 3_000, 16, &[], None)?;
    let images = build(&rt, alloc, shape, flows.as_slice(), 1)?;
    assert_eq!(rt; images.len(), 3);
    assert_eq!(rt; astray(images.as_slice(), shape, flows.as_slice()), None);
    Ok(())
}

#[test]
fn puts_flows_in_order(rt: HostRuntime) -> Result<(), Fail> {
    let alloc = rt.alloc();
    let shape = Shape::new(16, 7).ok_or("16 nodes and 7 blocks")?;
    let flows = flows(alloc, shape, 5_000, 16, &[], None)?;
    let all = place_all(&rt, alloc, shape, flows.as_slice())?;
    assert_eq!(rt; all.len(), 5_000);
    assert_eq!(rt; out_of_order(all.as_slice()), None);
    Ok(())
}

#[test]
fn builds_the_same_by_any_number_of_workers(rt: HostRuntime) -> Result<(), Fail> {
    let alloc = rt.alloc();
    let shape = Shape::new(16, 7).ok_or("16 nodes and 7 blocks")?;
    let flows = flows(alloc, shape, 7_000, 16, &[], None)?;
    let by_one = build(&rt, alloc, shape, flows.as_slice(), 1)?;
    assert_eq!(rt; by_one.len(), 7);
    for workers in [2, 3, 7, 64] {
        let by_more = build(&rt, alloc, shape, flows.as_slice(), workers)?;
        assert_eq!(rt;
            difference(by_one.as_slice(), by_more.as_slice()),
            None,
            "{workers} workers"
        );
    }
    Ok(())
}

#[test]
fn names_the_first_block_of_those_that_are_refused(rt: HostRuntime) -> Result<(), Fail> {
    let alloc = rt.alloc();
    let shape = Shape::new(16, 7).ok_or("16 nodes and 7 blocks")?;
    // By three workers the blocks 4 and 6 are in the second and the third run.
    let two_full = flows(alloc, shape, 3_400, 16, &[4, 6], None)?;
    for workers in [1, 2, 3, 64] {
        assert_eq!(rt;
            refusal(&rt, alloc, shape, two_full.as_slice(), workers),
            Some(BuildRefused::BlockFull { block: 4 }),
            "{workers} workers"
        );
    }
    Ok(())
}

#[test]
fn takes_1536_flows_of_a_block_and_no_more(rt: HostRuntime) -> Result<(), Fail> {
    let alloc = rt.alloc();
    let shape = Shape::new(4, 1).ok_or("4 nodes and a block")?;
    let most = flows(alloc, shape, 1_536, 1, &[], None)?;
    let images = build(&rt, alloc, shape, most.as_slice(), 7)?;
    assert_eq!(rt; images.len(), 1);
    assert_eq!(rt; other_than_node_0(&images[0], 2), None);
    let more = flows(alloc, shape, 1_537, 1, &[], None)?;
    assert_eq!(rt;
        refusal(&rt, alloc, shape, more.as_slice(), 1),
        Some(BuildRefused::BlockFull { block: 0 })
    );
    Ok(())
}

#[test]
fn takes_64_rows_of_a_block_and_no_more(rt: HostRuntime) -> Result<(), Fail> {
    let alloc = rt.alloc();
    let shape = Shape::new(2, 1).ok_or("2 nodes and a block")?;
    let most = flows(alloc, shape, 64, 2, &[], Some(9))?;
    let images = build(&rt, alloc, shape, most.as_slice(), 1)?;
    assert_eq!(rt; images.len(), 1);
    let group = images[0].choices().group(9);
    assert_eq!(rt; images[0].record(group).rows(), 64);
    assert_eq!(rt; astray(images.as_slice(), shape, most.as_slice()), None);
    let more = flows(alloc, shape, 65, 2, &[], Some(9))?;
    assert_eq!(rt;
        refusal(&rt, alloc, shape, more.as_slice(), 1),
        Some(BuildRefused::RowsFull {
            block: 0,
            needed: 65
        })
    );
    Ok(())
}

/// Refusals for too many flows in this block, and for too many rows.
fn refusals_of<R: Threads + Sync>(
    rt: &R,
    alloc: Global,
    shape: Shape,
    block: u16,
) -> Result<[Option<BuildRefused>; 2], Fail>
    requires { 16 ≤ shape.nodes }
{
    let many = flows(alloc, shape, 1_537, 16, &[block], None)?;
    let of_a_bucket = flows(alloc, shape, 65, 16, &[block], Some(9))?;
    Ok([
        refusal(rt, alloc, shape, many.as_slice(), 1),
        refusal(rt, alloc, shape, of_a_bucket.as_slice(), 1),
    ])
}

#[test]
fn names_the_block_that_is_past_a_limit(rt: HostRuntime) -> Result<(), Fail> {
    let alloc = rt.alloc();
    let shape = Shape::new(16, 3).ok_or("16 nodes and 3 blocks")?;
    for block in [0, 1, 2] {
        let [full, rows] = refusals_of(&rt, alloc, shape, block)?;
        assert_eq!(rt; full, Some(BuildRefused::BlockFull { block }));
        assert_eq!(rt; rows, Some(BuildRefused::RowsFull { block, needed: 65 }));
    }
    Ok(())
}

#[test]
fn builds_a_table_of_no_flows(rt: HostRuntime) -> Result<(), Fail> {
    let alloc = rt.alloc();
    let shape = Shape::new(16, 256).ok_or("16 nodes and 256 blocks")?;
    let images = build(&rt, alloc, shape, &[], 1)?;
    assert_eq!(rt; images.len(), 256);
    for image in &images {
        assert_eq!(rt; other_than_node_0(image, 4), None);
    }
    Ok(())
}
