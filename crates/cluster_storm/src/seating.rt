//! The seats of a storm at its cluster's tables and FIBs: the nodes' parts, and the lanes' readers of them.
ghost use Rattle.std.specs.Prelude.{◌≡◌, ◌<◌, ◌∷◌, ◌++◌, [], ℕ, IfOk, OnOk, Some, length, replicate};
ghost use Rattle.std.specs.List.{slice_get};
ghost use Rattle.cluster_open.specs.Opened.{AreOpenedNodes, IsOpenedNode};
ghost use Rattle.partial_fib.specs.Ends.{reader_told};
ghost use Rattle.turn_relay.specs.Each.{Each, Every, HasAt};
ghost use Rattle.flow_types.specs.Size.{owners_in};
ghost use Rattle.turn_relay.specs.Linking.{IsFresh};
ghost use Rattle.turn_relay.specs.PartState.{PartState};
ghost use Rattle.cluster_storm.specs.Opening.{AreFreshNodes, IsFreshNode, ReadsAll};
ghost use Rattle.cluster_storm.specs.Seating.{AwaitsPart, IsNewFib, IsNewPart, IsNewTable, IsReadTo, ReadsSoFar, TakesPart, column, column_with};

use cluster_open::{NodeParts, Table};
use flow_types::laws::numbers_of_a_shape;
use flow_types::{Flow, Shape};
use out_of_memory::OutOfMemory;
use packet_path::TableSeat;
use partial_fib::{Fib, FibReader, share};
use std::alloc::Global;
use std::sync::Wait;
use storm_lane::OwnerReaders;
use turn_relay::{Applier, Part, close_all, close_parts};

/// A lane's readers of the owner are those of the part too.
fn give_lane(
    owner: usize,
    part: &mut Part,
    fib: FibReader,
    lane: &mut Vec<OwnerReaders>,
) -> Result<(), OutOfMemory>
    requires told { fib ≡ reader_told part.old.fib }
    requires awaits { HasAt owner (AwaitsPart part.old) lane.old.items }
    ensures kept { part.new ≡ part.old }
    ensures given { OnOk result (TakesPart owner part.old lane.old.items lane.new.items) }
{
    let view = part.table.view()?;
    lane[owner].push(view, fib)
}

/// Each lane's readers of the owner are those of the part too. There is a reader of its FIB for each lane.
fn give_lanes(
    owner: usize,
    part: &mut Part,
    fibs: &mut Vec<FibReader>,
    lanes: &mut [Vec<OwnerReaders>],
) -> Result<(), OutOfMemory>
    requires told { fibs.old.items ≡ replicate (length lanes.old) (reader_told part.old.fib) }
    requires awaits { Every (λ lane. HasAt owner (AwaitsPart part.old) lane.items) lanes.old }
    ensures kept { part.new ≡ part.old }
    ensures given { OnOk result (Each (λ before after. TakesPart owner part.old before.items after.items)
        lanes.old lanes.new) }
{
    let Some((lane, others)) = lanes.split_first_mut() else {
        return Ok(());
    };
    let Some(fib) = fibs.pop() else {
        unreachable!();
    };
    give_lane(owner, part, fib, lane)?;
    give_lanes(owner, part, fibs, others)
}

/// The owner's part of a node with this table and this FIB, and readers of the FIB, as many as there are lanes.
fn make_part<R: Wait>(
    rt: &R,
    alloc: Global,
    shape: Shape,
    owner: u8,
    table: Table,
    fib: Fib,
    readers: u8,
) -> Result<(Part, Vec<FibReader>), OutOfMemory>
    requires some { 0 < readers }
    requires table { IsNewTable shape owner table }
    requires fib { IsNewFib shape owner fib }
    ensures part { IfOk result (λ made. IsNewPart shape owner table fib made.0) }
    ensures readers { IfOk result (λ made. made.1.items ≡ replicate readers (reader_told made.0.fib)) }
{
    let (shard, writer) = table.into_parts();
    let table = TableSeat::new(alloc, shard, writer)?;
    let (fib, readers) = share(rt, alloc, fib, readers)?;
    Ok((Part::new(shape, owner, table, fib), readers))
}

/// The owner's part of a node with this table and this FIB. Each lane's readers of the owner are those of the part too.
fn seat_part<R: Wait>(
    rt: &R,
    alloc: Global,
    shape: Shape,
    owner: u8,
    table: Table,
    fib: Fib,
    lanes: &mut [Vec<OwnerReaders>],
) -> Result<Part, OutOfMemory>
    requires some { 0 < length lanes.old }
    requires few { length lanes.old < 256 }
    requires table { IsNewTable shape owner table }
    requires fib { IsNewFib shape owner fib }
    requires next { Every (λ lane. HasAt owner (IsReadTo shape owner fib.node) lane.items) lanes.old }
    ensures part { IfOk result (IsNewPart shape owner table fib) }
    ensures given { IfOk result (λ part. Each (λ before after. TakesPart owner part before.items after.items)
        lanes.old lanes.new) }
{
    let readers = lanes.len() as u8;
    let (mut part, mut readers) = make_part(rt, alloc, shape, owner, table, fib, readers)?;
    match give_lanes(usize::from(owner), &mut part, &mut readers, lanes) {
        Ok(()) => Ok(part),
        Err(wanting) => {
            part.close(rt);
            Err(wanting)
        }
    }
}

/// The parts of the node that comes after these, and the lanes' readers of them.
fn seat_parts<R: Wait>(
    rt: &R,
    alloc: Global,
    shape: Shape,
    flows: &[Flow],
    appliers: &[Applier],
    node: NodeParts,
    lanes: &mut [Vec<OwnerReaders>],
) -> Result<Vec<Part>, OutOfMemory>
    requires some { 0 < length lanes.old }
    requires few { length lanes.old < 256 }
    requires node { IsOpenedNode shape flows.now (length appliers.now) node }
    requires reads { Every (λ lane. ReadsSoFar shape (column appliers.now) lane.items) lanes.old }
    ensures many { IfOk result (λ parts. length parts.items ≡ owners_in shape) }
    ensures fresh { IfOk result (λ parts. (owner : ℕ) (part : PartState) →
        slice_get parts.items owner ≡ Some part → IsFresh shape flows.now (length appliers.now) owner part) }
    ensures reads { IfOk result (λ parts. Every
        (λ lane. ReadsSoFar shape (column_with appliers.now parts.items) lane.items) lanes.new) }
{
    // Only the contract speaks of the flows and of the nodes before this one.
    let _ = flows;
    let _ = appliers;
    let owners = shape.owners();
    let mut parts = Vec::with_capacity(alloc, usize::from(owners))?;
    let mut tables = node.tables.into_iter();
    let mut fibs = node.fibs.into_iter();
    'owners: for owner in 0..owners {
        let Some(table) = tables.next() else {
            unreachable!();
        };
        let Some(fib) = fibs.next() else {
            unreachable!();
        };
        match seat_part(rt, alloc, shape, owner, table, fib, lanes) {
            Ok(part) => parts.push_reserved(part),
            Err(wanting) => {
                close_parts(rt, parts);
                return Err(wanting);
            }
        }
    }
    Ok(parts)
}

/// The applier of the node that comes after these, and the lanes' readers of its parts.
fn seat_node<R: Wait>(
    rt: &R,
    alloc: Global,
    shape: Shape,
    flows: &[Flow],
    appliers: &[Applier],
    node: NodeParts,
    lanes: &mut [Vec<OwnerReaders>],
) -> Result<Applier, OutOfMemory>
    requires some { 0 < length lanes.old }
    requires few { length lanes.old < 256 }
    requires next { length appliers.now < shape.nodes }
    requires node { IsOpenedNode shape flows.now (length appliers.now) node }
    requires reads { Every (λ lane. ReadsSoFar shape (column appliers.now) lane.items) lanes.old }
    ensures fresh { IfOk result (IsFreshNode shape flows.now (length appliers.now)) }
    ensures reads { IfOk result (λ applier. Every
        (λ lane. ReadsSoFar shape (column (appliers.now ++ applier ∷ [])) lane.items) lanes.new) }
{
    numbers_of_a_shape(shape);
    let number = appliers.len() as u8;
    let parts = seat_parts(rt, alloc, shape, flows, appliers, node, lanes)?;
    Ok(Applier {
        node: number,
        parts,
    })
}

/// The appliers of the nodes, and the lanes' readers of their parts. After an `Err` none is left.
fn seat_nodes<R: Wait>(
    rt: &R,
    alloc: Global,
    shape: Shape,
    flows: &[Flow],
    nodes: Vec<NodeParts>,
    lanes: &mut [Vec<OwnerReaders>],
) -> Result<Vec<Applier>, OutOfMemory>
    requires some { 0 < length lanes.old }
    requires few { length lanes.old < 256 }
    requires nodes { AreOpenedNodes shape flows.now nodes.items }
    requires reads { Every (λ lane. ReadsSoFar shape (column []) lane.items) lanes.old }
    ensures fresh { IfOk result (λ appliers. AreFreshNodes shape flows.now appliers.items) }
    ensures reads { IfOk result (λ appliers. Every
        (λ lane. ReadsSoFar shape (column appliers.items) lane.items) lanes.new) }
{
    let mut appliers = Vec::with_capacity(alloc, nodes.len())?;
    'nodes: for node in nodes {
        match seat_node(rt, alloc, shape, flows, appliers.as_slice(), node, lanes) {
            Ok(applier) => appliers.push_reserved(applier),
            Err(wanting) => {
                close_all(rt, appliers);
                return Err(wanting);
            }
        }
    }
    Ok(appliers)
}

/// A lane that has no readers yet of any owner that has a block.
fn empty_lane(alloc: Global, shape: Shape) -> Result<Vec<OwnerReaders>, OutOfMemory>
    ensures { IfOk result (λ lane. ReadsSoFar shape (column []) lane.items) }
{
    let owners = shape.owners();
    let mut lane = Vec::with_capacity(alloc, usize::from(owners))?;
    'owners: for owner in 0..owners {
        lane.push_reserved(OwnerReaders::new(alloc, shape, owner));
    }
    Ok(lane)
}

/// Lanes that have no readers yet.
fn empty_lanes(
    alloc: Global,
    shape: Shape,
    lanes: u8,
) -> Result<Vec<Vec<OwnerReaders>>, OutOfMemory>
    ensures many { IfOk result (λ all. length all.items ≡ lanes) }
    ensures none { IfOk result (λ all. Every (λ lane. ReadsSoFar shape (column []) lane.items) all.items) }
{
    let mut all = Vec::with_capacity(alloc, usize::from(lanes))?;
    'lanes: for _ in 0..lanes {
        all.push_reserved(empty_lane(alloc, shape)?);
    }
    Ok(all)
}

/// An applier for each node, and each lane's readers of the nodes' tables and FIBs, owner by owner.
///
/// The nodes are as they were opened with these flows. After an `Err` nothing is left that would have to be closed.
pub(crate) fn seat<R: Wait>(
    rt: &R,
    alloc: Global,
    shape: Shape,
    flows: &[Flow],
    nodes: Vec<NodeParts>,
    lanes: u8,
) -> Result<(Vec<Applier>, Vec<Vec<OwnerReaders>>), OutOfMemory>
    requires some { 0 < lanes }
    requires nodes { AreOpenedNodes shape flows.now nodes.items }
    ensures nodes { IfOk result (λ made. AreFreshNodes shape flows.now made.0.items) }
    ensures lanes { IfOk result (λ made. length made.1.items ≡ lanes) }
    ensures readers { IfOk result (λ made. Every (λ readers. ReadsAll shape made.0.items readers.items)
        made.1.items) }
{
    let mut readers = empty_lanes(alloc, shape, lanes)?;
    let appliers = seat_nodes(rt, alloc, shape, flows, nodes, readers.as_mut_slice())?;
    Ok((appliers, readers))
}
