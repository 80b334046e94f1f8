//! How the parts of a cluster are opened: its table is built, and owners and nodes take what they keep of it.

ghost use Rattle.std.specs.Prelude.{◌≡◌, ◌≤◌, [], None, IfErr, IfOk, OnOk, map};
ghost use Rattle.flow_types.specs.Map.{AreDistinct};
ghost use Rattle.flow_types.specs.Size.{IsShape, owners_in};
ghost use Rattle.group_search.specs.Build.{IsBuild, past_limit};
ghost use Rattle.group_search.specs.Records.{AreHandled};
ghost use Rattle.replica_shard.specs.Shard.{shard_after};
ghost use Rattle.replica_shard.specs.Store.{shard_state_of};
ghost use Rattle.cluster_open.specs.Limits.{IsCausedBy};
ghost use Rattle.cluster_open.specs.Opened.{AreOpened, AreOpenedNodes, AreOpenedSenders};

use crate::fault::InputFault;
use crate::node::NodeParts;
use flow_reader::Opening;
use flow_types::laws::numbers_of_a_shape;
use flow_types::{Flow, Shape};
use group_search::BlockImage;
use out_of_memory::OutOfMemory;
use replica_shard::ShardPlan;
use setsep_build::build;
use std::alloc::Global;
use std::thread::Threads;
use turn_log::Sender;

/// What stands in a cluster before its first event.
#[derive(Drop)]
pub struct ClusterParts {
    /// An owner for each that has a block, by its number.
    pub owners: Vec<Sender>,
    /// The parts of each node, by its number.
    pub nodes: Vec<NodeParts>,
}

/// The parts of the cluster of an opening, whose keys are distinct and whose nodes are the shape's, as `read_opening` gives it.
///
/// The table is built by `workers` workers, 1..=64, which change nothing in it. The first block that is past a limit is
/// the fault.
pub fn open_parts<R: Threads + Sync>(
    rt: &R,
    alloc: Global,
    opening: &Opening,
    workers: u8,
) -> Result<ClusterParts, InputFault>
    requires distinct { AreDistinct opening.now.flows }
    requires handled { AreHandled opening.now.shape.nodes opening.now.flows }
    requires some_worker { 1 ≤ workers }
    requires few_workers { workers ≤ 64 }
    ensures owners { IfOk result (λ parts. AreOpenedSenders opening.now.shape opening.now.flows parts.owners.items) }
    ensures nodes { IfOk result (λ parts. AreOpenedNodes opening.now.shape opening.now.flows parts.nodes.items) }
    ensures shape { OnOk result (IsShape opening.now.shape.nodes opening.now.shape.blocks) }
    ensures within { OnOk result (past_limit opening.now.shape opening.now.flows ≡ None) }
    ensures refused { IfErr result (IsCausedBy (past_limit opening.now.shape opening.now.flows)) }
{
    let (shape, flows) = (opening.shape, opening.flows.as_slice());
    numbers_of_a_shape(shape);
    let images = match build(rt, alloc, shape, flows, workers) {
        Ok(images) => images,
        Err(refused) => return Err(InputFault::from(refused)),
    };
    Ok(open_with(alloc, shape, flows, images)?)
}

/// The parts of the cluster of these flows and of the images that they give. The images go before the nodes are opened.
fn open_with(
    alloc: Global,
    shape: Shape,
    flows: &[Flow],
    images: Vec<BlockImage>,
) -> Result<ClusterParts, OutOfMemory>
    requires distinct { AreDistinct flows.now }
    requires handled { AreHandled shape.nodes flows.now }
    requires built { IsBuild shape flows.now images.items }
    ensures owners { IfOk result (λ parts. AreOpenedSenders shape flows.now parts.owners.items) }
    ensures nodes { IfOk result (λ parts. AreOpenedNodes shape flows.now parts.nodes.items) }
{
    let owners = owners(alloc, shape, flows, images.as_slice())?;
    let plans = plans(alloc, shape, flows, images)?;
    let nodes = nodes(alloc, shape, flows, plans.as_slice())?;
    Ok(ClusterParts { owners, nodes })
}

/// An owner for each that has a block.
fn owners(
    alloc: Global,
    shape: Shape,
    flows: &[Flow],
    images: &[BlockImage],
) -> Result<Vec<Sender>, OutOfMemory>
    requires distinct { AreDistinct flows.now }
    requires handled { AreHandled shape.nodes flows.now }
    requires built { IsBuild shape flows.now images.now }
    ensures { IfOk result (λ owners. AreOpenedSenders shape flows.now owners.items) }
{
    let count = shape.nodes().min(shape.blocks()) as u8;
    let mut owners = Vec::new(alloc);
    'numbers: for number in 0..count {
        owners.push(Sender::open(alloc, shape, number, flows, images)?)?;
    }
    Ok(owners)
}

/// What the nodes' tables of each owner that has a block are opened with. The images aren't needed any more then.
fn plans(
    alloc: Global,
    shape: Shape,
    flows: &[Flow],
    images: Vec<BlockImage>,
) -> Result<Vec<ShardPlan>, OutOfMemory>
    requires handled { AreHandled shape.nodes flows.now }
    requires built { IsBuild shape flows.now images.items }
    ensures { IfOk result (λ plans. AreOpened (owners_in shape) (λ owner. shard_after shape owner flows.now []) (map shard_state_of plans.items)) }
{
    let _ = flows;
    let count = shape.nodes().min(shape.blocks()) as u8;
    let mut plans = Vec::new(alloc);
    'owners: for owner in 0..count {
        plans.push(ShardPlan::of(alloc, shape, owner, images.as_slice())?)?;
    }
    Ok(plans)
}

/// The parts of each node.
fn nodes(
    alloc: Global,
    shape: Shape,
    flows: &[Flow],
    plans: &[ShardPlan],
) -> Result<Vec<NodeParts>, OutOfMemory>
    requires distinct { AreDistinct flows.now }
    requires planned { AreOpened (owners_in shape) (λ owner. shard_after shape owner flows.now []) (map shard_state_of plans.now) }
    ensures { IfOk result (λ nodes. AreOpenedNodes shape flows.now nodes.items) }
{
    let mut nodes = Vec::new(alloc);
    'numbers: for number in 0..shape.nodes() as u8 {
        nodes.push(NodeParts::open(alloc, shape, number, flows, plans)?)?;
    }
    Ok(nodes)
}
