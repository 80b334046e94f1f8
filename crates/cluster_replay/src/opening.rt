//! How a cluster is opened: owners and nodes take what they keep of the table that is built.

ghost use Rattle.std.specs.Prelude.{◌≡◌, ◌≤◌, None, false, IfErr, IfOk, OnOk, map};
ghost use Rattle.flow_types.specs.Map.{AreDistinct};
ghost use Rattle.flow_types.specs.Size.{IsShape};
ghost use Rattle.group_search.specs.Build.{past_limit};
ghost use Rattle.group_search.specs.Records.{AreHandled};
ghost use Rattle.run_model.specs.Replaying.{fresh};
ghost use Rattle.cluster_open.specs.Limits.{IsCausedBy};
ghost use Rattle.cluster_open.specs.Opened.{AreOpenedNodes, AreOpenedSenders};
ghost use Rattle.cluster_replay.specs.Cluster.{node_of_parts};

use crate::cluster::Cluster;
use crate::node::Node;
use cluster_open::{ClusterParts, InputFault, NodeParts, open_parts};
use flow_reader::Opening;
use flow_types::{Flow, Shape};
use out_of_memory::OutOfMemory;
use std::alloc::{AllocError, Global};
use std::thread::Threads;

/// The cluster of an opening, whose keys are distinct and whose nodes are the shape's, as `read_opening` gives it.
///
/// The table is built by 1..=64 `workers`, which change nothing in it. The first block that is past a limit is
/// the fault.
pub fn open<R: Threads + Sync>(
    rt: &R,
    alloc: Global,
    opening: &Opening,
    workers: u8,
) -> Result<Cluster, InputFault>
    requires distinct { AreDistinct opening.now.flows }
    requires handled { AreHandled opening.now.shape.nodes opening.now.flows }
    requires some_worker { 1 ≤ workers }
    requires few_workers { workers ≤ 64 }
    ensures opened { IfOk result (λ run. run.cluster ≡ fresh
        (record { size = opening.now.shape; flows = opening.now.flows })) }
    ensures memory { IfOk result (λ run. run.lacks_memory ≡ false) }
    ensures within { OnOk result (past_limit opening.now.shape opening.now.flows ≡ None) }
    ensures refused { IfErr result (IsCausedBy (past_limit opening.now.shape opening.now.flows)) }
{
    match open_parts(rt, alloc, opening, workers) {
        Ok(parts) => Ok(with_parts(alloc, opening.shape, opening.flows.as_slice(), parts)?),
        Err(fault) => Err(fault),
    }
}

/// The cluster of these flows and of these parts.
fn with_parts(
    alloc: Global,
    shape: Shape,
    flows: &[Flow],
    parts: ClusterParts,
) -> Result<Cluster, OutOfMemory>
    requires shape { IsShape shape.nodes shape.blocks }
    requires handled { AreHandled shape.nodes flows.now }
    requires owners { AreOpenedSenders shape flows.now parts.owners.items }
    requires nodes { AreOpenedNodes shape flows.now parts.nodes.items }
    ensures opened { IfOk result (λ run. run.cluster ≡ fresh (record { size = shape; flows = flows.now })) }
    ensures memory { IfOk result (λ run. run.lacks_memory ≡ false) }
{
    let ClusterParts { owners, nodes } = parts;
    let nodes = nodes_of(alloc, nodes)?;
    let flows = Vec::from_slice(alloc, flows)?;
    Ok(Cluster {
        shape,
        flows,
        owners,
        nodes,
        lacks_memory: false,
    })
}

/// The nodes of these parts.
fn nodes_of(alloc: Global, parts: Vec<NodeParts>) -> Result<Vec<Node>, AllocError>
    ensures { IfOk result (λ nodes. nodes.items ≡ map node_of_parts parts.items) }
{
    parts
        .into_iter()
        .map(|parts| Node::of(parts))
        .collect(alloc)
}
