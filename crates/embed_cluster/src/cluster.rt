//! The cluster's parts: how they are opened, run beside one another, brought to a barrier and closed.
ghost use Rattle.std.specs.Prelude.{◌≡◌, ◌<◌, IfOk};
ghost use Rattle.std.specs.Thread.{IsSync};
ghost use Rattle.flow_types.specs.Map.{AreDistinct};
ghost use Rattle.group_search.specs.Build.{IsBuild};
ghost use Rattle.group_search.specs.Records.{AreHandled};
ghost use Rattle.embed_cluster.specs.Parts.{AreSameNodes, AreSameReaders, CanAnswer, HaveShape, IsFresh, IsLinkedTo, IsOpened, IsSameOwner, ReadBoth, Stands};
ghost use Rattle.turn_log.specs.Sender.{IsSenderOf};

use crate::lane::{Lane, Said, answer_many, meet, say};
use crate::node::{Node, Nodes, apply_all, settle_all};
use crate::owner::{OWNER, Owner, own_all};
use flow_types::{Flow, Shape};
use group_search::BlockImage;
use node_link::{SendEnd, link};
use out_of_memory::OutOfMemory;
use packet_path::TableSeat;
use partial_fib::{Fib, FibReader, share};
use replica_shard::laws::builds_can_be_tables;
use replica_shard::{Shard, ShardPlan};
use std::alloc::Global;
use std::sync::Wait;
use std::sync::atomic::AtomicU64;
use std::thread::{Threads, join_mut};
use storm_lane::OwnerReaders;
use turn_log::Sender;

/// What all threads share.
#[derive(Drop)]
pub(crate) struct Phase<'a> {
    pub(crate) shape: Shape,
    /// The flows at the start.
    pub(crate) flows: &'a [Flow],
    /// Above 0 once the owner is done.
    pub(crate) done: AtomicU64,
}

/// A node before the owner's first turn, with the owner's end of its link, and a reader of its FIB for each lane.
fn open_node<R: Wait>(
    rt: &R,
    alloc: Global,
    plan: &ShardPlan,
    shape: Shape,
    node: u8,
    flows: &[Flow],
) -> Result<(Node, SendEnd, FibReader, FibReader), OutOfMemory>
    requires plan { (plan.now.size ≡ shape) × (plan.now.owner ≡ 0) }
    requires distinct { AreDistinct flows.now }
    requires node { node < shape.nodes }
    ensures { IfOk result (IsOpened shape node) }
{
    let (shard, writer) = Shard::open_plan(alloc, plan)?;
    let table = TableSeat::new(alloc, shard, writer)?;
    let (end, takes) = link(alloc, shape)?;
    let fib = Fib::open(alloc, shape, node, OWNER, flows)?;
    // From here on there is a writer, which can't be dropped. So it comes last.
    let (fib, mut readers) = share(rt, alloc, fib, 2)?;
    let (Some(two), Some(one)) = (readers.pop(), readers.pop()) else {
        unreachable!()
    };
    let node = Node {
        takes,
        table,
        fib,
        refused: false,
    };
    Ok((node, end, one, two))
}

/// A lane whose packets enter at this node, with its readers node by node.
fn open_lane(
    alloc: Global,
    shape: Shape,
    ingress: usize,
    nodes: &mut Nodes,
    first: FibReader,
    second: FibReader,
) -> Result<Lane, OutOfMemory>
    requires two { shape.nodes ≡ 2 }
    requires enters { ingress < shape.nodes }
    requires first { IsFresh shape 0 nodes.old.first first }
    requires second { IsFresh shape 1 nodes.old.second second }
    ensures can { IfOk result (CanAnswer shape) }
    ensures reads { IfOk result (λ lane. ReadBoth lane nodes.old) }
    ensures kept { nodes.new ≡ nodes.old }
{
    let mut readers = OwnerReaders::new(alloc, shape, OWNER);
    readers.push(nodes.first.table.view()?, first)?;
    readers.push(nodes.second.table.view()?, second)?;
    Ok(Lane {
        readers,
        ingress,
        answered: 0,
    })
}

/// Opens the cluster, runs it and closes it. The images are those that the build gives for the flows.
pub(crate) fn run<R: Threads + Wait + Sync>(
    rt: &R,
    alloc: Global,
    shape: Shape,
    flows: &[Flow],
    images: &[BlockImage],
) -> Result<[Said; 2], OutOfMemory>
    requires two { shape.nodes ≡ 2 }
    requires distinct { AreDistinct flows.now }
    requires handled { AreHandled shape.nodes flows.now }
    requires built { IsBuild shape flows.now images.now }
{
    let sender = Sender::open(alloc, shape, OWNER, flows, images)?;
    builds_can_be_tables();
    let plan = ShardPlan::of(alloc, shape, OWNER, images)?;
    run_with(rt, alloc, shape, flows, sender, &plan)
}

/// Opens the nodes, runs the cluster and closes the nodes, whatever became of it.
fn run_with<R: Threads + Wait + Sync>(
    rt: &R,
    alloc: Global,
    shape: Shape,
    flows: &[Flow],
    sender: Sender,
    plan: &ShardPlan,
) -> Result<[Said; 2], OutOfMemory>
    requires two { shape.nodes ≡ 2 }
    requires distinct { AreDistinct flows.now }
    requires sender { IsSenderOf shape 0 flows.now sender }
    requires plan { (plan.now.size ≡ shape) × (plan.now.owner ≡ 0) }
{
    let (first, to_first, one, two) = open_node(rt, alloc, plan, shape, 0, flows)?;
    let opened = match open_node(rt, alloc, plan, shape, 1, flows) {
        Ok(opened) => opened,
        Err(OutOfMemory) => {
            first.close(rt);
            return Err(OutOfMemory);
        }
    };
    let (second, to_second, one_there, two_there) = opened;
    let mut nodes = Nodes { first, second };
    let mut owner = Owner::new(sender, to_first, to_second);
    let one = open_lane(alloc, shape, 0, &mut nodes, one, one_there);
    let two = open_lane(alloc, shape, 1, &mut nodes, two, two_there);
    let said = match (one, two) {
        (Ok(one), Ok(two)) => work(rt, shape, flows, &mut owner, &mut nodes, one, two),
        _ => Err(OutOfMemory),
    };
    nodes.close(rt);
    said
}

/// The threads' work beside one another; then the barrier, and what the lanes say after it.
#[tactic(auto, using(crate::proofs::Same::staying))]
fn work<R: Threads + Wait + Sync>(
    rt: &R,
    shape: Shape,
    flows: &[Flow],
    owner: &mut Owner,
    nodes: &mut Nodes,
    one: Lane,
    two: Lane,
) -> Result<[Said; 2], OutOfMemory>
    requires stands { Stands shape flows.now owner.old }
    requires first { IsLinkedTo shape owner.old.first nodes.old.first }
    requires second { IsLinkedTo shape owner.old.second nodes.old.second }
    requires one { CanAnswer shape one × ReadBoth one nodes.old }
    requires two { CanAnswer shape two × ReadBoth two nodes.old }
{
    let (mut one, mut two) = (one, two);
    let phase = Phase {
        shape,
        flows,
        done: AtomicU64::new(0),
    };
    run_beside(rt, &phase, owner, nodes, &mut one, &mut two);
    // The barrier. All threads are taken in, so that both ends of each link are here.
    settle_all(rt, shape, &mut owner.first, &mut nodes.first);
    settle_all(rt, shape, &mut owner.second, &mut nodes.second);
    if owner.failed || nodes.first.refused || nodes.second.refused {
        return Err(OutOfMemory);
    }
    meet(rt, &mut one, nodes);
    meet(rt, &mut two, nodes);
    Ok([say(rt, shape, &mut one), say(rt, shape, &mut two)])
}

/// The owner in this thread, and in another the lanes and the applier. Where no thread can be made the owner is through
/// first: the applier waits for it, and it waits for no other worker.
fn run_beside<R: Threads + Wait + Sync>(
    rt: &R,
    phase: &Phase,
    owner: &mut Owner,
    nodes: &mut Nodes,
    one: &mut Lane,
    two: &mut Lane,
)
    requires stands { Stands phase.now.shape phase.now.flows.now owner.old }
    requires nodes { HaveShape phase.now.shape nodes.old }
    requires lanes { CanAnswer phase.now.shape one.old × CanAnswer phase.now.shape two.old }
    ensures owner { IsSameOwner owner.old owner.new }
    ensures nodes { AreSameNodes nodes.old nodes.new }
    ensures lanes { AreSameReaders one.old one.new × AreSameReaders two.old two.new }
{
    let mut there = ||
        requires { IsSync R.row × HaveShape phase.now.shape nodes.now
            × CanAnswer phase.now.shape one.now × CanAnswer phase.now.shape two.now }
        ensures { AreSameNodes nodes.entry.now nodes.exit.now
            × AreSameReaders one.entry.now one.exit.now × AreSameReaders two.entry.now two.exit.now }
    { run_lanes(rt, phase, nodes, one, two) };
    let mut here = ||
        requires { Stands phase.now.shape phase.now.flows.now owner.now }
        ensures { IsSameOwner owner.entry.now owner.exit.now }
    { own_all(rt, phase, owner) };
    join_mut(rt, &mut there, &mut here);
}

/// A lane in another thread, and in this one the rest.
fn run_lanes<R: Threads + Wait + Sync>(
    rt: &R,
    phase: &Phase,
    nodes: &mut Nodes,
    one: &mut Lane,
    two: &mut Lane,
)
    requires nodes { HaveShape phase.now.shape nodes.old }
    requires lanes { CanAnswer phase.now.shape one.old × CanAnswer phase.now.shape two.old }
    ensures nodes { AreSameNodes nodes.old nodes.new }
    ensures lanes { AreSameReaders one.old one.new × AreSameReaders two.old two.new }
{
    let mut there = ||
        requires { IsSync R.row × CanAnswer phase.now.shape one.now }
        ensures { AreSameReaders one.entry.now one.exit.now }
    { answer_many(rt, phase.shape, one) };
    let mut here = ||
        requires { IsSync R.row × HaveShape phase.now.shape nodes.now × CanAnswer phase.now.shape two.now }
        ensures { AreSameNodes nodes.entry.now nodes.exit.now × AreSameReaders two.entry.now two.exit.now }
    { run_last(rt, phase, nodes, two) };
    join_mut(rt, &mut there, &mut here);
}

/// The other lane in another thread, and in this one the applier.
fn run_last<R: Threads + Wait + Sync>(rt: &R, phase: &Phase, nodes: &mut Nodes, lane: &mut Lane)
    requires nodes { HaveShape phase.now.shape nodes.old }
    requires lane { CanAnswer phase.now.shape lane.old }
    ensures nodes { AreSameNodes nodes.old nodes.new }
    ensures lane { AreSameReaders lane.old lane.new }
{
    let mut there = ||
        requires { IsSync R.row × CanAnswer phase.now.shape lane.now }
        ensures { AreSameReaders lane.entry.now lane.exit.now }
    { answer_many(rt, phase.shape, lane) };
    let mut here = ||
        requires { IsSync R.row × HaveShape phase.now.shape nodes.now }
        ensures { AreSameNodes nodes.entry.now nodes.exit.now }
    { apply_all(rt, phase, nodes) };
    join_mut(rt, &mut there, &mut here);
}
