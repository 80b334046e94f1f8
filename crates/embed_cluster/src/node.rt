//! The applier's thread, and what is done with the links at a barrier.
ghost use Rattle.std.specs.Prelude.{◌≡◌};
ghost use Rattle.delta_codec.specs.Fits.{Fits};
ghost use Rattle.embed_cluster.specs.Parts.{AreSameNodes, HasShape, HaveShape, IsSameNode};

use crate::cluster::Phase;
use delta_codec::Message;
use flow_types::Shape;
use node_link::{SendEnd, TakeEnd, Taken, receive, settle};
use packet_path::TableSeat;
use partial_fib::FibWriter;
use std::sync::Wait;
use std::sync::atomic::Ordering;
use std::thread;

/// What a node has of the owner: its end of the link, its table of the owner's blocks, and its FIB.
///
/// It can't be dropped, since a FIB's writer can't: `close` ends it.
pub(crate) struct Node {
    pub(crate) takes: TakeEnd,
    pub(crate) table: TableSeat,
    pub(crate) fib: FibWriter,
    /// Whether a message was refused, as one is where memory is wanting.
    pub(crate) refused: bool,
}

impl Node {
    /// Ends the node. No reader is asked any more.
    pub(crate) fn close<R: Wait>(self, rt: &R) {
        let Node {
            takes: _takes,
            table: _table,
            fib,
            refused: _,
        } = self;
        fib.close(rt);
    }
}

/// The two nodes.
pub(crate) struct Nodes {
    pub(crate) first: Node,
    pub(crate) second: Node,
}

impl Nodes {
    /// Ends both.
    pub(crate) fn close<R: Wait>(self, rt: &R) {
        let Nodes { first, second } = self;
        first.close(rt);
        second.close(rt);
    }
}

/// The applier's work: it applies what arrives at the nodes, until the owner is done and both links are empty.
#[tactic(auto, using(crate::proofs::Same::staying))]
pub(crate) fn apply_all<R: Wait>(rt: &R, phase: &Phase, nodes: &mut Nodes)
    requires shape { HaveShape phase.now.shape nodes.old }
    ensures same { AreSameNodes nodes.old nodes.new }
{
    'looks: for _ in rt.forever() {
        // It is read before the links are looked at, so that what was sent before it was set is found by this look.
        let done = phase.done.load(Ordering::SeqCst) > 0;
        let here = take(rt, phase.shape, &mut nodes.first);
        let there = take(rt, phase.shape, &mut nodes.second);
        if here || there {
            continue;
        }
        if done {
            return;
        }
        thread::yield_now();
    }
    unreachable!()
}

/// Takes the next message that the owner sent to the node, and applies it: whether there was one.
fn take<R: Wait>(rt: &R, shape: Shape, node: &mut Node) -> bool
    requires shape { HasShape shape node.old }
    ensures same { IsSameNode node.old node.new }
{
    match receive(rt, &mut node.takes, shape) {
        Ok(Taken::Item(message)) => {
            apply(rt, shape, node, message);
            true
        }
        Ok(Taken::Empty) => false,
        Err(_) => unreachable!(),
    }
}

/// Applies a message. Once one was refused, later ones are let go.
fn apply<R: Wait>(rt: &R, shape: Shape, node: &mut Node, message: Message)
    requires shape { HasShape shape node.old }
    requires fits { Fits shape message }
    ensures same { IsSameNode node.old node.new }
{
    // Only the contract speaks of the shape.
    let _ = shape;
    if node.refused {
        return;
    }
    node.refused = match message {
        Message::Table(message) => node.table.apply(&message).is_err(),
        Message::Fib(message) => node.fib.apply(rt, &message).is_err(),
    };
}

/// Applies all that is left in the owner's link to the node, with both ends in hand.
#[tactic(auto, using(crate::proofs::Same::staying))]
pub(crate) fn settle_all<R: Wait>(rt: &R, shape: Shape, end: &mut SendEnd, node: &mut Node)
    requires link { end.old.line ≡ node.old.takes.line }
    requires size { end.old.size ≡ shape }
    requires shape { HasShape shape node.old }
    ensures end { end.new ≡ end.old }
    ensures same { IsSameNode node.old node.new }
{
    'left: for _ in rt.forever() {
        match settle(rt, end, &mut node.takes, shape) {
            Ok(Taken::Item(message)) => apply(rt, shape, node, message),
            Ok(Taken::Empty) => return,
            Err(_) => unreachable!(),
        }
    }
    unreachable!()
}
