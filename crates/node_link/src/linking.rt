//! How a link is made.

ghost use Rattle.std.specs.Prelude.{◌≡◌, [], IfOk};
ghost use Rattle.node_link.specs.Ends.{IsPort};
ghost use Rattle.node_link.specs.Rule.{full_log, new_log, size_of};

use crate::ends::{SendEnd, TakeEnd};
use crate::rule::{Line, OneMoreBlock, OneMoreNode, Parts, Port, Queue};
use flow_types::Shape;
use out_of_memory::OutOfMemory;
use std::alloc::Global;
use std::sync::Arc;

/// The two ends of a new link for messages of this shape: nothing was sent yet, and nothing taken.
pub fn link(alloc: Global, shape: Shape) -> Result<(SendEnd, TakeEnd), OutOfMemory>
    ensures one_link { IfOk result (λ ends. ends.0.line ≡ ends.1.line) }
    ensures sends { IfOk result (λ ends. (ends.0.size ≡ shape) × (ends.0.messages ≡ [])) }
    ensures takes { IfOk result (λ ends. (ends.1.size ≡ shape) × (ends.1.messages ≡ [])) }
{
    let (queue, mut taker) = Queue::with_rule(alloc)?;
    tell_nodes(&queue, &mut taker, shape.nodes());
    tell_blocks(&queue, &mut taker, shape.nodes(), shape.blocks());
    let sender = queue.another::<Parts>(&mut taker);
    let line = Arc::new(alloc, Line { queue })?;
    let other = Arc::try_clone(&line)?;
    let sends = SendEnd {
        line: other,
        alloc,
        port: Some(sender),
    };
    let takes = TakeEnd {
        line,
        port: Some(taker),
    };
    Ok((sends, takes))
}

/// Tells the queue's rule how many nodes the shape has.
fn tell_nodes(queue: &Queue, port: &mut Port, nodes: u16)
    requires { IsPort queue.now port.old new_log }
    ensures { IsPort queue.now port.new (full_log (size_of nodes 0) [] []) }
{
    'told: for _ in 0..nodes {
        let _ = queue.another::<OneMoreNode>(port);
    }
}

/// Tells the queue's rule how many blocks the shape has.
fn tell_blocks(queue: &Queue, port: &mut Port, nodes: u16, blocks: u16)
    requires { IsPort queue.now port.old (full_log (size_of nodes 0) [] []) }
    ensures { IsPort queue.now port.new (full_log (size_of nodes blocks) [] []) }
{
    'told: for _ in 0..blocks {
        let _ = queue.another::<OneMoreBlock>(port);
    }
}
