//! How a link is emptied by whoever has both ends.

ghost use Rattle.std.specs.Prelude.{◌≡◌, IfOk, IsOk, Ok};
ghost use mathlib.Core.List.{IsPrefix};
ghost use Rattle.node_link.specs.declared.taken.Taken.TheVariants.{Empty};
ghost use Rattle.node_link.specs.Ends.{IsPort, TakesNext};
ghost use Rattle.node_link.specs.Moves.{PopsLetter};
ghost use Rattle.node_link.specs.Rule.{full_log, sender_log, taker_log};

use crate::ends::{SendEnd, TakeEnd};
use crate::letter::Letter;
use crate::receiving::{answer, pop};
use crate::rule::{Parts, Port, Queue};
use crate::taken::Taken;
use flow_types::Shape;
use out_of_memory::OutOfMemory;
use std::sync::Wait;

/// Takes the next message, and no other, with both ends of the link in hand. The shape is the link's.
///
/// It answers `Empty` only where the queue was empty at a step of this call: then all that was sent was taken, in order. It
/// takes no memory.
pub fn settle<R: Wait>(
    rt: &R,
    sender: &mut SendEnd,
    taker: &mut TakeEnd,
    shape: Shape,
) -> Result<Taken, OutOfMemory>
    requires link { sender.old.line ≡ taker.old.line }
    requires sent_shape { sender.old.size ≡ shape }
    requires taken_shape { taker.old.size ≡ shape }
    ensures no_memory { IsOk result }
    ensures sent { sender.new ≡ sender.old }
    ensures line { taker.new.line ≡ taker.old.line }
    ensures size { taker.new.size ≡ taker.old.size }
    ensures took { IfOk result (λ taken. TakesNext taker.old taken taker.new) }
    ensures in_order { IsPrefix taker.new.messages sender.new.messages }
    ensures all { result ≡ Ok Empty → taker.new.messages ≡ sender.new.messages }
{
    let (Some(mine), Some(theirs)) = (taker.port.take(), sender.port.take()) else {
        unreachable!()
    };
    let (mine, theirs, letter) = settle_at(rt, &taker.line.queue, mine, theirs);
    taker.port = Some(mine);
    sender.port = Some(theirs);
    answer(shape, letter)
}

/// One pop with both ends' passes, which are one for the time of it.
fn settle_at<R: Wait>(
    rt: &R,
    queue: &Queue,
    taker: Port,
    sender: Port,
) -> (Port, Port, Option<Letter>)
    requires taker { IsPort queue.now taker (taker_log taker.me.view.client.shape taker.me.view.client.taken) }
    requires sender { IsPort queue.now sender (sender_log taker.me.view.client.shape sender.me.view.client.sent) }
    ensures taker { IsPort queue.now result.0 (taker_log taker.me.view.client.shape result.0.me.view.client.taken) }
    ensures sender { IsPort queue.now result.1 (sender_log taker.me.view.client.shape sender.me.view.client.sent) }
    ensures popped { PopsLetter (full_log taker.me.view.client.shape sender.me.view.client.sent taker.me.view.client.taken) result.2 (full_log taker.me.view.client.shape sender.me.view.client.sent result.0.me.view.client.taken) }
{
    let mut taker = taker;
    queue.absorb::<Parts>(&mut taker, sender);
    let letter = pop(rt, queue, &mut taker);
    let sender = queue.another::<Parts>(&mut taker);
    (taker, sender, letter)
}
