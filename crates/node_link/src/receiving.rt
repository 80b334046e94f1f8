//! How a message is taken.

ghost use Rattle.std.specs.Prelude.{◌≡◌, IfOk, IsOk, true};
ghost use Rattle.node_link.specs.declared.rule.Log.{Log};
ghost use Rattle.node_link.specs.Ends.{IsPort, TakesNext};
ghost use Rattle.node_link.specs.Moves.{Pops, PopsLetter};

use crate::ends::TakeEnd;
use crate::letter::{Letter, read};
use crate::rule::{Port, Queue, Takes};
use crate::taken::Taken;
use flow_types::Shape;
use out_of_memory::OutOfMemory;
use std::sync::Wait;

/// Takes the next message, and no other. The shape is the link's.
///
/// It answers `Empty` only where the queue was empty at a step of this call, which no clause says. It takes no memory.
#[inline(always)]
pub fn receive<R: Wait>(rt: &R, end: &mut TakeEnd, shape: Shape) -> Result<Taken, OutOfMemory>
    requires shape { end.old.size ≡ shape }
    ensures no_memory { IsOk result }
    ensures line { end.new.line ≡ end.old.line }
    ensures size { end.new.size ≡ end.old.size }
    ensures took { IfOk result (λ taken. TakesNext end.old taken end.new) }
{
    let Some(port) = &mut end.port else {
        unreachable!()
    };
    answer(shape, pop(rt, &end.line.queue, port))
}

/// One pop, by a pass that may take.
pub(crate) fn pop<R: Wait>(rt: &R, queue: &Queue, port: &mut Port) -> Option<Letter>
    requires port { IsPort queue.now port.old (record port.old.me.view.client { takes = true }) }
    ensures port { IsPort queue.now port.new (record port.old.me.view.client { taken = port.new.me.view.client.taken }) }
    ensures popped { PopsLetter port.old.me.view.client result port.new.me.view.client }
{
    queue.pop_as::<Takes, R>(rt, port)
}

/// The answer with the message of what was popped.
#[inline(always)]
pub(crate) fn answer(shape: Shape, letter: Option<Letter>) -> Result<Taken, OutOfMemory>
    requires { (before : Log) × (after : Log) × (before.shape ≡ shape) × PopsLetter before letter after }
    ensures no_memory { IsOk result }
    ensures popped { (before after : Log) → before.shape ≡ shape → PopsLetter before letter after → IfOk result (λ taken. Pops before taken after) }
{
    match letter {
        Some(letter) => read(shape, letter),
        None => Ok(Taken::Empty),
    }
}
