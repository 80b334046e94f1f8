//! How a message is sent.

ghost use Rattle.std.specs.Prelude.{◌≡◌, ◌++◌, ◌∷◌, [], OnErr, OnOk};
ghost use Rattle.delta_codec.specs.declared.message.Message.{Message};
ghost use Rattle.delta_codec.specs.Fits.{Fits};
ghost use Rattle.node_link.specs.Ends.{IsPort};
ghost use Rattle.node_link.specs.Letter.{IsLetter};
ghost use Rattle.node_link.specs.Moves.{HasSent};
ghost use Rattle.node_link.specs.Rule.{sender_log};

use crate::ends::SendEnd;
use crate::letter::{Letter, write};
use crate::rule::{Port, Queue, Sends};
use delta_codec::Message;
use delta_codec::laws::spellings_have_one_message;
use flow_types::Shape;
use out_of_memory::OutOfMemory;
use std::sync::Wait;

/// Sends a message that fits the link's shape, which is the one given.
///
/// It takes memory for the queue, and for the octets of a message with rows. After `OutOfMemory` the end is as before.
pub fn send<R: Wait>(
    rt: &R,
    end: &mut SendEnd,
    shape: Shape,
    message: &Message,
) -> Result<(), OutOfMemory>
    requires shape { end.old.size ≡ shape }
    requires fits { Fits shape message.now }
    ensures line { end.new.line ≡ end.old.line }
    ensures size { end.new.size ≡ end.old.size }
    ensures sent { OnOk result (end.new.messages ≡ end.old.messages ++ message.now ∷ []) }
    ensures refused { OnErr result (end.new ≡ end.old) }
{
    let letter = write(end.alloc, shape, message)?;
    let Some(port) = &mut end.port else {
        unreachable!()
    };
    spellings_have_one_message(shape);
    push(rt, &end.line.queue, port, letter)
}

fn push<R: Wait>(rt: &R, queue: &Queue, port: &mut Port, letter: Letter) -> Result<(), OutOfMemory>
    requires port { IsPort queue.now port.old (sender_log port.old.me.view.client.shape port.old.me.view.client.sent) }
    requires letter { (message : Message) × IsLetter port.old.me.view.client.shape letter message }
    ensures port { IsPort queue.now port.new (sender_log port.old.me.view.client.shape port.new.me.view.client.sent) }
    ensures sent { OnOk result (HasSent port.old.me.view.client letter port.new.me.view.client) }
    ensures refused { OnErr result (port.new.me.view.client ≡ port.old.me.view.client) }
{
    match queue.push_as::<Sends, R>(rt, port, letter) {
        Ok(()) => Ok(()),
        Err(_) => Err(OutOfMemory),
    }
}
