//! How an owner sends the messages of a turn.
ghost use Rattle.std.specs.Prelude.{◌≡◌, ◌+◌, ◌<◌, ◌≤◌, length, OnOk};
ghost use Rattle.turn_relay.specs.Each.{Each, Every};
ghost use Rattle.turn_relay.specs.OwnerState.{IsSameLink};
ghost use Rattle.turn_relay.specs.Sent.{TellsEach, TellsTurn};
ghost use Rattle.turn_log.specs.Sender.{changes_in};

use delta_codec::Message;
use flow_types::Shape;
use flow_types::laws::numbers_of_a_shape;
use node_link::{SendEnd, send};
use out_of_memory::OutOfMemory;
use std::sync::Wait;
use turn_log::Sender;

/// Sends a node both messages of a turn, the one for its table first.
fn tell_node<R: Wait>(
    rt: &R,
    shape: Shape,
    sender: &Sender,
    turn: u32,
    node: u8,
    end: &mut SendEnd,
) -> Result<(), OutOfMemory>
    requires sized { (sender.now.rib.size ≡ shape) × (end.old.size ≡ shape) }
    requires first { 1 ≤ turn }
    requires last { turn ≤ length (changes_in sender.now) }
    requires node { node < shape.nodes }
    ensures link { IsSameLink end.old end.new }
    ensures told { OnOk result (TellsTurn sender.now turn node end.old end.new) }
{
    let table = Message::Table(sender.table_message(turn));
    send(rt, end, shape, &table)?;
    let fib = Message::Fib(sender.fib_message(turn, node));
    send(rt, end, shape, &fib)
}

/// Sends each node both messages of a turn, from this node on.
#[tactic(auto, using(crate::proofs::Runs::links_self))]
pub(crate) fn tell_each<R: Wait>(
    rt: &R,
    shape: Shape,
    sender: &Sender,
    turn: u32,
    node: u8,
    ends: &mut [SendEnd],
) -> Result<(), OutOfMemory>
    requires sized { (sender.now.rib.size ≡ shape) × Every (λ end. end.size ≡ shape) ends.old }
    requires first { 1 ≤ turn }
    requires last { turn ≤ length (changes_in sender.now) }
    requires nodes { node + length ends.old ≤ shape.nodes }
    ensures links { Each IsSameLink ends.old ends.new }
    ensures told { OnOk result (TellsEach sender.now turn node ends.old ends.new) }
{
    numbers_of_a_shape(shape);
    let Some((first, rest)) = ends.split_first_mut() else {
        return Ok(());
    };
    tell_node(rt, shape, sender, turn, node, first)?;
    tell_each(rt, shape, sender, turn, node + 1, rest)
}
