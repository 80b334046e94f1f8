//! The octets in which a message stands in the queue.

ghost use Rattle.std.specs.Prelude.{◌≡◌, IfOk, Ok};
ghost use Rattle.delta_codec.specs.declared.message.Message.{Message};
ghost use Rattle.delta_codec.specs.Fits.{Fits};
ghost use Rattle.delta_codec.specs.Short.{message_of};
ghost use Rattle.node_link.specs.declared.taken.Taken.TheVariants.{Item};
ghost use Rattle.node_link.specs.Letter.{IsLetter};

use crate::taken::Taken;
use delta_codec::{
    Message, ShortMessage, TableMessage, decode, decode_short, encode, encode_short,
};
use flow_types::Shape;
use group_search::GroupRecord;
use out_of_memory::OutOfMemory;
use smallvec::SmallVec;
use std::alloc::Global;

/// A message's octets. All messages but those with rows have 29 at most, which need no allocation.
pub(crate) type Letter = SmallVec<u8, 32>;

/// The octets of a message that fits the shape.
pub(crate) fn write(alloc: Global, shape: Shape, message: &Message) -> Result<Letter, OutOfMemory>
    requires { Fits shape message.now }
    ensures { IfOk result (λ letter. IsLetter shape letter message.now) }
{
    match encode_short(shape, message) {
        Some(octets) => Ok(SmallVec::from_slice(alloc, octets.as_slice())?),
        None => write_long(alloc, shape, message),
    }
}

// What a call gives is cleared where the function with the call begins. So the calls that give the longest octets, or a
// message with room for 64 rows, have functions of their own.

/// The octets of a message with rows.
#[inline(never)]
fn write_long(alloc: Global, shape: Shape, message: &Message) -> Result<Letter, OutOfMemory>
    requires { Fits shape message.now }
    ensures { IfOk result (λ letter. IsLetter shape letter message.now) }
{
    let octets = encode(shape, message);
    Ok(SmallVec::from_slice(alloc, octets.as_slice())?)
}

/// The answer with the message that the octets spell. It takes no memory.
// Inlined down to the caller, an answer is laid down only as far as the caller looks at it.
#[inline(always)]
pub(crate) fn read(shape: Shape, letter: Letter) -> Result<Taken, OutOfMemory>
    requires { (message : Message) × IsLetter shape letter message }
    ensures { (message : Message) → IsLetter shape letter message → result ≡ Ok (Item message) }
{
    if let Ok(Some((short, _))) = decode_short(shape, letter.as_slice()) {
        drop(letter);
        return short_item(short);
    }
    read_long(shape, letter)
}

/// The same, also for a message with rows.
#[inline(always)]
fn read_long(shape: Shape, letter: Letter) -> Result<Taken, OutOfMemory>
    requires { (message : Message) × IsLetter shape letter message }
    ensures { (message : Message) → IsLetter shape letter message → result ≡ Ok (Item message) }
{
    match decode(shape, letter.as_slice()) {
        Ok((message, _)) => Ok(Taken::Item(message)),
        Err(_) => unreachable!(),
    }
}

/// The answer with a message without rows.
#[inline(always)]
fn short_item(message: ShortMessage) -> Result<Taken, OutOfMemory>
    ensures { result ≡ Ok (Item (message_of message)) }
{
    match message {
        ShortMessage::Fib(fib) => return Ok(Taken::Item(Message::Fib(fib))),
        ShortMessage::Table(table) => {
            return Ok(Taken::Item(Message::Table(TableMessage {
                owner: table.owner,
                turn: table.turn,
                block: table.block,
                group: table.group,
                content: GroupRecord::Served(table.served),
            })));
        }
    }
}
