//! Messages among the octets: one is put behind the others, and read where it begins.

ghost use Rattle.std.specs.Prelude.{◌≡◌, ◌+◌, ◌≤◌, ℕ, length, vec_capacity, vec_len};
ghost use mathlib.Core.List.{IsPrefix};
ghost use Rattle.delta_codec.specs.declared.message.FibMessage.{FibMessage};
ghost use Rattle.delta_codec.specs.declared.message.Message.{Message};
ghost use Rattle.delta_codec.specs.declared.message.Message.TheVariants.{Fib, Table};
ghost use Rattle.delta_codec.specs.declared.message.TableMessage.{TableMessage};
ghost use Rattle.delta_codec.specs.Fits.{Fits};
ghost use Rattle.delta_codec.specs.Short.{message_of};
ghost use Rattle.delta_codec.specs.Spelling.{spelling};
ghost use Rattle.delta_codec.specs.Values.{IsMessage};
ghost use Rattle.turn_log.specs.Sent.{IsSpelledAt};

use delta_codec::{FibMessage, Message, ShortMessage, TableMessage, decode, decode_short, encode};
use flow_types::Shape;

/// Puts a message behind the octets, which have room for it, and tells where it begins. It takes no memory.
pub(crate) fn put_message(octets: &mut Vec<u8>, shape: Shape, message: &Message) -> usize
    requires fits { Fits shape message.now }
    requires sized { IsMessage message.now }
    requires room { vec_len octets.old + length (spelling message.now) ≤ vec_capacity octets.old }
    ensures spelled { IsSpelledAt shape octets.new.items result message.now }
    ensures appended { IsPrefix octets.old.items octets.new.items }
    ensures len { vec_len octets.new ≡ vec_len octets.old + length (spelling message.now) }
    ensures capacity { vec_capacity octets.old ≤ vec_capacity octets.new }
{
    let at = octets.len();
    let _ = octets.extend_from_slice(encode(shape, message).as_slice());
    at
}

/// The message that begins at a place. It takes no memory.
fn message_at(shape: Shape, octets: &[u8], at: usize) -> Message
    requires { (message : Message) × IsSpelledAt shape octets.now at message }
    ensures { (message : Message) → IsSpelledAt shape octets.now at message → result ≡ message }
{
    match decode(shape, &octets[at..]) {
        Ok((message, _)) => message,
        Err(_) => unreachable!(),
    }
}

/// The table message that begins at a place. It takes no memory.
pub(crate) fn table_at(shape: Shape, octets: &[u8], at: usize) -> TableMessage
    requires { (message : TableMessage) × IsSpelledAt shape octets.now at (Table message) }
    ensures { (message : TableMessage) → IsSpelledAt shape octets.now at (Table message) → result ≡ message }
{
    match message_at(shape, octets, at) {
        Message::Table(message) => message,
        Message::Fib(_) => unreachable!(),
    }
}

/// The FIB message that begins at a place. It takes no memory.
pub(crate) fn fib_at(shape: Shape, octets: &[u8], at: usize) -> FibMessage
    requires { (message : FibMessage) × IsSpelledAt shape octets.now at (Fib message) }
    ensures { (message : FibMessage) → IsSpelledAt shape octets.now at (Fib message) → result ≡ message }
{
    // A `Message` has room for 64 rows, which none of a FIB's has.
    let Ok(read) = decode_short(shape, &octets[at..]) else {
        unreachable!()
    };
    let Some((short, _)) = read else {
        unreachable!()
    };
    fib_of(short)
}

/// The FIB message that a message without rows is.
fn fib_of(short: ShortMessage) -> FibMessage
    requires { (message : FibMessage) × (message_of short ≡ Fib message) }
    ensures { (message : FibMessage) → message_of short ≡ Fib message → result ≡ message }
{
    match short {
        ShortMessage::Fib(message) => message,
        ShortMessage::Table(_) => unreachable!(),
    }
}
