ghost use Rattle.std.specs.Prelude.{◌≡◌, ◌↔◌, ℕ, IfOk, IfSome, IsErrOf, Ok, None};
ghost use Rattle.std.specs.Result.{result_err};
ghost use Rattle.delta_codec.specs.declared.message.Message.{Message};
ghost use Rattle.delta_codec.specs.declared.refused.BadField.{BadField};
ghost use Rattle.delta_codec.specs.declared.refused.DecodeRefused.TheVariants.{Bad, Short};
ghost use Rattle.delta_codec.specs.Values.{IsMessage};
ghost use Rattle.delta_codec.specs.Spelling.{BeginsWith};
ghost use Rattle.delta_codec.specs.Short.{HasRows, message_of, start_fields};
ghost use Rattle.delta_codec.specs.Fields.{fields, first_fault};
ghost use Rattle.delta_codec.specs.Refusals.{IsCutShort, IsFirstBroken};

use crate::content::read_rows;
use crate::message::{Message, ShortMessage, TableMessage};
use crate::refused::DecodeRefused;
use crate::starting::{ROWS, Start, read_start};
use flow_types::Shape;
use group_search::GroupRecord;

/// The message that begins the octets, and how many octets it has.
///
/// Fields are read in order. `Bad` comes exactly where a field that is wholly there breaks its rule, and tells of the
/// first one; `Short` exactly where none does and the octets end before the message.
pub fn decode(shape: Shape, bytes: &[u8]) -> Result<(Message, usize), DecodeRefused>
    ensures spelled { IfOk result (λ read. BeginsWith shape bytes.now read.0 read.1) }
    // No other message begins the octets.
    ensures only { (message : Message) (used : ℕ) → IsMessage message → BeginsWith shape bytes.now message used → result ≡ Ok (message, used) }
    ensures bad { (at : ℕ) (why : BadField) → IsErrOf result (Bad at why) ↔ IsFirstBroken bytes.now (fields shape bytes.now) at why }
    ensures short { IsErrOf result Short ↔ IsCutShort bytes.now (fields shape bytes.now) }
{
    read_message(shape, bytes)
}

/// The message without rows that begins the octets, and how many octets it has. `None` where the message has rows: they
/// aren't read, and `decode` gives it.
///
/// A `Message` has room for 64 rows. Who has to keep or send on what it gets spares a copy of that room by this call.
pub fn decode_short(
    shape: Shape,
    bytes: &[u8],
) -> Result<Option<(ShortMessage, usize)>, DecodeRefused>
    ensures spelled { IfOk result (λ read. IfSome read (λ short. BeginsWith shape bytes.now (message_of short.0) short.1)) }
    // No other message begins the octets.
    ensures only { (message : Message) (used : ℕ) → IsMessage message → BeginsWith shape bytes.now message used
        → IfOk result (λ read. IfSome read (λ short. (message_of short.0 ≡ message) × (short.1 ≡ used))) }
    ensures rows { IfOk result (λ read. read ≡ None → HasRows bytes.now) }
    // The fault of a row is not told.
    ensures fault { result_err result ≡ first_fault bytes.now (start_fields shape bytes.now) }
{
    match read_start(shape, bytes)? {
        Start::Short(message, used) => Ok(Some((message, used))),
        Start::Rows(_, _) => Ok(None),
    }
}

fn read_message(shape: Shape, bytes: &[u8]) -> Result<(Message, usize), DecodeRefused>
    ensures spelled { IfOk result (λ read. BeginsWith shape bytes.now read.0 read.1) }
    ensures sized { IfOk result (λ read. IsMessage read.0) }
    ensures fault { result_err result ≡ first_fault bytes.now (fields shape bytes.now) }
{
    match read_start(shape, bytes)? {
        Start::Short(ShortMessage::Table(table), used) => {
            let message = TableMessage {
                owner: table.owner,
                turn: table.turn,
                block: table.block,
                group: table.group,
                content: GroupRecord::Served(table.served),
            };
            Ok((Message::Table(message), used))
        }
        Start::Short(ShortMessage::Fib(fib), used) => Ok((Message::Fib(fib), used)),
        Start::Rows(head, count) => {
            let (rows, used) = read_rows(shape, count, bytes, ROWS)?;
            let message = TableMessage {
                owner: head.owner,
                turn: u32::from(head.turn),
                block: head.block,
                group: head.group,
                content: GroupRecord::Fallback(rows),
            };
            Ok((Message::Table(message), used))
        }
    }
}
