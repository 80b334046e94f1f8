//! What octets begin with, up to the rows of a message that has rows.

ghost use Rattle.std.specs.Prelude.{◌≡◌, ◌≤◌, IfOk, length};
ghost use Rattle.std.specs.Result.{result_err};
ghost use Rattle.delta_codec.specs.declared.heading.Kind.TheVariants as kinds;
ghost use Rattle.delta_codec.specs.Fields.{first_fault};
ghost use Rattle.delta_codec.specs.Fits.{HeadFits};
ghost use Rattle.delta_codec.specs.Short.{IsStart, content_start_fields, start_fields};
ghost use Rattle.delta_codec.specs.Spelling.{Stand, head};

use crate::content::{read_count, read_pairs};
use crate::heading::{BODY, Head, Kind, read_head};
use crate::message::{FibMessage, ServedMessage, ShortMessage};
use crate::operation::read_operation;
use crate::reading::take_octet;
use crate::refused::{BadField, DecodeRefused};
use flow_types::Shape;

/// Where the rows of a message stand that has rows.
pub(crate) const ROWS: usize = BODY + 2;

/// What octets begin with.
#[derive(Clone, Copy)]
pub(crate) enum Start {
    /// A message without rows, and the place after it.
    Short(ShortMessage, usize),
    /// The head of a message with rows, and their number.
    Rows(Head, u8),
}

/// The message that begins the octets, or what comes before its rows.
pub(crate) fn read_start(shape: Shape, bytes: &[u8]) -> Result<Start, DecodeRefused>
    ensures starts { IfOk result (IsStart shape bytes.now) }
    ensures fault { result_err result ≡ first_fault bytes.now (start_fields shape bytes.now) }
{
    let head = read_head(shape, bytes)?;
    match head.kind {
        Kind::Table => read_content_start(shape, head, bytes),
        Kind::Fib => {
            let (op, used) = read_operation(bytes, BODY)?;
            let message = FibMessage {
                owner: head.owner,
                turn: u32::from(head.turn),
                block: head.block,
                group: head.group,
                op,
            };
            Ok(Start::Short(ShortMessage::Fib(message), used))
        }
    }
}

/// The same after the head of a table message.
fn read_content_start(shape: Shape, at_head: Head, bytes: &[u8]) -> Result<Start, DecodeRefused>
    requires fits { HeadFits shape at_head.owner at_head.turn at_head.block at_head.group }
    requires stands { Stand bytes.now 0 (head 0x11 at_head.owner at_head.turn at_head.block at_head.group) }
    ensures starts { IfOk result (IsStart shape bytes.now) }
    ensures fault { result_err result ≡ first_fault bytes.now (content_start_fields shape bytes.now 7) }
{
    match take_octet(bytes, BODY)? {
        0 => {
            let (served, used) = read_pairs(shape, bytes, BODY + 1)?;
            let message = ServedMessage {
                owner: at_head.owner,
                turn: u32::from(at_head.turn),
                block: at_head.block,
                group: at_head.group,
                served,
            };
            Ok(Start::Short(ShortMessage::Table(message), used))
        }
        1 => {
            let count = read_count(bytes, BODY + 1)?;
            Ok(Start::Rows(at_head, count))
        }
        _ => Err(DecodeRefused::Bad {
            at: BODY,
            why: BadField::Body,
        }),
    }
}
