//! The body of a FIB message: what becomes of a key.

ghost use Rattle.std.specs.Prelude.{◌≡◌, ◌+◌, ◌≤◌, IfOk, length};
ghost use Rattle.std.specs.Result.{result_err};
ghost use Rattle.delta_codec.specs.Values.{IsOperation};
ghost use Rattle.delta_codec.specs.Spelling.{Stand, operation_octets};
ghost use Rattle.delta_codec.specs.Fields.{first_fault, operation_fields};

use crate::message::FibOp;
use crate::reading::{take_four, take_key, take_octet};
use crate::refused::{BadField, DecodeRefused};
use flow_types::Record;

/// The change that stands at a place, and the place after it.
pub(crate) fn read_operation(bytes: &[u8], at: usize) -> Result<(FibOp, usize), DecodeRefused>
    requires { at ≤ length bytes.now }
    ensures stands { IfOk result (λ read. Stand bytes.now at (operation_octets read.0)) }
    ensures end { IfOk result (λ read. read.1 ≡ at + length (operation_octets read.0)) }
    ensures sized { IfOk result (λ read. IsOperation read.0) }
    ensures fault { result_err result ≡ first_fault bytes.now (operation_fields bytes.now at) }
{
    match take_octet(bytes, at)? {
        0 => Ok((FibOp::Nothing, at + 1)),
        1 => {
            let key = take_key(bytes, at + 1)?;
            let teid = take_four(bytes, at + 14)?;
            let base = take_four(bytes, at + 18)?;
            Ok((FibOp::Put(key, Record { teid, base }), at + 22))
        }
        2 => {
            let key = take_key(bytes, at + 1)?;
            Ok((FibOp::Drop(key), at + 14))
        }
        _ => Err(DecodeRefused::Bad {
            at,
            why: BadField::Body,
        }),
    }
}
