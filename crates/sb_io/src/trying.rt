//! Calls of the system that a signal may interrupt. Such a call is made again.

ghost use Rattle.std.specs.Prelude.{◌≢◌, ◌≤◌, IfErr, IfOk, length};
ghost use Rattle.std.specs.IoError.{error_kind};
ghost use Rattle.std.specs.declared.io.ErrorKind.TheVariants.{Interrupted};

use std::io;
use std::io::{ErrorKind, Read};

/// One read into a slice.
pub(crate) fn read_uninterrupted<R: Read>(reader: &mut R, into: &mut [u8]) -> io::Result<usize>
    ensures fits { IfOk result (λ n. n ≤ length into.new) }
    ensures again { IfErr result (λ error. error_kind error ≢ Interrupted) }
{
    'reads: for _ in 0..u64::MAX {
        match reader.read(into) {
            Err(error) if error.kind() == ErrorKind::Interrupted => {}
            read => return read,
        }
    }
    Err(io::Error::from(ErrorKind::TimedOut))
}

/// One write of a piece to standard output.
pub(crate) fn write_uninterrupted<P: Print>(to: &P, piece: &[u8]) -> io::Result<usize>
    ensures fits { IfOk result (λ n. n ≤ length piece.now) }
    ensures again { IfErr result (λ error. error_kind error ≢ Interrupted) }
{
    'writes: for _ in 0..u64::MAX {
        match to.write_some(piece) {
            Err(error) if error.kind() == ErrorKind::Interrupted => {}
            written => return written,
        }
    }
    Err(io::Error::from(ErrorKind::TimedOut))
}
