ghost use Rattle.std.specs.Prelude.{ℕ, ◌≡◌, ◌+◌, ◌-◌, ◌^◌, ◌<◌, ◌≤◌, ◌↔◌, ◌⊎◌, IfOk, OnOk, IfErr, OnErr, IfSome, IsErrOf, length, take, drop, vec_len};
ghost use Rattle.std.specs.Io.{StartsWith, appended_bytes};
ghost use Rattle.std.specs.Io.KnownBytes.{Consumes, IsAtEnd, Keeps};
ghost use Rattle.sb_io.specs.Faults.{Rose};
ghost use Rattle.sb_io.specs.Streams.{ReadsAll, ReadsCount};
ghost use Rattle.sb_io.specs.Refusal.{NamesLimit};

use crate::{Failed, Source};
use std::alloc::Global;
use std::error::Error;
use std::fmt;

/// How many octets a turn asks for at most.
const TURN: usize = 64 * 1024;

/// Why a source wasn't read to its end. The octets read are gone from it.
#[derive(Clone, Copy, Debug, PartialEq, Eq, Hash)]
pub enum ReadRefusal {
    /// A read failed.
    ReadFault,
    /// The source had more octets than the limit; one more than the limit was read.
    TooLarge {
        /// The limit, in octets.
        limit: u64,
    },
    /// Memory that was asked for was not there.
    OutOfMemory,
}

impl fmt::Display for ReadRefusal {
    ghost use Rattle.std.specs.Prelude.{Some};
    ghost use Rattle.sb_io.specs.Refusal.{refusal_text};

    ghost output = { λ refusal. Some (refusal_text refusal) };

    fn fmt<W: fmt::Write>(&self, f: &mut fmt::Formatter<W>) -> fmt::Result {
        match self {
            ReadRefusal::ReadFault => f.write_str("read fault"),
            ReadRefusal::TooLarge { limit } => write!(f, "more than {limit} octets"),
            ReadRefusal::OutOfMemory => f.write_str("out of memory"),
        }
    }
}

impl Error for ReadRefusal {}

/// Reads all that a source has left, at most `limit` octets.
///
/// Each turn reads at least one octet, so it returns. After a refusal the octets read are gone from the source.
pub fn read_all<S: Source>(
    alloc: Global,
    source: &mut S,
    limit: u64,
) -> Result<Vec<u8>, ReadRefusal>
    requires { limit < 2 ^ 64 - 1 }

    ensures all { IfOk result (λ bytes. ReadsAll (S.left source.old) (S.left source.new) bytes.items) }
    ensures within { IfOk result (λ bytes. vec_len bytes ≤ limit) }

    ensures read_fault { IsErrOf result ReadRefusal.ReadFault → Rose (S.faults source.old) (S.faults source.new) }

    // Where the source tells its octets, it is too large exactly where one more than the limit were read.
    ensures too_large { IfSome (S.left source.old) (λ left.
        IsErrOf result (ReadRefusal.TooLarge limit) ↔ ReadsCount left (S.left source.new) (limit + 1)) }
    ensures names_limit { IfErr result (NamesLimit limit) }

    // Whatever it answers, it read from the start, and no more than that.
    ensures gone { IfSome (S.left source.old) (λ left.
        (n : ℕ) × (n ≤ limit + 1) × ReadsCount left (S.left source.new) n) }
    ensures never_falls { S.faults source.old ≤ S.faults source.new }
{
    let mut bytes = Vec::new(alloc);
    'turns: while bytes.len() as u64 <= limit {
        let most = TURN.min((limit - bytes.len() as u64) as usize + 1);
        if read_turn(source, &mut bytes, most)? == 0 {
            return Ok(bytes);
        }
    }
    Err(ReadRefusal::TooLarge { limit })
}

/// One read of at most `most` octets, which are appended.
fn read_turn<S: Source>(
    source: &mut S,
    bytes: &mut Vec<u8>,
    most: usize,
) -> Result<usize, ReadRefusal>
    requires some { 0 < most }
    requires fits { vec_len bytes.old + most < 2 ^ 64 }

    ensures count { IfOk result (λ n. (n ≤ most) × (vec_len bytes.new ≡ vec_len bytes.old + n)) }
    ensures before { OnOk result (StartsWith bytes.new.items bytes.old.items) }
    ensures given { OnOk result (Consumes (S.left source.old) (S.left source.new) (appended_bytes bytes.old.items bytes.new.items)) }
    ensures end { IfOk result (λ n. n ≡ 0 → IsAtEnd (S.left source.new)) }

    ensures cause { OnErr result (IsErrOf result ReadRefusal.OutOfMemory ⊎ IsErrOf result ReadRefusal.ReadFault) }
    ensures failed { IsErrOf result ReadRefusal.ReadFault → Rose (S.faults source.old) (S.faults source.new) }
    ensures kept { OnErr result (Keeps (S.left source.old) (S.left source.new)) }
    ensures never_falls { S.faults source.old ≤ S.faults source.new }
{
    let start = bytes.len();
    if bytes.resize(start + most, 0).is_err() {
        return Err(ReadRefusal::OutOfMemory);
    }
    match read_at(source, bytes.as_mut_slice(), start) {
        Ok(count) => {
            bytes.truncate(start + count);
            Ok(count)
        }
        Err(Failed) => Err(ReadRefusal::ReadFault),
    }
}

fn read_at<S: Source>(source: &mut S, into: &mut [u8], start: usize) -> Result<usize, Failed>
    requires { start ≤ length into.old }
    ensures before { take start into.new ≡ take start into.old }
    ensures fits { IfOk result (λ n. start + n ≤ length into.new) }
    ensures given { IfOk result (λ n. Consumes (S.left source.old) (S.left source.new) (take n (drop start into.new))) }
    ensures end { IfOk result (λ n. n ≡ 0 → start < length into.new → IsAtEnd (S.left source.new)) }
    ensures failed { OnErr result (Rose (S.faults source.old) (S.faults source.new)) }
    ensures kept { OnErr result (Keeps (S.left source.old) (S.left source.new)) }
    ensures never_falls { S.faults source.old ≤ S.faults source.new }
{
    source.read(&mut into[start..])
}
