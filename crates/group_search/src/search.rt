ghost use Rattle.std.specs.Prelude.{◌≡◌, ◌<◌, ◌≤◌, ◌+◌, ◌++◌, ◌↔◌, IsNone, IfSome, length};
ghost use Rattle.arrayvec.specs.ArrayVec.{array_vec_len};
ghost use Rattle.group_search.specs.Lanes.{first_between, pairs_with};
ghost use Rattle.group_search.specs.Serving.{IsLeast, NoneServes, least_of};

use crate::entry::{Entry, Pair};
use crate::line::Line;
use crate::plain::least_plain;
use crate::turn::{LANES, first_in_turn};
use arrayvec::ArrayVec;

/// The greatest number of entries that are searched by lines. More are searched plainly.
const MOST_LINES: usize = 40;

/// The rounds that take all indexes, sixteen lanes at a time.
const TURNS: u32 = 4_096;

/// The least index that serves the entries at this bit of their nodes, with its array, or `None` where no index
/// serves.
///
/// The bit is below 8. It tries sixteen neighbouring indexes at a time, 65,536 at most: at 16 entries about 600, at 24
/// about 50,000.
pub fn least(entries: &[Entry], bit: u8) -> Option<Pair>
    requires { bit < 8 }
    ensures value { result ≡ least_of bit entries.now }
    ensures least { IfSome result (IsLeast bit entries.now) }
    ensures none { IsNone result ↔ NoneServes bit entries.now }
{
    if entries.len() > MOST_LINES {
        return least_plain(entries, bit);
    }
    let mut lines = ArrayVec::new();
    keep(&mut lines, entries, bit, 1);
    let count = lines.len();
    keep(&mut lines, entries, bit, 0);
    let (ones, zeros) = lines.as_slice().split_at(count);
    first_of_all(ones, zeros)
}

/// Keeps the lines of the entries whose bit has this value, behind the others.
fn keep(lines: &mut ArrayVec<Line, MOST_LINES>, entries: &[Entry], bit: u8, value: u8)
    requires octet { bit < 8 }
    requires room { array_vec_len lines.old + length (pairs_with value bit entries.now) ≤ 40 }
    ensures { lines.new.items ≡ lines.old.items ++ pairs_with value bit entries.now }
{
    'entries: for entry in entries {
        if (entry.node >> bit) & 1 == value {
            lines.push(Line::of(entry.pair));
        }
    }
}

/// The least of all indexes at which no position has both a one and a zero, with the ones' positions.
fn first_of_all(ones: &[Line], zeros: &[Line]) -> Option<Pair>
    ensures { result ≡ first_between 65536 0 ones.now zeros.now }
{
    'turns: for turn in 0..TURNS {
        let found = first_in_turn(ones, zeros, turn * LANES);
        if found.is_some() {
            return found;
        }
    }
    None
}
