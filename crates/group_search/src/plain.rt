ghost use Rattle.std.specs.Prelude.{◌≡◌, ◌<◌, ◌↔◌, IsNone, IfSome};
ghost use Rattle.group_search.specs.Serving.{IsLeast, NoneServes, array_serving, least_of};

use crate::entry::{Entry, Pair};
use crate::limits::INDEXES;
use hash_family::position;

/// What `least` gives, by trying one index after the other.
///
/// `least` takes this way for entries that are too many for its lines: those hardly any index serves, and an
/// index is left after some ten of them.
pub fn least_plain(entries: &[Entry], bit: u8) -> Option<Pair>
    requires { bit < 8 }
    ensures value { result ≡ least_of bit entries.now }
    ensures least { IfSome result (IsLeast bit entries.now) }
    ensures none { IsNone result ↔ NoneServes bit entries.now }
{
    'indexes: for next in 0..INDEXES {
        let index = next as u16;
        if let Some(array) = array_at(entries, index, bit) {
            return Some(Pair { index, array });
        }
    }
    None
}

/// The array with which the index serves the entries at this bit, or `None` where none does.
///
/// Two masks have the positions of the entries with bit 1 and with bit 0. The index is left as soon as a position
/// stands in both.
fn array_at(entries: &[Entry], index: u16, bit: u8) -> Option<u8>
    requires { bit < 8 }
    ensures { result ≡ array_serving index bit entries.now }
{
    let mut ones = 0u8;
    let mut zeros = 0u8;
    'entries: for entry in entries {
        let place = 1u8 << position(entry.pair, index);
        if (entry.node >> bit) & 1 == 1 {
            ones |= place;
        } else {
            zeros |= place;
        }
        if ones & zeros != 0 {
            return None;
        }
    }
    Some(ones)
}
