ghost use Rattle.std.specs.Prelude.{◌≡◌, ◌<◌, ◌≤◌, ◌↔◌, IsTrue, IfOk, IfErr, IsErr, length};
ghost use Rattle.std.specs.Result.{result_ok};
ghost use Rattle.flow_types.specs.Map.{HaveDistinctKeys};
ghost use Rattle.flow_types.specs.Size.{most_value_bits};
ghost use Rattle.block_layout.specs.Limits.{most_keys};
ghost use Rattle.group_search.specs.Limits.{most_rows};
ghost use Rattle.group_search.specs.Rows.{entry_key};
ghost use Rattle.group_search.specs.Serving.{IsSeparable};
ghost use Rattle.group_search.specs.Canon.{IsCanonical, canonical, is_separable, least_pairs};

use crate::entry::{Entry, Pair};
use crate::limits::{MOST_BITS, MOST_ROWS};
use crate::record::GroupRecord;
use crate::rows::Rows;
use crate::search::least;
use crate::served::Served;
use std::error::Error;
use std::fmt;

/// The entries of a group are too many for rows, and no indexes serve them.
#[derive(Clone, Copy, Debug, PartialEq, Eq, Hash)]
pub struct TooMany {
    /// How many entries there are.
    pub keys: u16,
}

impl fmt::Display for TooMany {
    ghost use Rattle.std.specs.Fmt.{decimal};
    ghost use Rattle.std.specs.Prelude.{◌++◌, codes, Some};

    ghost output = { λ refusal. Some (decimal refusal.keys ++ codes " keys that no indexes serve") };

    fn fmt<W: fmt::Write>(&self, f: &mut fmt::Formatter<W>) -> fmt::Result {
        write!(f, "{} keys that no indexes serve", self.keys)
    }
}

impl Error for TooMany {}

/// Whether for each value bit below `bits` some index serves the entries.
pub fn separable(entries: &[Entry], bits: u8) -> bool
    requires { bits ≤ most_value_bits }
    ensures value { result ≡ is_separable bits entries.now }
    ensures separable { IsTrue result ↔ IsSeparable bits entries.now }
{
    'bits: for bit in 0..bits {
        if least(entries, bit).is_none() {
            return false;
        }
    }
    true
}

/// The canonical record of a group: Served with the least pairs where the entries are separable, and else Fallback
/// with their keys and nodes by rising key.
pub fn canon(entries: &[Entry], bits: u8) -> Result<GroupRecord, TooMany>
    requires enough_bits { 1 ≤ bits }
    requires few_bits { bits ≤ most_value_bits }
    requires distinct { HaveDistinctKeys entry_key entries.now }
    requires few { length entries.now ≤ most_keys }
    ensures value { result_ok result ≡ canonical bits entries.now }
    ensures canonical { IfOk result (IsCanonical bits entries.now) }
    ensures too_many { IsErr result ↔ ((¬ IsSeparable bits entries.now) × (most_rows < length entries.now)) }
    ensures keys { IfErr result (λ e. e.keys ≡ length entries.now) }
{
    if let Some(served) = serving_pairs(entries, bits) {
        return Ok(GroupRecord::Served(served));
    }
    if entries.len() > MOST_ROWS {
        return Err(TooMany {
            keys: entries.len() as u16,
        });
    }
    Ok(GroupRecord::Fallback(Rows::by_key(entries)))
}

/// The least pairs of the bits below `bits`, or `None` where a bit has none.
fn serving_pairs(entries: &[Entry], bits: u8) -> Option<Served>
    requires enough_bits { 1 ≤ bits }
    requires few_bits { bits ≤ most_value_bits }
    ensures { result ≡ least_pairs bits 0 entries.now }
{
    let mut pairs = [Pair::default(); MOST_BITS];
    'bits: for bit in 0..bits {
        pairs[bit as usize] = least(entries, bit)?;
    }
    Some(Served { bits, pairs })
}
