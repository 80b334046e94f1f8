ghost use Rattle.std.specs.Prelude.{◌≡◌, ◌<◌, ◌↔◌, ℕ, IsNone, Some};
ghost use Rattle.group_search.specs.declared.rows.Row.{Row};
ghost use Rattle.group_search.specs.RowWords.{SpellsOneRow, SpellsRow};

use crate::rows::Row;
use flow_types::FlowKey;

/// How far the node stands above the high bits of the key's number.
const NODE_SHIFT: u32 = 40;
/// How far the group stands above them.
const GROUP_SHIFT: u32 = 48;
/// The number of groups of a block.
const GROUPS: u64 = 64;

/// The two words of the place where a group, below 64, keeps a row.
///
/// The first has the low 64 bits of the key's number. The second has its high 40 bits, the node in bits 40..=47, and
/// the group's number plus 1 in bits 48..=54. No free place has these words.
pub fn row_words(row: &Row, group: u8) -> [u64; 2]
    requires { group < 64 }
    ensures { SpellsRow group row.now result }
{
    words_of(*row, group)
}

/// The same words.
fn words_of(row: Row, group: u8) -> [u64; 2]
    requires { group < 64 }
    ensures { SpellsRow group row result }
{
    let number = row.key.number();
    [
        (number % (1 << 64)) as u64,
        (number >> 64) as u64
            + (u64::from(row.node) << NODE_SHIFT)
            + ((u64::from(group) + 1) << GROUP_SHIFT),
    ]
}

/// The group and the row that these words are of, or `None` where no row and group below 64 give them.
pub fn row_of(words: [u64; 2]) -> Option<(u8, Row)>
    ensures value { (group : ℕ) (row : Row) → (result ≡ Some (group, row)) ↔ SpellsRow group row words }
    ensures none { IsNone result ↔ ((group : ℕ) (row : Row) → ¬ SpellsRow group row words) }
{
    let [first, second] = words;
    let group = (second >> GROUP_SHIFT).checked_sub(1)?;
    if group >= GROUPS {
        return None;
    }
    let high = second % (1 << NODE_SHIFT);
    let key = FlowKey::from_number(u128::from(first) + (u128::from(high) << 64))?;
    let node = ((second >> NODE_SHIFT) % 256) as u8;
    Some((group as u8, Row { key, node }))
}

/// The law that two words are those of one row and one group at most.
///
/// With the contracts of `row_words` and `row_of` it says that each inverts the other.
pub fn words_spell_one_row()
    ensures { SpellsOneRow }
{}
