//! What loaded words say of a key.
ghost use Rattle.std.specs.Prelude.{◌≡◌, ◌≤◌, ◌^◌, ◌↔◌, IsTrue, MatchOption};
ghost use Rattle.flow_types.specs.Size.{value_bits};
ghost use Rattle.group_search.specs.declared.record.GroupRecord.{GroupRecord};
ghost use Rattle.group_search.specs.Decoding.{decode};
ghost use Rattle.group_search.specs.Words.{PacksTo, packed_of};
ghost use Rattle.group_cell.specs.Seating.{GivesNode, LacksKey, RowsGive};

use crate::layout::DATA_WORDS;
use flow_types::{FlowKey, Shape};
use group_search::{row_of, served_node};
use hash_family::HashedKey;

/// The node of the key's row, where the words of a place are those of a row with this key.
pub fn node_in(first: u64, second: u64, key: FlowKey) -> Option<u8>
    ensures { MatchOption result (LacksKey key first second) (λ node. GivesNode key first second node) }
{
    let (_group, row) = row_of([first, second])?;
    if row.key.number() != key.number() {
        return None;
    }
    Some(row.node)
}

/// The least first data word of a record with rows.
const ROWS: u64 = 1 << 48;

/// Whether the first data word is that of a record with rows, if it is one of a record.
pub fn has_rows(word: u64) -> bool
    ensures { IsTrue result ↔ (2 ^ 48 ≤ word) }
{
    word >= ROWS
}

/// The node that a record gives the key, by its data words and what was found in its rows.
#[inline(always)]
pub fn decoded(
    shape: Shape,
    words: [u64; DATA_WORDS],
    found: Option<u8>,
    key: &HashedKey,
) -> Option<u8>
    ensures { (content : GroupRecord) → PacksTo (value_bits shape.nodes) (packed_of content) words → RowsGive content key.now found → result ≡ decode content shape.nodes key.now }
{
    if has_rows(words[0]) {
        return found;
    }
    served_node(words, shape.value_bits(), shape.nodes(), key)
}
