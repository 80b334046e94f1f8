//! The words of a table, and the owners of its places, before it is opened.
ghost use Rattle.std.specs.Prelude.{◌≡◌, ◌≢◌, ℕ, ◌+◌, ◌*◌, ◌<◌, ◌≤◌, ◌∷◌, [], ◌++◌, List, IfOk, All, length, sum_by};
ghost use Rattle.group_search.specs.declared.rows.Row.{Row};
ghost use Rattle.group_search.specs.Canon.{rows_in};
ghost use Rattle.group_search.specs.Image.{Image};
ghost use Rattle.group_cell.specs.Laying.{AreLaid, IsBare, IsBlockLaid, IsLaid, LeavesOthers, in_front};
ghost use Rattle.group_cell.specs.Rule.{RowsStand};
ghost use Rattle.group_cell.specs.Layout.{sequence};
ghost use Rattle.group_cell.specs.Seating.{AreOwners, places_of};

use crate::layout::{BLOCK_WORDS, DATA_WORDS, PLACES, data_word, high_word, low_word};
use crate::table::placing::free_place;
use crate::table::publishing::rows_kept;
use crate::view::Address;
use block_layout::GROUPS;
use group_search::{BlockImage, GroupRecord, Row, pack, row_words};
use std::alloc::{AllocError, Global};

/// The words of a block, and the tag of each of its places.
#[derive(Drop)]
pub struct LaidBlock {
    pub words: [u64; BLOCK_WORDS],
    pub owners: [u8; PLACES],
}

/// The words of a table, and the tags of the places of each of its blocks.
#[derive(Drop)]
pub struct LaidTable {
    pub words: Vec<u64>,
    pub owners: Vec<[u8; PLACES]>,
}

// Lays a row of the group into a free place.
fn lay_row(words: &mut [u64; BLOCK_WORDS], owners: &mut [u8; PLACES], group: u8, row: Row)
    requires group { group < 64 }
    requires owners { AreOwners owners.old words.old 0 }
    requires room { 0 < places_of 0 owners.old }
    ensures owners { AreOwners owners.new words.new 0 }
    ensures free { places_of 0 owners.new + 1 ≡ places_of 0 owners.old }
    ensures mine { places_of (group + 1) owners.new ≡ places_of (group + 1) owners.old + 1 }
    ensures others { LeavesOthers (in_front group) words.old words.new owners.old owners.new }
    ensures version { sequence words.new (in_front group) ≡ sequence words.old (in_front group) }
    ensures rows { (rows : List Row) → RowsStand words.old (in_front group) rows → RowsStand words.new (in_front group) (rows ++ row ∷ []) }
{
    let place = free_place(owners);
    let [first, second] = row_words(&row, group);
    words[low_word(0, place)] = first;
    words[high_word(0, place)] = second;
    owners[place] = group + 1;
}

// Lays each row of the group into a free place.
fn lay_rows(words: &mut [u64; BLOCK_WORDS], owners: &mut [u8; PLACES], group: u8, rows: &[Row])
    requires group { group < 64 }
    requires owners { AreOwners owners.old words.old 0 }
    requires bare { IsBare words.old owners.old (in_front group) }
    requires room { length rows.now ≤ places_of 0 owners.old }
    ensures owners { AreOwners owners.new words.new 0 }
    ensures free { places_of 0 owners.new + length rows.now ≡ places_of 0 owners.old }
    ensures mine { places_of (group + 1) owners.new ≡ length rows.now }
    ensures others { LeavesOthers (in_front group) words.old words.new owners.old owners.new }
    ensures version { sequence words.new (in_front group) ≡ 0 }
    ensures rows { RowsStand words.new (in_front group) rows.now }
{
    'rows: for row in rows {
        lay_row(words, owners, group, *row);
    }
}

// Lays the group's record at version 0.
fn lay_group(
    words: &mut [u64; BLOCK_WORDS],
    owners: &mut [u8; PLACES],
    group: u8,
    content: &GroupRecord,
)
    requires group { group < 64 }
    requires owners { AreOwners owners.old words.old 0 }
    requires bare { IsBare words.old owners.old (in_front group) }
    requires room { rows_in content.now ≤ places_of 0 owners.old }
    ensures owners { AreOwners owners.new words.new 0 }
    ensures free { places_of 0 owners.new + rows_in content.now ≡ places_of 0 owners.old }
    ensures others { LeavesOthers (in_front group) words.old words.new owners.old owners.new }
    ensures laid { IsLaid words.new owners.new (in_front group) content.now }
{
    lay_rows(words, owners, group, rows_kept(content));
    let at = Address { block: 0, group };
    let [first, second] = pack(content);
    words[data_word(at, 0)] = first;
    words[data_word(at, 1)] = second;
}

// Lays the block's groups.
fn lay_block(image: &BlockImage) -> LaidBlock
    requires { sum_by rows_in image.now.records ≤ 64 }
    ensures { IsBlockLaid result.words result.owners image.now }
{
    let mut words = [0; BLOCK_WORDS];
    let mut owners = [0; PLACES];
    'groups: for group in 0..GROUPS {
        lay_group(&mut words, &mut owners, group, image.record(group));
    }
    LaidBlock { words, owners }
}

/// Lays the blocks of these images, of which none has more than 64 rows.
pub fn lay(alloc: Global, images: &[BlockImage]) -> Result<LaidTable, AllocError>
    requires { All (λ (image : Image). sum_by rows_in image.records ≤ 64) images.now }
    ensures { IfOk result (λ t. AreLaid t.words.items t.owners.items images.now) }
{
    let mut words = Vec::new(alloc);
    let mut owners = Vec::new(alloc);
    'laid: for image in images {
        let block = lay_block(image);
        words.extend_from_slice(&block.words)?;
        owners.push(block.owners)?;
    }
    Ok(LaidTable { words, owners })
}
