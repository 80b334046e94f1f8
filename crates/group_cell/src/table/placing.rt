//! The writer's steps on row places.
ghost use Rattle.std.specs.Prelude.{◌≡◌, ◌≢◌, ℕ, ◌+◌, ◌<◌, ◌≤◌, ◌∷◌, [], ◌++◌, List, length, slice_index, slice_set};
ghost use Rattle.group_search.specs.declared.rows.Row.{Row};
ghost use Rattle.group_cell.specs.Layout.{home_of};
ghost use Rattle.group_cell.specs.Rule.{RowsStand};
ghost use Rattle.group_cell.specs.Seating.{AreOwners, IsAt, IsInWriting, Rewrites, places_of, words_of_seat};

use crate::layout::{PLACES, high_word, low_word};
use crate::plays::{CellSeat, Shelf, Store};
use crate::view::Address;
use group_search::{Row, row_words};

/// A free place. There is one.
pub fn free_place(owners: &[u8; PLACES]) -> usize
    requires { 0 < places_of 0 owners.now }
    ensures { (result < 64) × (slice_index owners.entry.now result ≡ 0) }
{
    'places: for place in 0..PLACES {
        if owners[place] == 0 {
            return place;
        }
    }
    unreachable!()
}

// Frees a place of the group.
fn release(shelf: &Shelf, seat: &mut CellSeat, owners: &mut [u8; PLACES], at: Address, place: usize)
    requires own { seat.old.table_id ≡ shelf.now.table_id }
    requires inside { IsAt shelf.now.table_id.words shelf.now.key.value (home_of at) }
    requires place { place < 64 }
    requires writing { IsInWriting seat.old (home_of at) }
    requires owners { AreOwners owners.old (words_of_seat seat.old) at.block }
    requires mine { slice_index owners.old place ≡ at.group + 1 }
    ensures owners { AreOwners owners.new (words_of_seat seat.new) at.block }
    ensures freed { owners.new ≡ slice_set owners.old place 0 }
    ensures rewrites { Rewrites at.block seat.old seat.new }
{
    shelf.store::<Store>(seat, high_word(at.block, place), 0);
    owners[place] = 0;
}

/// Puts a row into a free place.
pub fn put(shelf: &Shelf, seat: &mut CellSeat, owners: &mut [u8; PLACES], at: Address, row: Row)
    requires own { seat.old.table_id ≡ shelf.now.table_id }
    requires inside { IsAt shelf.now.table_id.words shelf.now.key.value (home_of at) }
    requires writing { IsInWriting seat.old (home_of at) }
    requires owners { AreOwners owners.old (words_of_seat seat.old) at.block }
    requires room { 0 < places_of 0 owners.old }
    ensures owners { AreOwners owners.new (words_of_seat seat.new) at.block }
    ensures free { places_of 0 owners.new + 1 ≡ places_of 0 owners.old }
    ensures mine { places_of (at.group + 1) owners.new ≡ places_of (at.group + 1) owners.old + 1 }
    ensures others { (o : ℕ) → o ≢ 0 → o ≢ at.group + 1 → places_of o owners.new ≡ places_of o owners.old }
    ensures rewrites { Rewrites at.block seat.old seat.new }
    ensures rows { (rows : List Row) → RowsStand (words_of_seat seat.old) (home_of at) rows → RowsStand (words_of_seat seat.new) (home_of at) (rows ++ row ∷ []) }
{
    let place = free_place(owners);
    let [first, second] = row_words(&row, at.group);
    let low = low_word(at.block, place);
    let high = high_word(at.block, place);
    shelf.store::<Store>(seat, low, first);
    shelf.store::<Store>(seat, high, second);
    owners[place] = at.group + 1;
}

/// Frees all places of the group.
pub fn vacate(shelf: &Shelf, seat: &mut CellSeat, owners: &mut [u8; PLACES], at: Address)
    requires own { seat.old.table_id ≡ shelf.now.table_id }
    requires inside { IsAt shelf.now.table_id.words shelf.now.key.value (home_of at) }
    requires writing { IsInWriting seat.old (home_of at) }
    requires owners { AreOwners owners.old (words_of_seat seat.old) at.block }
    ensures owners { AreOwners owners.new (words_of_seat seat.new) at.block }
    ensures free { places_of 0 owners.new ≡ places_of 0 owners.old + places_of (at.group + 1) owners.old }
    ensures mine { places_of (at.group + 1) owners.new ≡ 0 }
    ensures others { (o : ℕ) → o ≢ 0 → o ≢ at.group + 1 → places_of o owners.new ≡ places_of o owners.old }
    ensures rewrites { Rewrites at.block seat.old seat.new }
    ensures none { RowsStand (words_of_seat seat.new) (home_of at) [] }
{
    'places: for place in 0..PLACES {
        if owners[place] == at.group + 1 {
            release(shelf, seat, owners, at, place);
        }
    }
}

/// Puts each row into a free place.
pub fn lay_rows(
    shelf: &Shelf,
    seat: &mut CellSeat,
    owners: &mut [u8; PLACES],
    at: Address,
    rows: &[Row],
)
    requires own { seat.old.table_id ≡ shelf.now.table_id }
    requires inside { IsAt shelf.now.table_id.words shelf.now.key.value (home_of at) }
    requires writing { IsInWriting seat.old (home_of at) }
    requires owners { AreOwners owners.old (words_of_seat seat.old) at.block }
    requires none { RowsStand (words_of_seat seat.old) (home_of at) [] }
    requires room { length rows.now ≤ places_of 0 owners.old }
    ensures owners { AreOwners owners.new (words_of_seat seat.new) at.block }
    ensures mine { places_of (at.group + 1) owners.new ≡ places_of (at.group + 1) owners.old + length rows.now }
    ensures others { (o : ℕ) → o ≢ 0 → o ≢ at.group + 1 → places_of o owners.new ≡ places_of o owners.old }
    ensures rewrites { Rewrites at.block seat.old seat.new }
    ensures rows { RowsStand (words_of_seat seat.new) (home_of at) rows.now }
{
    'rows: for row in rows {
        put(shelf, seat, owners, at, *row);
    }
}
