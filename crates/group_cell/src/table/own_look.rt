//! The writer's look at its own table.
ghost use Rattle.std.specs.Prelude.{◌≡◌, ℕ, ◌+◌, ◌^◌, ◌<◌, ◌≤◌, IfSome, Option, length, slice_index};
ghost use Rattle.group_search.specs.Published.{count};
ghost use Rattle.group_cell.specs.Layout.{data_words, home_of, high, datum, tag};
ghost use Rattle.group_cell.specs.Rule.{IsIn, Stands};
ghost use Rattle.group_cell.specs.Plays.{writer_view, IsWriter};
ghost use Rattle.group_cell.specs.Seating.{AreOwners, IsAt, IsSameSeat, StandsFound, words_of_seat};
ghost use Rattle.group_cell.specs.Seats.{IsWriterOf, node_at_version, opened_with, published, the_group};

use crate::layout::{DATA_WORDS, PLACES, data_word, high_word, low_word, sequence_word};
use crate::plays::{Ask, CellSeat, Shelf};
use crate::table::decoding::{decoded, has_rows, node_in};
use crate::table::{CellTable, Look, WriterSeat};
use crate::view::Address;
use flow_types::FlowKey;
use hash_family::HashedKey;

// Loads a word of the writer's.
#[inline(always)]
fn ask(shelf: &Shelf, seat: &mut CellSeat, word: usize) -> u64
    requires own { seat.old.table_id ≡ shelf.now.table_id }
    requires inside { word < shelf.now.table_id.words }
    requires writes { IsWriter seat.old.me.0 }
    ensures found { result ≡ slice_index (words_of_seat seat.old) word }
    ensures stands { Stands (writer_view seat.old.me.0) }
    ensures same { IsSameSeat seat.old seat.new }
    ensures kept { seat.new.me ≡ seat.old.me }
{
    shelf.load::<Ask>(seat, word)
}

// Loads the group's data words.
#[inline(always)]
fn ask_data(shelf: &Shelf, seat: &mut CellSeat, at: Address) -> [u64; DATA_WORDS]
    requires own { seat.old.table_id ≡ shelf.now.table_id }
    requires inside { IsAt shelf.now.table_id.words shelf.now.key.value (home_of at) }
    requires writes { IsWriter seat.old.me.0 }
    ensures width { length result ≡ 2 }
    ensures found { (j : ℕ) → j < data_words → slice_index result j ≡ datum (words_of_seat seat.old) (home_of at) j }
    ensures same { IsSameSeat seat.old seat.new }
    ensures kept { seat.new.me ≡ seat.old.me }
{
    let mut words = [0; DATA_WORDS];
    'loads: for number in 0..DATA_WORDS {
        words[number] = ask(shelf, seat, data_word(at, number));
    }
    words
}

// Loads a place if it is the group's, and answers the node in it if it has the key.
fn probe(
    shelf: &Shelf,
    seat: &mut CellSeat,
    owner: u8,
    at: Address,
    place: usize,
    key: FlowKey,
    found: Option<u8>,
) -> Option<u8>
    requires own { seat.old.table_id ≡ shelf.now.table_id }
    requires inside { IsAt shelf.now.table_id.words shelf.now.key.value (home_of at) }
    requires place { place < 64 }
    requires writes { IsWriter seat.old.me.0 }
    requires owner { owner ≡ tag (high (words_of_seat seat.old) at.block place) }
    requires found { StandsFound (words_of_seat seat.old) (home_of at) place key found }
    ensures found { StandsFound (words_of_seat seat.old) (home_of at) (place + 1) key result }
    ensures same { IsSameSeat seat.old seat.new }
    ensures kept { seat.new.me ≡ seat.old.me }
{
    if owner != at.group + 1 {
        return found;
    }
    let first = ask(shelf, seat, low_word(at.block, place));
    let second = ask(shelf, seat, high_word(at.block, place));
    match node_in(first, second, key) {
        Some(node) => Some(node),
        None => found,
    }
}

// Searches the group's places, where the first data word is that of a record with rows.
#[inline(always)]
fn search(
    shelf: &Shelf,
    seat: &mut CellSeat,
    owners: &[u8; PLACES],
    at: Address,
    datum: u64,
    key: &HashedKey,
) -> Option<u8>
    requires own { seat.old.table_id ≡ shelf.now.table_id }
    requires inside { IsAt shelf.now.table_id.words shelf.now.key.value (home_of at) }
    requires writes { IsWriter seat.old.me.0 }
    requires owners { AreOwners owners.now (words_of_seat seat.old) at.block }
    ensures found { 2 ^ 48 ≤ datum → StandsFound (words_of_seat seat.old) (home_of at) 64 key.now result }
    ensures same { IsSameSeat seat.old seat.new }
    ensures kept { seat.new.me ≡ seat.old.me }
{
    if !has_rows(datum) {
        return None;
    }
    search_places(shelf, seat, owners, at, key.key())
}

// Goes over the group's places. Few groups have rows, so that the way of the others is kept short.
#[cold]
#[inline(never)]
fn search_places(
    shelf: &Shelf,
    seat: &mut CellSeat,
    owners: &[u8; PLACES],
    at: Address,
    key: FlowKey,
) -> Option<u8>
    requires own { seat.old.table_id ≡ shelf.now.table_id }
    requires inside { IsAt shelf.now.table_id.words shelf.now.key.value (home_of at) }
    requires writes { IsWriter seat.old.me.0 }
    requires owners { AreOwners owners.now (words_of_seat seat.old) at.block }
    ensures found { StandsFound (words_of_seat seat.old) (home_of at) 64 key result }
    ensures same { IsSameSeat seat.old seat.new }
    ensures kept { seat.new.me ≡ seat.old.me }
{
    let mut found = None;
    'places: for place in 0..PLACES {
        found = probe(shelf, seat, owners[place], at, place, key, found);
    }
    found
}

impl CellTable {
    /// Looks up a key in a group by the writer's seat: the node that the group's latest record gives it, and that
    /// record's version. For a key that isn't in the group the node is any of the cluster's, or none.
    ///
    /// The key's home is the group. The block is one of the table's, the group is below 64, and the seat is this
    /// table's. Nothing changes.
    #[inline(always)]
    pub fn look_own(&self, writer: &mut WriterSeat, block: u16, group: u8, key: FlowKey) -> Look
        requires writer { IsWriterOf self.now writer.old }
        requires inside { IsIn (opened_with self.now) (the_group block group) }

        ensures writer { IsWriterOf self.now writer.new }
        ensures kept { published writer.new ≡ published writer.old }
        ensures version { result.version ≡ count (published writer.old) (the_group block group) }
        ensures node { result.node ≡ node_at_version (opened_with self.now) (published writer.old) (the_group block group) result.version key }
        ensures in_cluster { IfSome result.node (λ node. node < (opened_with self.now).size.nodes) }
    {
        self.look_own_hashed(writer, block, group, &HashedKey::of(&key))
    }

    /// What `look_own` gives a key that is hashed already.
    ///
    /// The key's home is the group. The block is one of the table's, the group is below 64, and the seat is this
    /// table's.
    #[inline(always)]
    pub fn look_own_hashed(
        &self,
        writer: &mut WriterSeat,
        block: u16,
        group: u8,
        key: &HashedKey,
    ) -> Look
        requires writer { IsWriterOf self.now writer.old }
        requires inside { IsIn (opened_with self.now) (the_group block group) }

        ensures writer { IsWriterOf self.now writer.new }
        ensures kept { published writer.new ≡ published writer.old }
        ensures version { result.version ≡ count (published writer.old) (the_group block group) }
        ensures node { result.node ≡ node_at_version (opened_with self.now) (published writer.old) (the_group block group) result.version key.now }
        ensures in_cluster { IfSome result.node (λ node. node < (opened_with self.now).size.nodes) }
    {
        let at = Address { block, group };
        let shelf = &self.table.shared;
        let sequence = ask(shelf, &mut writer.seat, sequence_word(at));
        let words = ask_data(shelf, &mut writer.seat, at);
        let owners = &writer.owners[usize::from(block)];
        let found = search(shelf, &mut writer.seat, owners, at, words[0], key);
        Look {
            version: (sequence / 2) as u32,
            node: decoded(self.shape, words, found, key),
        }
    }
}
