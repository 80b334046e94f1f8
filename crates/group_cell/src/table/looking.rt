//! The readers' steps.
ghost use Rattle.std.specs.Prelude.{◌≡◌, ◌+◌, ◌^◌, ◌<◌, ◌≤◌, ◌∷◌, [], ◌++◌, IfErr, IfOk, IfSome, length};
ghost use mathlib.Core.List.{IsPrefix};
ghost use Rattle.group_cell.specs.Layout.{home_of};
ghost use Rattle.group_cell.specs.Rule.{nodes_of, latest, HasLoaded, IsEven, IsIn};
ghost use Rattle.group_cell.specs.Plays.{reader_view, IsReader, looked};
ghost use Rattle.group_cell.specs.Plays as plays;
ghost use Rattle.group_cell.specs.Seating.{GoesOn, HasBegun, IsAt, IsFound, IsLooking, Reads, data_loads, loads_of, the_look};
ghost use Rattle.group_cell.specs.Seats.{FindsNode, Changes, IsReaderOf, LoadsDataAlone, looks, opened_with, seen, the_group};

use crate::layout::{DATA_WORDS, PLACES, data_word, high_word, low_word, sequence_word, tag};
use crate::plays::{CellSeat, EndLook, Load, Shelf, StartLook};
use crate::table::decoding::{decoded, has_rows, node_in};
use crate::table::{CellTable, Changing, Look, ReaderSeat};
use crate::view::Address;
use flow_types::FlowKey;
use hash_family::HashedKey;

// Loads the group's sequence word.
#[inline(always)]
fn begin(shelf: &Shelf, seat: &mut CellSeat, at: Address) -> u64
    requires own { seat.old.table_id ≡ shelf.now.table_id }
    requires inside { IsAt shelf.now.table_id.words shelf.now.key.value (home_of at) }
    requires reads { IsReader seat.old.me.0 }
    ensures { HasBegun seat.old seat.new (home_of at) result }
{
    shelf.load::<StartLook>(seat, sequence_word(at))
}

// Loads a word in a look.
#[inline(always)]
fn load(shelf: &Shelf, seat: &mut CellSeat, word: usize) -> u64
    requires own { seat.old.table_id ≡ shelf.now.table_id }
    requires inside { word < shelf.now.table_id.words }
    requires looking { IsLooking seat.old }
    ensures looking { IsLooking seat.new }
    ensures loads { loads_of seat.new ≡ loads_of seat.old ++ plays.load word result ∷ [] }
    ensures goes_on { GoesOn seat.old seat.new }
{
    shelf.load::<Load>(seat, word)
}

// Loads the group's data words.
#[inline(always)]
fn gather(shelf: &Shelf, seat: &mut CellSeat, at: Address) -> [u64; DATA_WORDS]
    requires own { seat.old.table_id ≡ shelf.now.table_id }
    requires inside { IsAt shelf.now.table_id.words shelf.now.key.value (home_of at) }
    requires looking { IsLooking seat.old }
    ensures looking { IsLooking seat.new }
    ensures goes_on { GoesOn seat.old seat.new }
    ensures width { length result ≡ 2 }
    ensures loads { loads_of seat.new ≡ loads_of seat.old ++ data_loads (home_of at) result }
{
    let mut words = [0; DATA_WORDS];
    'loads: for number in 0..DATA_WORDS {
        words[number] = load(shelf, seat, data_word(at, number));
    }
    words
}

// Loads a place, and answers the node in it if it has the key.
fn probe(
    shelf: &Shelf,
    seat: &mut CellSeat,
    at: Address,
    place: usize,
    key: FlowKey,
    found: Option<u8>,
) -> Option<u8>
    requires own { seat.old.table_id ≡ shelf.now.table_id }
    requires inside { IsAt shelf.now.table_id.words shelf.now.key.value (home_of at) }
    requires place { place < 64 }
    requires looking { IsLooking seat.old }
    requires found { IsFound (loads_of seat.old) (home_of at) place key found }
    ensures looking { IsLooking seat.new }
    ensures goes_on { GoesOn seat.old seat.new }
    ensures found { IsFound (loads_of seat.new) (home_of at) (place + 1) key result }
{
    let second = load(shelf, seat, high_word(at.block, place));
    if tag(second) != u64::from(at.group) + 1 {
        return found;
    }
    let first = load(shelf, seat, low_word(at.block, place));
    match node_in(first, second, key) {
        Some(node) => Some(node),
        None => found,
    }
}

// Searches the places, where the first data word is that of a record with rows.
#[inline(always)]
fn search(
    shelf: &Shelf,
    seat: &mut CellSeat,
    at: Address,
    datum: u64,
    key: &HashedKey,
) -> Option<u8>
    requires own { seat.old.table_id ≡ shelf.now.table_id }
    requires inside { IsAt shelf.now.table_id.words shelf.now.key.value (home_of at) }
    requires looking { IsLooking seat.old }
    ensures looking { IsLooking seat.new }
    ensures goes_on { GoesOn seat.old seat.new }
    ensures found { 2 ^ 48 ≤ datum → IsFound (loads_of seat.new) (home_of at) 64 key.now result }
    ensures no_loads { datum < 2 ^ 48 → loads_of seat.new ≡ loads_of seat.old }
{
    if !has_rows(datum) {
        return None;
    }
    search_places(shelf, seat, at, key.key())
}

// Goes over all places of the block. Few groups have rows, so that the way of the others is kept short.
#[cold]
#[inline(never)]
fn search_places(shelf: &Shelf, seat: &mut CellSeat, at: Address, key: FlowKey) -> Option<u8>
    requires own { seat.old.table_id ≡ shelf.now.table_id }
    requires inside { IsAt shelf.now.table_id.words shelf.now.key.value (home_of at) }
    requires looking { IsLooking seat.old }
    ensures looking { IsLooking seat.new }
    ensures goes_on { GoesOn seat.old seat.new }
    ensures found { IsFound (loads_of seat.new) (home_of at) 64 key result }
{
    let mut found = None;
    'places: for place in 0..PLACES {
        found = probe(shelf, seat, at, place, key, found);
    }
    found
}

// Loads the group's sequence word once more.
#[inline(always)]
fn end(shelf: &Shelf, seat: &mut CellSeat, at: Address) -> u64
    requires own { seat.old.table_id ≡ shelf.now.table_id }
    requires inside { IsAt shelf.now.table_id.words shelf.now.key.value (home_of at) }
    requires looking { IsLooking seat.old }
    requires group { (the_look seat.old).at ≡ at }
    ensures view { Reads seat.old seat.new (looked result (reader_view seat.old.me.0)) }
    ensures whole { IsEven (the_look seat.old).first → result ≡ (the_look seat.old).first
        → let r = reader_view seat.old.me.0 in HasLoaded (nodes_of r.opening) (loads_of seat.old) (home_of at) (latest r.opening r.seen (home_of at)) }
{
    shelf.load::<EndLook>(seat, sequence_word(at))
}

impl CellTable {
    /// Looks up a key in a group: the node that one whole published record of the group gives it, if any, which is one
    /// of the cluster's for any key, and that record's version; or `Changing`, where the group was being rewritten.
    ///
    /// The key's home is the group. The block is one of the table's, the group is below 64, and the seat is this
    /// table's. A look loads the sequence word twice and the data words once, and the places of a record with rows.
    /// It waits for nobody, and nothing says that it ever succeeds beside a writer that never rests.
    #[inline(always)]
    pub fn look(
        &self,
        reader: &mut ReaderSeat,
        block: u16,
        group: u8,
        key: FlowKey,
    ) -> Result<Look, Changing>
        requires reader { IsReaderOf self.now reader.old }
        requires inside { IsIn (opened_with self.now) (the_group block group) }

        ensures reader { IsReaderOf self.now reader.new }
        ensures later { IsPrefix (seen reader.old) (seen reader.new) }
        ensures looks { looks reader.new ≡ looks reader.old + 1 }
        ensures answer { IfOk result (λ l. FindsNode (opened_with self.now) reader.new (the_group block group) key l.version l.node) }
        ensures in_cluster { IfOk result (λ l. IfSome l.node (λ node. node < (opened_with self.now).size.nodes)) }
        ensures served { IfOk result (λ l. LoadsDataAlone (opened_with self.now) reader.new (the_group block group) l.version) }
        ensures changing { IfErr result (λ c. Changes reader.new (the_group block group) c.first c.second) }
    {
        self.look_hashed(reader, block, group, &HashedKey::of(&key))
    }

    /// What `look` gives a key that is hashed already.
    ///
    /// The key's home is the group. The block is one of the table's, the group is below 64, and the seat is this
    /// table's.
    #[inline(always)]
    pub fn look_hashed(
        &self,
        reader: &mut ReaderSeat,
        block: u16,
        group: u8,
        key: &HashedKey,
    ) -> Result<Look, Changing>
        requires reader { IsReaderOf self.now reader.old }
        requires inside { IsIn (opened_with self.now) (the_group block group) }

        ensures reader { IsReaderOf self.now reader.new }
        ensures later { IsPrefix (seen reader.old) (seen reader.new) }
        ensures looks { looks reader.new ≡ looks reader.old + 1 }
        ensures answer { IfOk result (λ l. FindsNode (opened_with self.now) reader.new (the_group block group) key.now l.version l.node) }
        ensures in_cluster { IfOk result (λ l. IfSome l.node (λ node. node < (opened_with self.now).size.nodes)) }
        ensures served { IfOk result (λ l. LoadsDataAlone (opened_with self.now) reader.new (the_group block group) l.version) }
        ensures changing { IfErr result (λ c. Changes reader.new (the_group block group) c.first c.second) }
    {
        let at = Address { block, group };
        let shelf = &self.table.shared;
        let first = begin(shelf, &mut reader.seat, at);
        if first % 2 == 1 {
            return Err(Changing {
                first,
                second: first,
            });
        }
        let words = gather(shelf, &mut reader.seat, at);
        let found = search(shelf, &mut reader.seat, at, words[0], key);
        let second = end(shelf, &mut reader.seat, at);
        if second != first {
            return Err(Changing { first, second });
        }
        Ok(Look {
            version: (first / 2) as u32,
            node: decoded(self.shape, words, found, key),
        })
    }
}
