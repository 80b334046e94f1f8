//! The writer's steps on a group's own words, and a whole publication.
ghost use Rattle.std.specs.Prelude.{◌≡◌, ℕ, ◌+◌, ◌*◌, ◌^◌, ◌<◌, ◌≤◌, ◌∷◌, [], ◌++◌, length, slice_index};
ghost use Rattle.flow_types.specs.Size.{value_bits};
ghost use Rattle.group_search.specs.Canon.{rows_in};
ghost use Rattle.group_search.specs.Words.{HasBits};
ghost use Rattle.group_cell.specs.Layout.{block_words, data_words, home_of, sequence, datum};
ghost use Rattle.group_search.specs.Records.{HasNodes};
ghost use Rattle.group_cell.specs.Rule.{Holds, IsIn, IsSoundRecord, nodes_of, rows_placed};
ghost use Rattle.group_cell.specs.Plays.{begun, ended, publication, writer_view};
ghost use Rattle.group_cell.specs.Seating.{IsAt, IsInWriting, IsWriterSeat, Writes, WritesData, words_of_seat};
ghost use Rattle.group_cell.specs.Seats.{IsWriterOf, opened_with, published, rows_beside, the_group};

use crate::layout::{DATA_WORDS, data_word, sequence_word};
use crate::plays::{Ask, Begin, CellSeat, End, Naming, Shelf, Store};
use crate::table::placing::{lay_rows, vacate};
use crate::table::{CellTable, WriterSeat};
use crate::view::Address;
use group_search::{GroupRecord, Row, pack};
use std::marker::Brand;

// Makes the group's sequence word odd, and says what it was.
fn begin(shelf: &Shelf, seat: &mut CellSeat, at: Address) -> u64
    requires own { seat.old.table_id ≡ shelf.now.table_id }
    requires inside { IsAt shelf.now.table_id.words shelf.now.key.value (home_of at) }
    requires rests { IsWriterSeat seat.old }
    requires opening { (writer_view seat.old.me.0).opening ≡ shelf.now.key.value }
    ensures found { (result ≡ sequence (words_of_seat seat.old) (home_of at)) × (result < 2 ^ 33) }
    ensures wide { sequence (words_of_seat seat.new) (home_of at) ≡ result + 1 }
    ensures begun { Writes seat.old seat.new (begun (home_of at) (result + 1) (writer_view seat.old.me.0)) }
{
    let version = shelf.load::<Ask>(seat, sequence_word(at));
    shelf.store::<Begin>(seat, sequence_word(at), version + 1);
    version
}

// Stores the data words.
fn write(shelf: &Shelf, seat: &mut CellSeat, at: Address, words: [u64; DATA_WORDS])
    requires own { seat.old.table_id ≡ shelf.now.table_id }
    requires inside { IsAt shelf.now.table_id.words shelf.now.key.value (home_of at) }
    requires writing { IsInWriting seat.old (home_of at) }
    requires wide { block_words * at.block + block_words ≤ length (words_of_seat seat.old) }
    ensures data_words { (j : ℕ) → j < data_words → datum (words_of_seat seat.new) (home_of at) j ≡ slice_index words j }
    ensures writes { WritesData (home_of at) seat.old seat.new }
{
    'stores: for number in 0..DATA_WORDS {
        shelf.store::<Store>(seat, data_word(at, number), words[number]);
    }
}

// Makes the group's sequence word even: the record is published.
fn finish<C: Naming>(
    shelf: &Shelf,
    seat: &mut CellSeat,
    at: Address,
    content: &GroupRecord,
    even: u64,
)
    requires own { seat.old.table_id ≡ shelf.now.table_id }
    requires inside { IsAt shelf.now.table_id.words shelf.now.key.value (home_of at) }
    requires writing { IsInWriting seat.old (home_of at) }
    requires even { even ≡ sequence (words_of_seat seat.old) (home_of at) + 1 }
    requires named { content.now ≡ C.content }
    requires room { length (writer_view seat.old.me.0).published < 4294967295 }
    requires holds { Holds (nodes_of (writer_view seat.old.me.0).opening) (words_of_seat seat.old) (home_of at) content.now }
    ensures { Writes seat.old seat.new (ended (home_of at) content.now even (writer_view seat.old.me.0)) }
{
    let _ = content;
    shelf.store::<End<C>>(seat, sequence_word(at), even);
}

/// The rows of a record that stand in places.
pub fn rows_kept(content: &GroupRecord) -> &[Row]
    ensures value { result.now ≡ rows_placed content.now }
    ensures count { length result.now ≡ rows_in content.now }
    ensures sound { IsSoundRecord content.now }
{
    match content {
        GroupRecord::Served(_) => &[],
        GroupRecord::Fallback(rows) => rows.as_slice(),
    }
}

impl CellTable {
    /// Appends a record of a group to the published list, and rewrites the group in place.
    ///
    /// The block is one of the table's, the group is below 64, and the seat is this table's. The record needs at most
    /// `room` rows, which go to the cluster's nodes; a served record has the cluster's value bits; and fewer than
    /// 4,294,967,295 records were published.
    pub fn publish(&self, writer: &mut WriterSeat, block: u16, group: u8, content: &GroupRecord)
        requires writer { IsWriterOf self.now writer.old }
        requires inside { IsIn (opened_with self.now) (the_group block group) }
        requires bits { HasBits (value_bits (opened_with self.now).size.nodes) content.now }
        requires in_cluster { HasNodes (opened_with self.now).size.nodes content.now }
        requires room { rows_in content.now + rows_beside (opened_with self.now) (published writer.old) (the_group block group) ≤ 64 }
        requires few { length (published writer.old) < 4294967295 }

        ensures writer { IsWriterOf self.now writer.new }
        ensures published { published writer.new ≡ published writer.old ++ publication (the_group block group) content.now ∷ [] }
    {
        let at = Address { block, group };
        let shelf = &self.table.shared;
        let mut owners = writer.owners[usize::from(block)];
        let version = begin(shelf, &mut writer.seat, at);
        vacate(shelf, &mut writer.seat, &mut owners, at);
        lay_rows(shelf, &mut writer.seat, &mut owners, at, rows_kept(content));
        write(shelf, &mut writer.seat, at, pack(content));
        finish::<Brand>(shelf, &mut writer.seat, at, content, version + 2);
        writer.owners[usize::from(block)] = owners;
    }
}
