//! Seats that are made, and seats that meet.
ghost use Rattle.std.specs.Prelude.{◌≡◌};
ghost use mathlib.Core.List.{IsPrefix};
ghost use Rattle.group_cell.specs.Seats.{IsReaderOf, IsWriterOf, published, seen};

use crate::plays::{Ask, Branch, Hear};
use crate::table::{CellTable, ReaderSeat, WriterSeat};

impl CellTable {
    /// A seat that has seen all that the writer has published. The writer's seat is this table's.
    pub fn reader(&self, writer: &mut WriterSeat) -> ReaderSeat
        requires { IsWriterOf self.now writer.old }

        ensures writer { IsWriterOf self.now writer.new }
        ensures kept { published writer.new ≡ published writer.old }
        ensures reader { IsReaderOf self.now result }
        ensures seen { seen result ≡ published writer.old }
    {
        ReaderSeat {
            seat: self.table.shared.split_seat::<Branch>(&mut writer.seat),
        }
    }

    /// The reader has then seen all that is published, and what it had seen before is the beginning of that.
    ///
    /// Both seats are this table's.
    pub fn meet(&self, reader: &mut ReaderSeat, writer: &mut WriterSeat)
        requires reader { IsReaderOf self.now reader.old }
        requires writer { IsWriterOf self.now writer.old }

        ensures reader { IsReaderOf self.now reader.new }
        ensures all { seen reader.new ≡ published writer.old }
        ensures before { IsPrefix (seen reader.old) (published writer.old) }
        ensures writer { IsWriterOf self.now writer.new }
        ensures kept { published writer.new ≡ published writer.old }
    {
        let shelf = &self.table.shared;
        let has_seen = shelf.split_seat::<Branch>(&mut reader.seat);
        shelf.join_seat::<Hear>(&mut writer.seat, has_seen);
        // The writer learns that what it has heard is the beginning of its list.
        shelf.load::<Ask>(&mut writer.seat, 0);
        let is_published = shelf.split_seat::<Branch>(&mut writer.seat);
        shelf.join_seat::<Hear>(&mut reader.seat, is_published);
    }
}
