//! How many rows a group may have.
ghost use Rattle.std.specs.Prelude.{◌≡◌, ◌+◌};
ghost use Rattle.group_cell.specs.Rule.{IsIn};
ghost use Rattle.group_cell.specs.Seats.{IsWriterOf, opened_with, published, rows_beside, the_group};

use crate::table::{CellTable, WriterSeat};

impl CellTable {
    /// How many rows the group's next record may have: 64 less the rows of the block's other groups.
    ///
    /// The block is one of the table's, the group is below 64, and the seat is this table's.
    pub fn room(&self, writer: &WriterSeat, block: u16, group: u8) -> u8
        requires writer { IsWriterOf self.now writer.now }
        requires inside { IsIn (opened_with self.now) (the_group block group) }
        ensures { result + rows_beside (opened_with self.now) (published writer.now) (the_group block group) ≡ 64 }
    {
        let owners = &writer.owners[usize::from(block)];
        let mut places = 0;
        'places: for owner in owners {
            if *owner == 0 || *owner == group + 1 {
                places += 1;
            }
        }
        places
    }
}
