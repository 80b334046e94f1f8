ghost use Rattle.std.specs.Prelude.{◌≡◌, ◌*◌, ◌<◌, length};
ghost use Rattle.group_cell.specs.Layout.{block_words};
ghost use Rattle.group_cell.specs.Seating.{IsReaderSeat, IsWriterSeat, Tallies};
ghost use Rattle.group_cell.specs.Plays.{writer_view};

use crate::layout::PLACES;
use crate::plays::{CellSeat, Cells};
use flow_types::Shape;
use std::error::Error;
use std::fmt;

mod decoding;
mod laying;
mod looking;
mod meeting;
mod opening;
mod own_look;
mod placing;
mod publishing;
mod room;

pub use opening::TablePlan;

/// Groups of some blocks of a cluster's table, which one writer rewrites in place under any number of readers.
///
/// No call waits for another thread. `open` and `open_plan` take memory, and no other call. Each call takes the table by
/// `&self` and a seat, which says who calls.
#[derive(Drop)]
pub struct CellTable {
    table: Cells,
    shape: Shape,
    ghost wide: { table.shared.table_id.words ≡ block_words * length table.shared.key.value.images },
    ghost has_a_block: { 0 < length table.shared.key.value.images },
    ghost shaped: { table.shared.key.value.size ≡ shape },
}

/// The seat of a table's one writer. A contract sees the list of what it has published.
#[derive(Drop)]
pub struct WriterSeat {
    seat: CellSeat,
    // The tag of each place of each block.
    owners: Vec<[u8; PLACES]>,
    ghost writes: { IsWriterSeat seat },
    ghost tallied: { Tallies owners.items (writer_view seat.me.0) },
}

/// The seat of a reader. A contract sees the list of what it has seen of what was published.
#[derive(Drop)]
pub struct ReaderSeat {
    seat: CellSeat,
    ghost reads: { IsReaderSeat seat },
}

/// What a look found: a version of the group, and the node that the record of that version gives the key.
#[derive(Clone, Copy, Debug, PartialEq, Eq, Hash)]
pub struct Look {
    /// How many records were published for the group.
    pub version: u32,
    /// The key's node, one of the cluster's, or `None` where the record gives it none. For a key that isn't in the
    /// group it is any of these.
    pub node: Option<u8>,
}

/// Why a look found nothing: the group was being rewritten. Another look may find it at rest.
#[derive(Clone, Copy, Debug, PartialEq, Eq, Hash)]
pub struct Changing {
    /// What the look's first load of the group's sequence word found.
    pub first: u64,
    /// What its second load found, where the first was even; else the first.
    pub second: u64,
}

impl fmt::Display for Changing {
    ghost use Rattle.std.specs.Prelude.{codes, Some};

    ghost output = { λ _. Some (codes "the group is being rewritten") };

    fn fmt<W: fmt::Write>(&self, f: &mut fmt::Formatter<W>) -> fmt::Result {
        f.write_str("the group is being rewritten")
    }
}

impl Error for Changing {}
