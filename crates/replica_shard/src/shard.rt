ghost use Rattle.std.specs.Prelude.{◌≡◌, ◌+◌, ◌/◌, length};
ghost use Rattle.group_cell.specs.Opening.{HaveAllGroups};
ghost use Rattle.group_cell.specs.Seats.{opened_with, published};
ghost use Rattle.replica_shard.specs.Owners.{AreOwnersCells};

use block_layout::Choices;
use flow_types::Shape;
use group_cell::{CellTable, ReaderSeat, WriterSeat};
use hash_family::Reciprocal;

mod applying;
mod meeting;
mod opening;
mod plan;
mod routing;

pub use plan::ShardPlan;

/// A node's table of the blocks of one owner, which one writer brings up to date in place under any number of readers.
///
/// No call waits for another thread, and none but `open` and `open_plan` takes memory. Each call takes the shard by
/// `&self` and a seat, which says who calls.
#[derive(Drop)]
pub struct Shard {
    table: CellTable,
    choices: Vec<Choices>,
    shape: Shape,
    owner: u8,
    // 2^16 divided by the number of nodes, and 1 more.
    share: u32,
    reciprocal: Reciprocal,
    ghost divided: { reciprocal ≡ shape.blocks },
    ghost shared: { share ≡ 65536 / shape.nodes + 1 },
    ghost cells: { AreOwnersCells shape owner choices.items (opened_with table) },
    ghost full: { HaveAllGroups (opened_with table).images },
}

/// The seat of a shard's one writer. A contract sees the list of the records that it has taken.
#[derive(Drop)]
pub struct ShardWriter {
    seat: WriterSeat,
    taken: u32,
    ghost counted: { taken ≡ length (published seat) },
}

/// The seat of a reader. A contract sees how many of the records that were taken it has seen.
#[derive(Drop)]
pub struct ShardReader {
    seat: ReaderSeat,
}
