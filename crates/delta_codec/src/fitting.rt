ghost use Rattle.std.specs.Prelude.{◌↔◌, IsTrue};
ghost use Rattle.delta_codec.specs.Fits.{ContentFits, Fits, HeadFits, RowsFit};

use crate::message::Message;
use block_layout::GROUPS;
use flow_types::{MOST_TURNS, Shape};
use group_search::{GroupRecord, Rows};

/// Whether the message fits the shape: its owner is a node and owns its block, its turn is in 1..=65535, its group below
/// 64, a served record has the shape's value bits, and the nodes of rows are nodes of the cluster.
pub fn fits(shape: Shape, message: &Message) -> bool
    ensures { IsTrue result ↔ Fits shape message.now }
{
    match message {
        Message::Table(table) => {
            head_fits(shape, table.owner, table.turn, table.block, table.group)
                && content_fits(shape, &table.content)
        }
        Message::Fib(fib) => head_fits(shape, fib.owner, fib.turn, fib.block, fib.group),
    }
}

fn head_fits(shape: Shape, owner: u8, turn: u32, block: u16, group: u8) -> bool
    ensures { IsTrue result ↔ HeadFits shape owner turn block group }
{
    u16::from(owner) < shape.nodes()
        && turn >= 1
        && turn <= MOST_TURNS
        && block < shape.blocks()
        && shape.owner(block) == owner
        && group < GROUPS
}

fn content_fits(shape: Shape, content: &GroupRecord) -> bool
    ensures { IsTrue result ↔ ContentFits shape content.now }
{
    match content {
        GroupRecord::Served(served) => served.bits == shape.value_bits(),
        GroupRecord::Fallback(rows) => are_nodes(shape, rows),
    }
}

/// Whether each row's node is one of the cluster's.
fn are_nodes(shape: Shape, rows: &Rows) -> bool
    ensures { IsTrue result ↔ RowsFit shape.nodes rows.now }
{
    let nodes = shape.nodes();
    let rows = rows.as_slice();
    rows.iter().all(|row| u16::from(row.node) < nodes)
}
