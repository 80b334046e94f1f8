//! A table is opened.
ghost use Rattle.std.specs.Prelude.{◌≡◌, ◌<◌, ◌≤◌, [], All, IfOk, length, sum_by};
ghost use Rattle.flow_types.specs.Size.{value_bits};
ghost use Rattle.group_search.specs.Canon.{rows_in};
ghost use Rattle.group_search.specs.Image.{Image};
ghost use Rattle.group_search.specs.Words.{HasBits};
ghost use Rattle.group_cell.specs.Opening.{HaveAllGroups};
ghost use Rattle.group_search.specs.Records.{HasNodes};
ghost use Rattle.group_cell.specs.Seats.{IsWriterOf, opened_with, published};

use crate::layout::PLACES;
use crate::table::laying::{LaidTable, lay};
use crate::table::{CellTable, WriterSeat};
use crate::view::Opening;
use atomic_table::Table;
use flow_types::Shape;
use group_search::BlockImage;
use out_of_memory::OutOfMemory;
use std::alloc::{AllocError, Global};
use std::marker::Model;
use std::snapshot::Snapshot;

/// What tables of some blocks are opened with: the images of the blocks, and the words in which they are laid.
///
/// It is made once for any number of tables, as for the nodes of a cluster, which start with the same records. A
/// contract sees the cluster's size, the images and the words.
#[derive(Drop)]
pub struct TablePlan {
    opening: Opening,
    owners: Vec<[u8; PLACES]>,
}

impl Model for TablePlan {
    ghost use Rattle.group_cell.specs.Laying.{IsPlanned};
    ghost use Rattle.group_cell.specs.Opening.{Opened};

    ghost Value = { Opened };

    ghost view = { λ p. p.opening };

    ghost invariant = { λ p. IsPlanned p.opening p.owners.items };
}

impl TablePlan {
    /// The plan of the groups of these blocks, numbered from 0, at their opening records.
    ///
    /// There is at least one image, no image has more than 64 rows in all, rows go to the cluster's nodes, and served
    /// records have the cluster's value bits. Memory is taken for the words, 2,560 octets a block, and for the tags of
    /// the places, 64 octets a block.
    pub fn of(
        alloc: Global,
        shape: Shape,
        images: Vec<BlockImage>,
    ) -> Result<TablePlan, OutOfMemory>
        requires has_a_block { 0 < length images.items }
        requires rows { All (λ (image : Image). sum_by rows_in image.records ≤ 64) images.items }
        requires bits { All (λ (image : Image). All (HasBits (value_bits shape.nodes)) image.records) images.items }
        requires in_cluster { All (λ (image : Image). All (HasNodes shape.nodes) image.records) images.items }

        ensures images { IfOk result (λ plan. plan.images ≡ images.items) }
        ensures size { IfOk result (λ plan. plan.size ≡ shape) }
    {
        let LaidTable { words, owners } = lay(alloc, images.as_slice())?;
        let opening = Opening {
            shape,
            images,
            words,
        };
        Ok(TablePlan { opening, owners })
    }
}

// Copies of the images.
fn copies(alloc: Global, images: &[BlockImage]) -> Result<Vec<BlockImage>, AllocError>
    ensures { IfOk result (λ copies. copies.items ≡ images.now) }
{
    let mut all = Vec::new(alloc);
    'images: for image in images {
        all.push(image.clone()?)?;
    }
    Ok(all)
}

impl CellTable {
    /// A table of the groups of these blocks, numbered from 0, at their opening records, and its writer's seat.
    ///
    /// There is at least one image, no image has more than 64 rows in all, rows go to the cluster's nodes, and served
    /// records have the cluster's value bits. Memory is taken for the table's words, 2,560 octets a block, for the tags
    /// of its places, and while it is opened for its plan. `open_plan` opens many tables of the same images.
    pub fn open(
        alloc: Global,
        shape: Shape,
        images: &[BlockImage],
    ) -> Result<(CellTable, WriterSeat), OutOfMemory>
        requires has_a_block { 0 < length images.now }
        requires rows { All (λ (image : Image). sum_by rows_in image.records ≤ 64) images.now }
        requires bits { All (λ (image : Image). All (HasBits (value_bits shape.nodes)) image.records) images.now }
        requires in_cluster { All (λ (image : Image). All (HasNodes shape.nodes) image.records) images.now }

        ensures images { IfOk result (λ r. (opened_with r.0).images ≡ images.now) }
        ensures size { IfOk result (λ r. (opened_with r.0).size ≡ shape) }
        ensures writer { IfOk result (λ r. IsWriterOf r.0 r.1) }
        ensures published { IfOk result (λ r. published r.1 ≡ []) }
    {
        let plan = TablePlan::of(alloc, shape, copies(alloc, images)?)?;
        CellTable::open_plan(alloc, &plan)
    }

    /// A table as the plan has it, and its writer's seat.
    ///
    /// Memory is taken for the table's words, 2,560 octets a block, and for the tags of its places.
    pub fn open_plan(
        alloc: Global,
        plan: &TablePlan,
    ) -> Result<(CellTable, WriterSeat), OutOfMemory>
        ensures opened { IfOk result (λ r. opened_with r.0 ≡ plan.now) }
        ensures full { IfOk result (λ r. HaveAllGroups (opened_with r.0).images) }
        ensures writer { IfOk result (λ r. IsWriterOf r.0 r.1) }
        ensures published { IfOk result (λ r. published r.1 ≡ []) }
    {
        let opening = &plan.opening;
        let owners = Vec::from_slice(alloc, plan.owners.as_slice())?;
        let about = Snapshot::of(opening);
        let (table, seat) = Table::of_words(alloc, opening.words.as_slice(), &about)?;
        let shape = opening.shape;
        Ok((CellTable { table, shape }, WriterSeat { seat, owners }))
    }
}
