//! What the shards of one owner are opened with.
ghost use Rattle.std.specs.Prelude.{◌≡◌, ◌<◌, List, [], IfOk, length, map};
ghost use Rattle.flow_types.specs.declared.record.Flow.{Flow};
ghost use Rattle.group_search.specs.Build.{IsBuild};
ghost use Rattle.group_search.specs.Image.{Image};
ghost use Rattle.replica_shard.specs.Shard.{shard_after};
ghost use Rattle.replica_shard.specs.Store.{AreOwnersImages, CanBeTables, shard_state_of};

use block_layout::Choices;
use flow_types::Shape;
use group_cell::TablePlan;
use group_search::BlockImage;
use out_of_memory::OutOfMemory;
use std::alloc::{AllocError, Global};
use std::marker::Model;

/// What the shards of one owner's blocks are opened with, once for all nodes: each node's starts with the same records.
///
/// It keeps copies of the owner's images.
#[derive(Drop)]
pub struct ShardPlan {
    pub(crate) cells: TablePlan,
    pub(crate) choices: Vec<Choices>,
    pub(crate) shape: Shape,
    pub(crate) owner: u8,
}

impl Model for ShardPlan {
    ghost use Rattle.std.specs.Prelude.{[]};
    ghost use Rattle.replica_shard.specs.Owners.{AreOwnersCells};
    ghost use Rattle.replica_shard.specs.Store.{ShardStore};

    ghost Value = { ShardStore };

    ghost view = { λ p. record { size = p.shape; owner = p.owner; images = p.cells.images; list = [] } };

    ghost invariant = { λ p. AreOwnersCells p.shape p.owner p.choices.items p.cells };
}

impl ShardPlan {
    /// The plan for the owner's blocks among the images of all blocks, which stand in the order of their blocks.
    ///
    /// The owner is one of the cluster's nodes and has at least one block. No image has more than 64 rows in all, rows
    /// go to the cluster's nodes, and served records have its value bits, as a build's.
    pub fn of(
        alloc: Global,
        shape: Shape,
        owner: u8,
        images: &[BlockImage],
    ) -> Result<ShardPlan, OutOfMemory>
        requires node { owner < shape.nodes }
        requires has_a_block { owner < shape.blocks }
        requires tables { CanBeTables shape images.now }
        ensures size { IfOk result (λ plan. plan.size ≡ shape) }
        ensures owner { IfOk result (λ plan. plan.owner ≡ owner) }
        ensures none_taken { IfOk result (λ plan. plan.list ≡ []) }
        ensures images { IfOk result (λ plan. AreOwnersImages shape owner images.now plan.images) }
        ensures built { IfOk result (λ plan. (flows : List Flow) → IsBuild shape flows images.now → shard_state_of plan ≡ shard_after shape owner flows []) }
    {
        let own = owners_images(alloc, shape, owner, images)?;
        let choices = choices_of(alloc, own.as_slice())?;
        Ok(ShardPlan {
            cells: TablePlan::of(alloc, shape, own)?,
            choices,
            shape,
            owner,
        })
    }
}

/// The images of the owner's blocks, in their order.
fn owners_images(
    alloc: Global,
    shape: Shape,
    owner: u8,
    images: &[BlockImage],
) -> Result<Vec<BlockImage>, AllocError>
    requires { length images.now ≡ shape.blocks }
    ensures { IfOk result (λ own. AreOwnersImages shape owner images.now own.items) }
{
    let (nodes, count) = (shape.nodes(), shape.blocks());
    let mut own = Vec::new(alloc);
    let mut block = u16::from(owner);
    'dealt: while block < count {
        own.push(images[usize::from(block)].clone()?)?;
        block += nodes;
    }
    Ok(own)
}

/// The choices of each of these blocks.
fn choices_of(alloc: Global, images: &[BlockImage]) -> Result<Vec<Choices>, AllocError>
    ensures { IfOk result (λ choices. choices.items ≡ map (λ (image : Image). image.choices) images.now) }
{
    images.iter().map(|image| *image.choices()).collect(alloc)
}
