//! A shard is opened.
ghost use Rattle.std.specs.Prelude.{◌≡◌, ◌<◌, [], List, IfOk};
ghost use Rattle.flow_types.specs.declared.record.Flow.{Flow};
ghost use Rattle.group_search.specs.Build.{IsBuild};
ghost use Rattle.replica_shard.specs.Seats.{IsShardWriterOf, opening_images, shard_taken, taken_list};
ghost use Rattle.replica_shard.specs.Shard.{shard_after};
ghost use Rattle.replica_shard.specs.Store.{AreOwnersImages, CanBeTables, shard_state_of};

use crate::shard::{Shard, ShardPlan, ShardWriter};
use flow_types::Shape;
use group_cell::CellTable;
use group_search::BlockImage;
use hash_family::Reciprocal;
use out_of_memory::OutOfMemory;
use std::alloc::Global;

impl Shard {
    /// The shard of the owner's blocks among the images of all blocks, which stand in the order of their blocks, and
    /// its writer's seat.
    ///
    /// The owner is one of the cluster's nodes and has at least one block. No image has more than 64 rows in all, rows
    /// go to the cluster's nodes, and served records have its value bits, as a build's. All its room is taken at once,
    /// 320 words a block; the images aren't kept. `open_plan` opens the shards of many nodes.
    pub fn open(
        alloc: Global,
        shape: Shape,
        owner: u8,
        images: &[BlockImage],
    ) -> Result<(Shard, ShardWriter), OutOfMemory>
        requires node { owner < shape.nodes }
        requires has_a_block { owner < shape.blocks }
        requires tables { CanBeTables shape images.now }
        ensures size { IfOk result (λ r. r.0.shape ≡ shape) }
        ensures owner { IfOk result (λ r. r.0.owner ≡ owner) }
        ensures images { IfOk result (λ r. AreOwnersImages shape owner images.now (opening_images r.0)) }
        ensures writer { IfOk result (λ r. IsShardWriterOf r.0 r.1) }
        ensures none_taken { IfOk result (λ r. taken_list r.0 r.1 ≡ []) }
        ensures built { IfOk result (λ r. (flows : List Flow) → IsBuild shape flows images.now → shard_state_of (shard_taken r.0 r.1) ≡ shard_after shape owner flows []) }
    {
        let plan = ShardPlan::of(alloc, shape, owner, images)?;
        Shard::open_plan(alloc, &plan)
    }

    /// A shard as the plan has it, and its writer's seat. All its room is taken at once, 320 words a block.
    pub fn open_plan(alloc: Global, plan: &ShardPlan) -> Result<(Shard, ShardWriter), OutOfMemory>
        ensures writer { IfOk result (λ r. IsShardWriterOf r.0 r.1) }
        ensures opened { IfOk result (λ r. shard_taken r.0 r.1 ≡ plan.now) }
    {
        let choices = Vec::from_slice(alloc, plan.choices.as_slice())?;
        let (table, seat) = CellTable::open_plan(alloc, &plan.cells)?;
        let (shape, owner) = (plan.shape, plan.owner);
        let share = 65_536 / u32::from(shape.nodes()) + 1;
        let shard = Shard {
            table,
            choices,
            shape,
            owner,
            share,
            reciprocal: Reciprocal::of(shape),
        };
        Ok((shard, ShardWriter { seat, taken: 0 }))
    }
}
