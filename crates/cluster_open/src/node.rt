//! What a node has before any owner's first turn.

ghost use Rattle.std.specs.Prelude.{◌≡◌, ◌<◌, ◌≤◌, [], IfOk, map};
ghost use Rattle.flow_types.specs.Map.{AreDistinct};
ghost use Rattle.partial_fib.specs.Fib.{fib_after};
ghost use Rattle.partial_fib.specs.Store.{state_of};
ghost use Rattle.replica_shard.specs.Shard.{shard_after};
ghost use Rattle.replica_shard.specs.Store.{shard_state_of};
ghost use Rattle.flow_types.specs.Size.{owners_in};
ghost use Rattle.cluster_open.specs.Opened.{AreOpened, IsOpenedNode};

use crate::dealing::deal;
use crate::table::Table;
use flow_types::{Flow, Shape};
use out_of_memory::OutOfMemory;
use partial_fib::Fib;
use replica_shard::ShardPlan;
use std::alloc::Global;

/// What a node has of each owner that has a block, by the owner's number.
#[derive(Drop)]
pub struct NodeParts {
    /// Its table of the owner's blocks.
    pub tables: Vec<Table>,
    /// Its FIB of the owner.
    pub fibs: Vec<Fib>,
}

impl NodeParts {
    /// The parts of the node of this number, before any owner's first turn.
    pub(crate) fn open(
        alloc: Global,
        shape: Shape,
        number: u8,
        flows: &[Flow],
        plans: &[ShardPlan],
    ) -> Result<NodeParts, OutOfMemory>
        requires node { number < shape.nodes }
        requires distinct { AreDistinct flows.now }
        requires planned { AreOpened (owners_in shape) (λ owner. shard_after shape owner flows.now []) (map shard_state_of plans.now) }
        ensures { IfOk result (IsOpenedNode shape flows.now number) }
    {
        let owners = shape.nodes().min(shape.blocks()) as u8;
        Ok(NodeParts {
            tables: tables(alloc, plans)?,
            fibs: fibs(alloc, shape, number, owners, flows)?,
        })
    }
}

/// A table as each of these plans has it.
fn tables(alloc: Global, plans: &[ShardPlan]) -> Result<Vec<Table>, OutOfMemory>
    ensures { IfOk result (λ tables. tables.items ≡ plans.now) }
{
    let mut tables = Vec::new(alloc);
    'plans: for plan in plans {
        tables.push(Table::open(alloc, plan)?)?;
    }
    Ok(tables)
}

/// The node's FIB of each of the first owners.
fn fibs(
    alloc: Global,
    shape: Shape,
    number: u8,
    owners: u8,
    flows: &[Flow],
) -> Result<Vec<Fib>, OutOfMemory>
    requires node { number < shape.nodes }
    requires nodes { owners ≤ shape.nodes }
    requires blocks { owners ≤ shape.blocks }
    requires distinct { AreDistinct flows.now }
    ensures { IfOk result (λ fibs. AreOpened owners (λ owner. fib_after shape number owner flows.now []) (map state_of fibs.items)) }
{
    let dealt = deal(alloc, shape, number, flows)?;
    let mut fibs = Vec::new(alloc);
    'owners: for owner in 0..owners {
        let own = dealt[usize::from(owner)].as_slice();
        fibs.push(Fib::open(alloc, shape, number, owner, own)?)?;
    }
    Ok(fibs)
}
