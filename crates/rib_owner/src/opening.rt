//! How an owner is opened: its blocks without flows first, then each flow at its place, and at last the flows of each bucket
//! side by side.

ghost use Rattle.std.specs.Prelude.{◌≡◌, ◌<◌, ◌≤◌, [], List, IfOk, OnOk, drop, length, map, take};
ghost use Rattle.flow_types.specs.Map.{AreDistinct};
ghost use Rattle.group_search.specs.Build.{IsBuild};
ghost use Rattle.rib_owner.specs.Opening.{AreFilled};
ghost use Rattle.rib_owner.specs.Rib.{IsRibOf};
ghost use Rattle.rib_owner.specs.Stock.{part_in};

use crate::block::OwnedBlock;
use crate::owner::Owner;
use flow_types::{Flow, Shape};
use group_history::Journal;
use group_search::{BlockImage, MOST_ENTRIES};
use hash_family::place;
use out_of_memory::OutOfMemory;
use std::alloc::Global;

impl Owner {
    /// The owner of this number, with the flows of its blocks and an empty journal.
    ///
    /// The images are those that the build gives for the flows, of which no two have one key. The room in which a group
    /// is gathered is taken here.
    pub fn open(
        alloc: Global,
        shape: Shape,
        number: u8,
        flows: &[Flow],
        images: &[BlockImage],
    ) -> Result<Owner, OutOfMemory>
        requires node { number < shape.nodes }
        requires distinct { AreDistinct flows.now }
        requires built { IsBuild shape flows.now images.now }
        ensures size { IfOk result (λ owner. owner.size ≡ shape) }
        ensures number { IfOk result (λ owner. owner.number ≡ number) }
        ensures journal { IfOk result (λ owner. owner.journal.changes ≡ []) }
        ensures stands { IfOk result (λ owner. IsRibOf shape flows.now owner) }
    {
        let blocks = filled_blocks(alloc, shape, number, flows, images)?;
        let room = Vec::with_capacity(alloc, MOST_ENTRIES)?;
        Ok(Owner {
            shape,
            number,
            blocks,
            journal: Journal::new(alloc),
            room,
        })
    }
}

/// For how many flows each block makes room at first: an eighth more than their mean.
fn likely_flows(flows: usize, blocks: u16) -> u32
    ensures { result ≤ 1536 }
{
    let mean = (flows / usize::from(blocks).max(1)).min(MOST_ENTRIES);
    (mean + mean / 8).min(MOST_ENTRIES) as u32
}

/// The owner's blocks without their flows.
fn empty_blocks(
    alloc: Global,
    shape: Shape,
    number: u8,
    flows: &[Flow],
    images: &[BlockImage],
) -> Result<Vec<OwnedBlock>, OutOfMemory>
    requires node { number < shape.nodes }
    requires built { IsBuild shape flows.now images.now }
    ensures { IfOk result (λ blocks. AreFilled shape number flows.now [] (map part_in blocks.items)) }
{
    let (nodes, count) = (shape.nodes(), shape.blocks());
    let room = likely_flows(flows.len(), count);
    let mut blocks = Vec::new(alloc);
    let mut block = u16::from(number);
    'dealt: while block < count {
        let image = &images[usize::from(block)];
        blocks.push(OwnedBlock::open(alloc, image, room)?)?;
        block += nodes;
    }
    Ok(blocks)
}

/// The owner's blocks with their flows.
fn filled_blocks(
    alloc: Global,
    shape: Shape,
    number: u8,
    flows: &[Flow],
    images: &[BlockImage],
) -> Result<Vec<OwnedBlock>, OutOfMemory>
    requires node { number < shape.nodes }
    requires built { IsBuild shape flows.now images.now }
    ensures { IfOk result (λ blocks. AreFilled shape number flows.now flows.now (map part_in blocks.items)) }
{
    let mut blocks = empty_blocks(alloc, shape, number, flows, images)?;
    'flows: for flow in flows {
        let at = place(shape, flow.key);
        if shape.owner(at.block) == number {
            let block = &mut blocks[usize::from(at.block / shape.nodes())];
            block.push(at.bucket, *flow)?;
        }
    }
    settle(blocks.as_mut_slice())?;
    Ok(blocks)
}

/// Lays the flows of each bucket of the blocks side by side, which were pushed as they came.
fn settle(blocks: &mut [OwnedBlock]) -> Result<(), OutOfMemory>
    ensures { map part_in blocks.new ≡ map part_in blocks.old }
{
    'settled: for index in 0..blocks.len() {
        blocks[index].settle()?;
    }
    Ok(())
}
