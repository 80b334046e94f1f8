ghost use Rattle.std.specs.Prelude.{◌≡◌, map};
ghost use Rattle.flow_types.specs.Map.{AreDistinct};
ghost use Rattle.flow_types.specs.Size.{value_bits};
ghost use Rattle.setsep_build.specs.Parts.{AreReady, IsNumbered, IsPartOf};
ghost use Rattle.setsep_build.specs.Placing.{place_of, placed};

use crate::cutting::Run;
use crate::groups::Groups;
use crate::imaging::image_of;
use crate::placed::{Placed, placed_in};
use crate::placing::place_run;
use crate::refused::BuildRefused;
use flow_types::{Flow, Shape};
use group_search::BlockImage;
use hash_family::Place;
use std::alloc::Global;
use std::thread::Threads;

/// What a run gives, of flows with distinct keys and the places of all of them: it brings its own flows in order, and then
/// makes the images of its blocks.
pub fn part_of<R: Threads + Sync>(
    rt: &R,
    alloc: Global,
    shape: Shape,
    flows: &[Flow],
    places: &[Place],
    run: Run,
) -> Result<Vec<BlockImage>, BuildRefused>
    requires distinct { AreDistinct flows.now }
    requires places { places.now ≡ map (place_of shape.blocks) flows.now }
    requires numbered { IsNumbered run }
    ensures { IsPartOf (λ images. images.items) (value_bits shape.nodes) (map (placed shape.blocks) flows.now) run result }
{
    let all = place_run(rt, alloc, shape, flows, places, run)?;
    images_of(alloc, shape.value_bits(), &all, run)
}

/// The images of the blocks of a run, one block after the other.
fn images_of(
    alloc: Global,
    bits: u8,
    all: &[Placed],
    run: Run,
) -> Result<Vec<BlockImage>, BuildRefused>
    requires ready { AreReady bits all.now }
    requires numbered { IsNumbered run }
    ensures { IsPartOf (λ images. images.items) bits all.now run result }
{
    let mut images = Vec::with_capacity(alloc, run.count as usize)?;
    let mut room = Groups::new(alloc)?;
    'images: for block in run.first..run.first + run.count {
        let placed = placed_in(all, block);
        images.push(image_of(alloc, bits, block, placed, &mut room)?)?;
    }
    Ok(images)
}
