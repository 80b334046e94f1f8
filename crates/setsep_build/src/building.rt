ghost use Rattle.std.specs.Prelude.{◌≡◌, ◌⊎◌, ◌<◌, ◌≤◌, All, Ok, Err, IfOk, IfErr, length, map, slice_index_or};
ghost use Rattle.setsep_build.specs.declared.cutting.Run.{Run};
ghost use Rattle.flow_types.specs.Map.{AreDistinct};
ghost use Rattle.group_search.specs.Build.{IsBuild};
ghost use Rattle.group_search.specs.Records.{AreHandled};
ghost use Rattle.flow_types.specs.Size.{value_bits};
ghost use Rattle.setsep_build.specs.Parts.{ArePartsOf, IsNumbered, IsPartOf, joined};
ghost use Rattle.group_search.specs.declared.image.BlockImage.{BlockImage};
ghost use Rattle.setsep_build.specs.Placing.{place_of, placed};
ghost use Rattle.setsep_build.specs.Refused.{Refuses};
ghost use Rattle.setsep_build.specs.Workers.{most_workers};

use crate::cutting::{Run, cut, runs_for};
use crate::placing::places_of;
use crate::refused::BuildRefused;
use crate::running::part_of;
use flow_types::{Flow, Shape};
use group_search::BlockImage;
use hash_family::Place;
use std::alloc::{AllocError, Global};
use std::thread::{Threads, map_indices};

/// The greatest number of workers.
pub const MOST_WORKERS: u8 = 64;

/// The image of each block of the shape, in the order of the blocks, for flows with distinct keys and nodes of the
/// shape.
///
/// The flows are hashed by as many threads as there are processors. The blocks are cut into runs of neighbours, at most one
/// for each worker, 1..=64, and the runs are computed beside one another; each brings its flows in order first, again by as
/// many threads. The images are the same for any number of workers. Refused, it names the first block that is past a limit.
pub fn build<R: Threads + Sync>(
    rt: &R,
    alloc: Global,
    shape: Shape,
    flows: &[Flow],
    workers: u8,
) -> Result<Vec<BlockImage>, BuildRefused>
    requires distinct { AreDistinct flows.now }
    requires handled { AreHandled shape.nodes flows.now }
    requires some_worker { 1 ≤ workers }
    requires few_workers { workers ≤ most_workers }
    ensures built { IfOk result (λ images. IsBuild shape flows.now images.items) }
    ensures refused { IfErr result (λ why. Refuses shape flows.now why) }
{
    let places = places_of(rt, alloc, shape, flows)?;
    let runs = runs_for(flows.len(), shape.blocks(), workers);
    let cut = cut(alloc, shape.blocks(), runs)?;
    let parts = all_parts(rt, alloc, shape, flows, &places, &cut)?;
    join_parts(alloc, parts)
}

/// What the runs give, computed beside one another.
fn all_parts<R: Threads + Sync>(
    rt: &R,
    alloc: Global,
    shape: Shape,
    flows: &[Flow],
    places: &[Place],
    cut: &[Run],
) -> Result<Vec<Result<Vec<BlockImage>, BuildRefused>>, AllocError>
    requires distinct { AreDistinct flows.now }
    requires places { places.now ≡ map (place_of shape.blocks) flows.now }
    requires numbered { All IsNumbered cut.now }
    ensures { IfOk result (λ parts. ArePartsOf (λ images. images.items) (value_bits shape.nodes) (map (placed shape.blocks) flows.now) cut.now parts.items) }
{
    let part = |at: usize| -> Result<Vec<BlockImage>, BuildRefused>
        requires { AreDistinct flows.now × (places.now ≡ map (place_of shape.blocks) flows.now) × All IsNumbered cut.now × (at < length cut.now) }
        ensures { (run : Run) → IsPartOf (λ images. images.items) (value_bits shape.nodes) (map (placed shape.blocks) flows.entry.now) (slice_index_or cut.entry.now at run) result }
    { part_of(rt, alloc, shape, flows, places, cut[at]) };
    map_indices(rt, alloc, cut.len(), &part)
}

/// The images of all parts in their order, or the refusal of the first part that is refused.
fn join_parts(
    alloc: Global,
    parts: Vec<Result<Vec<BlockImage>, BuildRefused>>,
) -> Result<Vec<BlockImage>, BuildRefused>
    ensures images { IfOk result (λ images. joined (λ images. images.items) parts.items ≡ Ok images.items) }
    ensures refused { IfErr result (λ why. (why ≡ BuildRefused.OutOfMemory) ⊎ (joined (λ images. images.items) parts.items ≡ Err why)) }
{
    let mut images = Vec::new(alloc);
    'parts: for part in parts {
        images.append(&mut part?)?;
    }
    Ok(images)
}
