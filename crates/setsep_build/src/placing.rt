ghost use Rattle.std.specs.Prelude.{◌≡◌, ◌++◌, ◌∷◌, [], IfOk, OnOk, IsPermutation, filter, map};
ghost use Rattle.setsep_build.specs.Placing as placing;

use crate::cutting::Run;
use crate::placed::Placed;
use flow_types::{Flow, Shape};
use hash_family::{Place, place};
use rayon::prelude::*;
use std::alloc::{AllocError, Global};
use std::thread::Threads;

/// The flows where they stand, by block, then by bucket, then by key.
pub fn place_all<R: Threads + Sync>(
    rt: &R,
    alloc: Global,
    shape: Shape,
    flows: &[Flow],
) -> Result<Vec<Placed>, AllocError>
    ensures { IfOk result (λ all. placing.ArePlaced shape.blocks flows.now all.items) }
{
    let places = places_of(rt, alloc, shape, flows)?;
    let whole = Run {
        first: 0,
        count: shape.blocks(),
    };
    place_run(rt, alloc, shape, flows, &places, whole)
}

/// The place of each flow's key, as the flows came.
pub fn places_of<R: Threads + Sync>(
    rt: &R,
    alloc: Global,
    shape: Shape,
    flows: &[Flow],
) -> Result<Vec<Place>, AllocError>
    ensures { IfOk result (λ places. places.items ≡ map (placing.place_of shape.blocks) flows.now) }
{
    flows
        .par_iter()
        .map(
            |flow: &Flow| -> Place
                ensures { result ≡ placing.place_of shape.blocks flow.now }
            { place(shape, flow.key) },
        )
        .collect(rt, alloc)
}

/// The flows of a run's blocks where they stand, by block, then by bucket, then by key. The places are those of all flows
/// at this shape.
pub fn place_run<R: Threads + Sync>(
    rt: &R,
    alloc: Global,
    shape: Shape,
    flows: &[Flow],
    places: &[Place],
    run: Run,
) -> Result<Vec<Placed>, AllocError>
    requires { places.now ≡ map (placing.place_of shape.blocks) flows.now }
    ensures { IfOk result (λ all. placing.ArePlacedBy shape.blocks run flows.now all.items) }
{
    let mut all = flows_of(alloc, shape, flows, places, run)?;
    in_order(rt, &mut all);
    Ok(all)
}

/// The flows of a run's blocks where they stand, as they came.
fn flows_of(
    alloc: Global,
    shape: Shape,
    flows: &[Flow],
    places: &[Place],
    run: Run,
) -> Result<Vec<Placed>, AllocError>
    requires { places.now ≡ map (placing.place_of shape.blocks) flows.now }
    ensures { IfOk result (λ all. all.items ≡ placing.placed_by shape.blocks run flows.now) }
{
    let mut all = Vec::new(alloc);
    'flows: for at in 0..flows.len() {
        keep(&mut all, run, flows[at], places[at])?;
    }
    Ok(all)
}

/// Adds the flow where it stands if its block is one of the run's.
fn keep(all: &mut Vec<Placed>, run: Run, flow: Flow, at: Place) -> Result<(), AllocError>
    ensures { OnOk result (all.new.items ≡ all.old.items ++ filter (placing.is_in_run run) (placing.placed_at at flow ∷ [])) }
{
    if run.has(at.block) {
        all.push(Placed {
            key: flow.key,
            block: at.block,
            bucket: at.bucket,
            node: flow.node,
        })?;
    }
    Ok(())
}

/// Brings flows in order.
fn in_order<R: Threads + Sync>(rt: &R, all: &mut [Placed])
    ensures same { IsPermutation all.old all.new }
    ensures in_order { placing.AreInOrder all.new }
{
    par_sort_unstable_by_key(
        rt,
        all,
        |one: &Placed| -> (u16, u8, u128)
            ensures { result ≡ placing.rank one.now }
        { (one.block, one.bucket, one.key.number()) },
    );
}
