//! Builds by one, two and four workers. Elapsed time: what runs beside them makes them slower.

ghost use Rattle.std.specs.Prelude.{◌≤◌};
ghost use Rattle.flow_types.specs.Map.{AreDistinct};
ghost use Rattle.group_search.specs.Records.{AreHandled};
ghost use Rattle.setsep_build.specs.Workers.{most_workers};

use crate::building;
use flow_types::{Flow, Shape};
use setsep_build::{build, place_all};
use std::io;
use std::rt::Clock;
use std::thread::Threads;
use std::time::Instant;

/// How many flows the large table is built of, and how many the small one.
const MANY: u32 = 262_144;

const FEW: u32 = 1_000;

/// Prints a line for each work, at 16 nodes and 256 blocks: its name, how many flows, the nanoseconds, and how many flows
/// or blocks came of it.
pub fn figures<R: Print + AllocGlobal + Clock + Threads + Sync>(rt: &R) -> io::Result<()> {
    let Some(shape) = Shape::new(16, 256) else {
        return Ok(());
    };
    let many = building::flows(rt.alloc(), shape, MANY)?;
    let start = Instant::now(rt)?;
    let all = place_all(rt, rt.alloc(), shape, many.as_slice())?;
    let nanos = start.elapsed(rt)?.as_nanos();
    println!(rt; "place_all_a_key {MANY} {nanos} {}", all.len())?;
    'many: for workers in [1, 2, 4] {
        line(rt, shape, many.as_slice(), workers)?;
    }
    let few = building::flows(rt.alloc(), shape, FEW)?;
    'few: for workers in [1, 4] {
        line(rt, shape, few.as_slice(), workers)?;
    }
    Ok(())
}

/// Builds a table by so many workers.
fn line<R: Print + AllocGlobal + Clock + Threads + Sync>(
    rt: &R,
    shape: Shape,
    flows: &[Flow],
    workers: u8,
) -> io::Result<()>
    requires distinct { AreDistinct flows.now }
    requires handled { AreHandled shape.nodes flows.now }
    requires some_worker { 1 ≤ workers }
    requires few_workers { workers ≤ most_workers }
{
    let start = Instant::now(rt)?;
    let Ok(images) = build(rt, rt.alloc(), shape, flows, workers) else {
        return println!(rt; "not built");
    };
    let nanos = start.elapsed(rt)?.as_nanos();
    let count = flows.len();
    println!(rt;
        "build_of_{count}_by_{workers}_a_key {count} {nanos} {}",
        images.len()
    )
}
