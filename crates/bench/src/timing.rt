use crate::searching::Search;
use crate::{building, choosing, searching, shards, work};
use flow_types::Shape;
use setsep_build::build;
use std::io;
use std::rt::Clock;
use std::thread::Threads;
use std::time::{Duration, Instant};

/// How many keys are hashed, blocks laid out, and groups searched.
const KEYS: u64 = 2_000_000;

const BLOCKS: u64 = 2_000;

const GROUPS: u64 = 1_000;

/// How many flows the table is built of, at four nodes and 256 blocks.
const FLOWS: u32 = 262_144;

/// Prints a line for each work: its name, what was done how often, the nanoseconds, and the checksum.
pub fn figures(rt: &(impl Print + AllocGlobal + Clock + Threads + Sync)) -> io::Result<()> {
    let start = Instant::now(rt)?;
    let sum = work::places(1, KEYS);
    line(rt, "place", KEYS, start.elapsed(rt)?, sum)?;

    let start = Instant::now(rt)?;
    let sum = work::pairs(1, KEYS);
    line(rt, "pair", KEYS, start.elapsed(rt)?, sum)?;

    let start = Instant::now(rt)?;
    let sum = choosing::choices(1, BLOCKS);
    line(rt, "choose", BLOCKS, start.elapsed(rt)?, sum)?;

    searches(rt, 16, GROUPS)?;
    searches(rt, 20, GROUPS / 10)?;
    table(rt)
}

/// Searches so many groups of so many keys, in lanes and plainly.
fn searches(rt: &(impl Print + AllocGlobal + Clock), keys: u64, groups: u64) -> io::Result<()> {
    let made = searching::groups(rt.alloc(), 1, groups, keys)?;
    'searches: for (search, name) in [(Search::Lanes, "least"), (Search::Plain, "least_plain")] {
        let start = Instant::now(rt)?;
        let found = searching::search_all(search, made.as_slice());
        let taken = start.elapsed(rt)?;
        let groups_name = format_args!("{name}_of_{keys}_keys:groups");
        line(rt, groups_name, groups, taken, found.sum)?;
        let indexes_name = format_args!("{name}_of_{keys}_keys:indexes");
        line(rt, indexes_name, found.tried, taken, found.sum)?;
    }
    Ok(())
}

/// Builds a table and looks each key up in its images.
fn table(rt: &(impl Print + AllocGlobal + Clock + Threads + Sync)) -> io::Result<()> {
    let Some(shape) = Shape::new(4, 256) else {
        return Ok(());
    };
    let flows = building::flows(rt.alloc(), shape, FLOWS)?;
    let start = Instant::now(rt)?;
    let Ok(images) = build(rt, rt.alloc(), shape, flows.as_slice(), 1) else {
        return println!(rt; "not built");
    };
    line(
        rt,
        "build_a_key",
        u64::from(FLOWS),
        start.elapsed(rt)?,
        images.len() as u64,
    )?;
    let start = Instant::now(rt)?;
    let found = building::found(shape, images.as_slice(), flows.as_slice());
    line(rt, "look", u64::from(FLOWS), start.elapsed(rt)?, found)?;
    let Some(image) = images.as_slice().first() else {
        return Ok(());
    };
    let start = Instant::now(rt)?;
    let first = building::decoded(image.record(0), shape.nodes(), flows.as_slice());
    line(rt, "decode", flows.len() as u64, start.elapsed(rt)?, first)?;
    shards::figures(rt, shape, images.as_slice(), flows.as_slice())
}

/// Prints a line of a work.
pub fn line(
    rt: &impl Print,
    name: impl std::fmt::Display + Drop,
    count: u64,
    taken: Duration,
    sum: u64,
) -> io::Result<()> {
    let nanos = taken.as_nanos();
    println!(rt; "{name} {count} {nanos} {sum}")
}
