//! An arena's 256 lists beside 256 vectors: opened, looked into, gathered, pushed to and taken from.

ghost use Rattle.std.specs.Prelude.{◌≡◌, ◌≤◌, IfOk, length};
ghost use Rattle.bucket_arena.specs.Arena.{item_count};

use bucket_arena::Arena;
use out_of_memory::OutOfMemory;
use std::alloc::Global;
use std::io;
use std::rt::Clock;
use std::time::{Duration, Instant};

/// How many flows each block has, and how often it is opened.
const FLOWS: u32 = 1_024;

const OPENINGS: u32 = 2_000;

/// How often a place is looked at, a group gathered, and an item taken and another put in its bucket.
const TIMES: u32 = 4_000_000;

/// As many octets as an owner keeps of a flow.
type Item = [u32; 6];

/// Prints a line for each work: its name, how often it was done, the nanoseconds, and a checksum. Each work is done over an
/// arena and over vectors by turns.
pub fn figures(rt: &(impl Print + AllocGlobal + Clock)) -> io::Result<()> {
    let alloc = rt.alloc();
    'rounds: for _ in 0..3u8 {
        let start = Instant::now(rt)?;
        let sum = openings(alloc);
        tell(rt, "arena_open_a_block", OPENINGS, start.elapsed(rt)?, sum)?;
        let start = Instant::now(rt)?;
        let sum = openings_of_lists(alloc);
        tell(rt, "lists_open_a_block", OPENINGS, start.elapsed(rt)?, sum)?;
        let (Ok(mut arena), Ok(mut lists)) = (filled(alloc), filled_lists(alloc)) else {
            return println!(rt; "no memory for a block");
        };
        let start = Instant::now(rt)?;
        let sum = looks(&arena);
        tell(rt, "arena_at", TIMES, start.elapsed(rt)?, sum)?;
        let start = Instant::now(rt)?;
        let sum = looks_in_lists(lists.as_slice());
        tell(rt, "lists_at", TIMES, start.elapsed(rt)?, sum)?;
        let start = Instant::now(rt)?;
        let sum = gathered(&arena);
        tell(rt, "arena_gather_16", TIMES, start.elapsed(rt)?, sum)?;
        let start = Instant::now(rt)?;
        let sum = gathered_of_lists(lists.as_slice());
        tell(rt, "lists_gather_16", TIMES, start.elapsed(rt)?, sum)?;
        let start = Instant::now(rt)?;
        let sum = changes(&mut arena);
        tell(rt, "arena_take_and_push", TIMES, start.elapsed(rt)?, sum)?;
        let start = Instant::now(rt)?;
        let sum = changes_of_lists(lists.as_mut_slice());
        tell(rt, "lists_take_and_push", TIMES, start.elapsed(rt)?, sum)?;
        let start = Instant::now(rt)?;
        let sum = looks(&arena);
        tell(rt, "arena_at_after", TIMES, start.elapsed(rt)?, sum)?;
        let start = Instant::now(rt)?;
        let sum = looks_in_lists(lists.as_slice());
        tell(rt, "lists_at_after", TIMES, start.elapsed(rt)?, sum)?;
        let start = Instant::now(rt)?;
        let sum = gathered(&arena);
        tell(rt, "arena_gather_16_after", TIMES, start.elapsed(rt)?, sum)?;
        let start = Instant::now(rt)?;
        let sum = gathered_of_lists(lists.as_slice());
        tell(rt, "lists_gather_16_after", TIMES, start.elapsed(rt)?, sum)?;
    }
    Ok(())
}

fn tell(rt: &impl Print, name: &str, count: u32, taken: Duration, sum: u32) -> io::Result<()> {
    let nanos = taken.as_nanos();
    println!(rt; "{name} {count} {nanos} {sum}")
}

/// The draw of this number.
fn draw(number: u32) -> u32 {
    let mixed = (number ^ (number >> 16)).wrapping_mul(0x7FEB_352D);
    let mixed = (mixed ^ (mixed >> 15)).wrapping_mul(0x846C_A68B);
    mixed ^ (mixed >> 16)
}

/// A block's flows in an arena, as an owner opens it: room for what is expected first, the flows as they come, and each
/// bucket laid side by side at the end. `Err` for want of memory.
fn filled(alloc: Global) -> Result<Arena<Item>, OutOfMemory>
    ensures { IfOk result (λ arena. item_count arena ≡ 1024) }
{
    let mut arena = Arena::new(alloc);
    arena.reserve(FLOWS + FLOWS / 8)?;
    'pushed: for number in 0..FLOWS {
        arena.reserve(1)?;
        arena.push((draw(number) % 256) as u8, [number; 6]);
    }
    arena.settle()?;
    Ok(arena)
}

/// A block's flows in 256 vectors, or `Err` for want of memory.
fn filled_lists(alloc: Global) -> Result<Vec<Vec<Item>>, OutOfMemory>
    ensures { IfOk result (λ lists. length lists.items ≡ 256) }
{
    let mut lists = Vec::with_capacity(alloc, 256)?;
    'lists: for _ in 0..256u16 {
        lists.push(Vec::new(alloc))?;
    }
    'pushed: for number in 0..FLOWS {
        lists[(draw(number) % 256) as usize].push([number; 6])?;
    }
    Ok(lists)
}

fn openings(alloc: Global) -> u32 {
    let mut opened = 0;
    'openings: for _ in 0..OPENINGS {
        if filled(alloc).is_ok() {
            opened = u32::wrapping_add(opened, 1);
        }
    }
    opened
}

fn openings_of_lists(alloc: Global) -> u32 {
    let mut opened = 0;
    'openings: for _ in 0..OPENINGS {
        if filled_lists(alloc).is_ok() {
            opened = u32::wrapping_add(opened, 1);
        }
    }
    opened
}

/// The sum of an item's words: an owner reads most of a flow, and a loop over first words alone is unrolled otherwise over an
/// arena than over vectors.
fn folded(item: Item) -> u32 {
    let [a, b, c, d, e, f] = item;
    a.wrapping_add(b)
        .wrapping_add(c)
        .wrapping_add(d)
        .wrapping_add(e)
        .wrapping_add(f)
}

/// Looks at places of buckets, both drawn.
fn looks(arena: &Arena<Item>) -> u32 {
    let mut sum = 0u32;
    'looks: for number in 0..TIMES {
        let drawn = draw(number);
        let bucket = (drawn % 256) as u8;
        let len = arena.len(bucket);
        if len > 0 {
            sum = sum.wrapping_add(folded(arena.at(bucket, drawn / 256 % len)));
        }
    }
    sum
}

fn looks_in_lists(lists: &[Vec<Item>]) -> u32
    requires { length lists.now ≡ 256 }
{
    let mut sum = 0u32;
    'looks: for number in 0..TIMES {
        let drawn = draw(number);
        let list = lists[(drawn % 256) as usize].as_slice();
        if list.len() > 0 {
            sum = sum.wrapping_add(folded(list[(drawn / 256) as usize % list.len()]));
        }
    }
    sum
}

/// Goes over the items of four buckets each time.
fn gathered(arena: &Arena<Item>) -> u32 {
    let mut sum = 0u32;
    'groups: for number in 0..TIMES {
        let group = (draw(number) % 64) as u8;
        'buckets: for quarter in 0..4u8 {
            'items: for item in arena.iter(64 * quarter + group) {
                sum = sum.wrapping_add(folded(item));
            }
        }
    }
    sum
}

fn gathered_of_lists(lists: &[Vec<Item>]) -> u32
    requires { length lists.now ≡ 256 }
{
    let mut sum = 0u32;
    'groups: for number in 0..TIMES {
        let group = (draw(number) % 64) as usize;
        'buckets: for quarter in 0..4usize {
            'items: for item in lists[64 * quarter + group].as_slice() {
                sum = sum.wrapping_add(folded(*item));
            }
        }
    }
    sum
}

/// Takes an item of a bucket, both drawn, and puts it last.
fn changes(arena: &mut Arena<Item>) -> u32 {
    let mut sum = 0u32;
    'changes: for number in 0..TIMES {
        let drawn = draw(number);
        let bucket = (drawn % 256) as u8;
        let len = arena.len(bucket);
        if len > 0 {
            let item = arena.take(bucket, drawn / 256 % len);
            sum = sum.wrapping_add(item[0]);
            arena.push(bucket, item);
        }
    }
    sum
}

fn changes_of_lists(lists: &mut [Vec<Item>]) -> u32
    requires { length lists.old ≡ 256 }
{
    let mut sum = 0u32;
    'changes: for number in 0..TIMES {
        let drawn = draw(number);
        let list = &mut lists[(drawn % 256) as usize];
        if list.len() > 0 {
            let place = (drawn / 256) as usize % list.len();
            let item = list.remove(place);
            sum = sum.wrapping_add(item[0]);
            let _ = list.push(item);
        }
    }
    sum
}
