//! Looks at groups that are rewritten in place, and publications, by one thread and by several.

ghost use Rattle.std.specs.Prelude.{◌≡◌, ◌+◌, ◌<◌, ◌≤◌, All, IfOk, IfSome, length, sum_by};
ghost use Rattle.group_search.specs.Canon.{rows_in};
ghost use Rattle.group_search.specs.Image.{Image};
ghost use Rattle.group_search.specs.Words.{HasBits};
ghost use Rattle.group_search.specs.Records.{HasNodes};
ghost use Rattle.group_cell.specs.Seats.{IsReaderOf, IsWriterOf, opened_with, published};

use crate::elapsed::since;
use crate::keys::key;
use block_layout::choose;
use flow_types::Shape;
use group_cell::{CellTable, ReaderSeat, WriterSeat};
use group_search::{BlockImage, GroupRecord, Pair, Served};
use hash_family::mix;
use std::alloc::{AllocError, Global};
use std::io;
use std::rt::Clock;
use std::thread::{Threads, join};
use std::time::{Duration, Instant};

/// How many looks or publications each thread makes.
const TIMES: u64 = 5_000_000;

/// What a thread did: how long it took, how many of its looks met a group that was being rewritten, and the sum of the
/// nodes that the others found.
#[derive(Clone, Copy)]
pub struct Run {
    taken: Duration,
    changing: u64,
    nodes: u64,
}

/// Prints a line for each thread: its name, how often it looked or published, the nanoseconds, how many of its looks
/// found nothing, and the sum of the nodes that the others found.
pub fn figures<R: Print + AllocGlobal + Clock + Threads + Sync>(rt: &R) -> io::Result<()> {
    let Some((table, mut writer)) = opened(rt.alloc())? else {
        return println!(rt; "no memory for a table");
    };
    let table = &table;
    let one = table.reader(&mut writer);
    tell(rt, "cells_look", looks(rt, table, one))?;
    let (mut writer, alone) = publications(rt, table, writer);
    tell(rt, "cells_publish", alone)?;
    let one = table.reader(&mut writer);
    let ((mut writer, published), a) = beside(rt, table, writer, one);
    tell(rt, "cells_publish_beside_one", published)?;
    tell(rt, "cells_look_beside_a_writer", a)?;
    let one = table.reader(&mut writer);
    let two = table.reader(&mut writer);
    let (a, b) = two_looks(rt, table, one, two);
    tell(rt, "cells_look_of_two", a)?;
    tell(rt, "cells_look_of_two", b)
}

/// A table of 256 blocks, or `None` for want of memory.
pub fn opened(alloc: Global) -> io::Result<Option<(CellTable, WriterSeat)>>
    ensures writer { IfOk result (λ found. IfSome found (λ made. IsWriterOf made.0 made.1)) }
    ensures blocks { IfOk result (λ found. IfSome found (λ made. length (opened_with made.0).images ≡ 256)) }
    ensures nodes { IfOk result (λ found. IfSome found (λ made. (opened_with made.0).size.nodes ≡ 16)) }
    ensures few { IfOk result (λ found. IfSome found (λ made. length (published made.1) ≡ 0)) }
{
    let Some(shape) = Shape::new(16, 256) else {
        return Ok(None);
    };
    let images = images(alloc)?;
    match CellTable::open(alloc, shape, images.as_slice()) {
        Ok(made) => Ok(Some(made)),
        Err(_) => Ok(None),
    }
}

/// Prints the line of a thread.
pub fn tell(rt: &impl Print, name: &str, run: Run) -> io::Result<()> {
    let nanos = run.taken.as_nanos();
    println!(rt; "{name} {TIMES} {nanos} {} {}", run.changing, run.nodes)
}

/// Looks keys up in groups over the whole table.
pub fn looks(rt: &impl Clock, table: &CellTable, mut reader: ReaderSeat) -> Run
    requires reader { IsReaderOf table.now reader }
    requires blocks { length (opened_with table.now).images ≡ 256 }
{
    let start = Instant::now(rt);
    let mut changing = 0u64;
    let mut nodes = 0u64;
    'looks: for number in 0..TIMES {
        let drawn = mix(number % 262_144);
        let (block, group) = ((drawn % 256) as u16, (drawn / 256 % 64) as u8);
        match table.look(&mut reader, block, group, key(1, number)) {
            Ok(look) => nodes = nodes.wrapping_add(u64::from(look.node.unwrap_or(0))),
            Err(_) => changing = changing.wrapping_add(1),
        }
    }
    let taken = since(rt, start);
    Run {
        taken,
        changing,
        nodes,
    }
}

/// Publishes a record for groups over the whole table.
fn publications(rt: &impl Clock, table: &CellTable, mut writer: WriterSeat) -> (WriterSeat, Run)
    requires writer { IsWriterOf table.now writer }
    requires blocks { length (opened_with table.now).images ≡ 256 }
    requires nodes { (opened_with table.now).size.nodes ≡ 16 }
    requires few { length (published writer) + 5000000 < 4294967295 }
    ensures writer { IsWriterOf table.now result.0 }
    ensures count { length (published result.0) ≤ length (published writer) + 5000000 }
{
    let start = Instant::now(rt);
    let content = served(77);
    'turns: for number in 0..TIMES {
        let drawn = mix(number);
        let (block, group) = ((drawn % 256) as u16, (drawn / 256 % 64) as u8);
        if content.rows() <= table.room(&writer, block, group) {
            table.publish(&mut writer, block, group, &content);
        }
    }
    let taken = since(rt, start);
    let run = Run {
        taken,
        changing: 0,
        nodes: 0,
    };
    (writer, run)
}

/// The looks of two threads.
pub fn two_looks<R: Threads + Clock + Sync>(
    rt: &R,
    table: &CellTable,
    one: ReaderSeat,
    two: ReaderSeat,
) -> (Run, Run)
    requires one { IsReaderOf table.now one }
    requires two { IsReaderOf table.now two }
    requires blocks { length (opened_with table.now).images ≡ 256 }
{
    join(rt, || looks(rt, table, one), || looks(rt, table, two))
}

/// Publications beside the looks of one reader.
pub fn beside<R: Threads + Clock + Sync>(
    rt: &R,
    table: &CellTable,
    writer: WriterSeat,
    one: ReaderSeat,
) -> ((WriterSeat, Run), Run)
    requires writer { IsWriterOf table.now writer }
    requires one { IsReaderOf table.now one }
    requires blocks { length (opened_with table.now).images ≡ 256 }
    requires nodes { (opened_with table.now).size.nodes ≡ 16 }
    requires few { length (published writer) + 5000000 < 4294967295 }
    ensures writer { IsWriterOf table.now result.0.0 }
    ensures count { length (published result.0.0) ≤ length (published writer) + 5000000 }
{
    join(
        rt,
        || publications(rt, table, writer),
        || looks(rt, table, one),
    )
}

/// The images of 256 blocks of served groups.
fn images(alloc: Global) -> Result<Vec<BlockImage>, AllocError>
    ensures count { IfOk result (λ all. length all.items ≡ 256) }
    ensures rows { IfOk result (λ all. All (λ (image : Image). sum_by rows_in image.records ≤ 64) all.items) }
    ensures bits { IfOk result (λ all. All (λ (image : Image). All (HasBits 4) image.records) all.items) }
    ensures in_cluster { IfOk result (λ all. All (λ (image : Image). All (HasNodes 16) image.records) all.items) }
{
    let mut all = Vec::new(alloc);
    'images: for block in 0..256u64 {
        all.push(image(alloc, block * 64)?)?;
    }
    Ok(all)
}

fn image(alloc: Global, seed: u64) -> Result<BlockImage, AllocError>
    ensures rows { IfOk result (λ image. sum_by rows_in image.records ≤ 64) }
    ensures bits { IfOk result (λ image. All (HasBits 4) image.records) }
    ensures in_cluster { IfOk result (λ image. All (HasNodes 16) image.records) }
{
    let mut records = Vec::new(alloc);
    'records: for number in 0..64u8 {
        records.push(served(mix(seed / 2 + u64::from(number))))?;
    }
    Ok(BlockImage::new(choose(&[0; 256]), records))
}

fn served(seed: u64) -> GroupRecord
    ensures bits { HasBits 4 result }
    ensures in_cluster { HasNodes 16 result }
    ensures rows { rows_in result ≡ 0 }
{
    let pair = |drawn: u64| Pair {
        index: (drawn % 500) as u16,
        array: (drawn / 500 % 256) as u8,
    };
    GroupRecord::Served(Served {
        bits: 4,
        pairs: [pair(seed), pair(seed / 3), pair(seed / 5), pair(seed / 7)],
    })
}
