ghost use Rattle.std.specs.Prelude.{◌≡◌, ◌+◌, ◌<◌, ◌≤◌, All, IfOk, IfSome, length, sum_by};
ghost use Rattle.group_search.specs.Canon.{rows_in};
ghost use Rattle.group_search.specs.Words.{HasBits};
ghost use Rattle.group_search.specs.Records.{HasNodes};
ghost use Rattle.group_cell.specs.Rule.{IsIn};
ghost use Rattle.group_cell.specs.Seats.{IsReaderOf, IsWriterOf, opened_with, published, the_group};

use crate::{CellTable, ReaderSeat, WriterSeat};
use block_layout::choose;
use flow_types::{FlowKey, Shape};
use group_search::{BlockImage, GroupRecord, Pair, Row, Rows, Served};
use std::alloc::{AllocError, Global};
use std::test::Fail;
use std::thread::{Threads, join};

fn key(number: u8) -> FlowKey {
    FlowKey {
        source: 0,
        destination: 0,
        source_port: 0,
        destination_port: 0,
        protocol: number,
    }
}

/// A record of four value bits that gives each key this node, one of sixteen.
fn served(node: u8) -> GroupRecord
    ensures bits { HasBits 4 result }
    ensures in_cluster { HasNodes 16 result }
    ensures rows { rows_in result ≡ 0 }
{
    let pair = |bit: u8| Pair {
        index: 0,
        array: if node & bit == 0 { 0 } else { 255 },
    };
    GroupRecord::Served(Served {
        bits: 4,
        pairs: [pair(1), pair(2), pair(4), pair(8)],
    })
}

/// A record with this many rows, 2..=64, of the keys from 1 up, each with this node, one of sixteen.
fn fallback(count: u8, node: u8) -> Option<GroupRecord>
    requires { count ≤ 64 }
    ensures bits { IfSome result (λ content. HasBits 4 content) }
    ensures in_cluster { IfSome result (λ content. HasNodes 16 content) }
{
    let mut rows = [Row::default(); 64];
    'rows: for place in 0..count {
        rows[usize::from(place)] = Row {
            key: key(place + 1),
            node,
        };
    }
    let rows = &rows[..usize::from(count)];
    if !rows.iter().all(|row| row.node < 16) {
        return None;
    }
    Some(GroupRecord::Fallback(Rows::of(rows)?))
}

/// An image whose records all give each key node 0.
fn image(alloc: Global) -> Result<BlockImage, AllocError>
    ensures rows { IfOk result (λ image. sum_by rows_in image.records ≤ 64) }
    ensures bits { IfOk result (λ image. All (HasBits 4) image.records) }
    ensures in_cluster { IfOk result (λ image. All (HasNodes 16) image.records) }
{
    let mut records = Vec::new(alloc);
    'records: for _ in 0..64u8 {
        records.push(served(0))?;
    }
    Ok(BlockImage::new(choose(&[0; 256]), records))
}

/// A table of two blocks for sixteen nodes, and its writer's seat.
fn table(alloc: Global) -> Result<(CellTable, WriterSeat), Fail>
    ensures writer { IfOk result (λ r. IsWriterOf r.0 r.1) }
    ensures blocks { IfOk result (λ r. length (opened_with r.0).images ≡ 2) }
    ensures nodes { IfOk result (λ r. (opened_with r.0).size.nodes ≡ 16) }
    ensures published { IfOk result (λ r. length (published r.1) ≡ 0) }
{
    let shape = Shape::new(16, 2).ok_or("shape")?;
    let images = [image(alloc)?, image(alloc)?];
    Ok(CellTable::open(alloc, shape, &images)?)
}

/// Publishes a record where there is room for it.
fn publish(
    table: &CellTable,
    writer: &mut WriterSeat,
    block: u16,
    group: u8,
    content: &GroupRecord,
) -> bool
    requires writer { IsWriterOf table.now writer.old }
    requires inside { IsIn (opened_with table.now) (the_group block group) }
    requires nodes { (opened_with table.now).size.nodes ≡ 16 }
    requires bits { HasBits 4 content.now }
    requires in_cluster { HasNodes 16 content.now }
    requires few { length (published writer.old) < 4294967295 }
    ensures writer { IsWriterOf table.now writer.new }
    ensures count { length (published writer.new) ≤ length (published writer.old) + 1 }
{
    if content.rows() > table.room(writer, block, group) {
        return false;
    }
    table.publish(writer, block, group, content);
    true
}

/// What a look at a key finds: the version and the node, or 9 for each where the group was being rewritten.
fn found(
    table: &CellTable,
    reader: &mut ReaderSeat,
    block: u16,
    group: u8,
    key: FlowKey,
) -> (u32, Option<u8>)
    requires reader { IsReaderOf table.now reader.old }
    requires inside { IsIn (opened_with table.now) (the_group block group) }
    ensures { IsReaderOf table.now reader.new }
{
    table
        .look(reader, block, group, key)
        .map_or((9, Some(9)), |look| (look.version, look.node))
}

/// Whether looks at the group of the first block find this version and node for each key from 1 up.
fn finds_all(
    table: &CellTable,
    reader: &mut ReaderSeat,
    group: u8,
    count: u8,
    expected: (u32, Option<u8>),
) -> bool
    requires reader { IsReaderOf table.now reader.old }
    requires inside { IsIn (opened_with table.now) (the_group 0 group) }
    requires count { count < 255 }
    ensures { IsReaderOf table.now reader.new }
{
    'keys: for number in 0..count {
        if found(table, reader, 0, group, key(number + 1)) != expected {
            return false;
        }
    }
    true
}

#[test]
fn reads_a_write_back(rt: HostRuntime) -> Result<(), Fail> {
    let (table, mut writer) = table(rt.alloc())?;
    let mut reader = table.reader(&mut writer);
    assert!(rt; publish(&table, &mut writer, 1, 63, &served(3)));
    table.meet(&mut reader, &mut writer);
    assert_eq!(rt; found(&table, &mut reader, 1, 63, key(1)), (1, Some(3)));
    assert_eq!(rt; found(&table, &mut reader, 1, 62, key(1)), (0, Some(0)));
    assert_eq!(rt; found(&table, &mut reader, 0, 63, key(1)), (0, Some(0)));
    let own = table.look_own(&mut writer, 1, 63, key(1));
    assert_eq!(rt; (own.version, own.node), (1, Some(3)));
    Ok(())
}

#[test]
fn rows_come_and_go(rt: HostRuntime) -> Result<(), Fail> {
    let (table, mut writer) = table(rt.alloc())?;
    let mut reader = table.reader(&mut writer);
    let most = fallback(64, 7).ok_or("rows")?;
    let two = fallback(2, 8).ok_or("rows")?;
    let others = fallback(62, 9).ok_or("rows")?;
    assert_eq!(rt; table.room(&writer, 0, 5), 64);
    assert!(rt; publish(&table, &mut writer, 0, 5, &most));
    assert_eq!(rt; table.room(&writer, 0, 5), 64);
    assert_eq!(rt; table.room(&writer, 0, 6), 0);
    assert_eq!(rt; table.room(&writer, 1, 6), 64);
    assert!(rt; !publish(&table, &mut writer, 0, 6, &two));
    assert!(rt; finds_all(&table, &mut reader, 5, 64, (1, Some(7))));
    assert!(rt; publish(&table, &mut writer, 0, 5, &two));
    assert_eq!(rt; table.room(&writer, 0, 6), 62);
    assert!(rt; publish(&table, &mut writer, 0, 6, &others));
    assert_eq!(rt; table.room(&writer, 0, 5), 2);
    assert_eq!(rt; found(&table, &mut reader, 0, 5, key(2)), (2, Some(8)));
    assert_eq!(rt; found(&table, &mut reader, 0, 5, key(3)), (2, None));
    assert!(rt; finds_all(&table, &mut reader, 6, 62, (1, Some(9))));
    let own = table.look_own(&mut writer, 0, 6, key(62));
    assert_eq!(rt; (own.version, own.node), (1, Some(9)));
    let own = table.look_own(&mut writer, 0, 6, key(63));
    assert_eq!(rt; (own.version, own.node), (1, None));
    assert!(rt; publish(&table, &mut writer, 0, 5, &served(2)));
    assert_eq!(rt; found(&table, &mut reader, 0, 5, key(2)), (3, Some(2)));
    assert_eq!(rt; found(&table, &mut reader, 0, 6, key(62)), (1, Some(9)));
    Ok(())
}

/// The blocks and groups that are published in turn.
fn published_group(turn: u32) -> (u16, u8)
    ensures block { result.0 < 2 }
    ensures group { result.1 < 64 }
{
    ((turn % 2) as u16, (turn / 2 % 3) as u8)
}

/// The record that is published as a group's version: served ones and ones with rows in turn.
fn version_of_group(version: u32) -> Option<GroupRecord>
    ensures bits { IfSome result (λ content. HasBits 4 content) }
    ensures in_cluster { IfSome result (λ content. HasNodes 16 content) }
{
    let node = (version % 16) as u8;
    if version % 2 == 0 {
        return Some(served(node));
    }
    fallback((2 + version % 18) as u8, node)
}

/// The node that this version gives the keys 1 and 2.
fn node_of_version(version: u32) -> Option<u8> {
    Some((version % 16) as u8)
}

/// Publishes as many records as asked, of six groups in turn, and counts those for which there was room.
fn publish_many(table: &CellTable, mut writer: WriterSeat, times: u32) -> (WriterSeat, u32)
    requires writer { IsWriterOf table.now writer }
    requires blocks { length (opened_with table.now).images ≡ 2 }
    requires nodes { (opened_with table.now).size.nodes ≡ 16 }
    requires few { length (published writer) + times < 4294967295 }
    ensures { IsWriterOf table.now result.0 }
{
    let mut done = 0;
    'turns: for turn in 0..times {
        let (block, group) = published_group(turn);
        if let Some(content) = version_of_group(turn / 6 + 1) {
            if publish(table, &mut writer, block, group, &content) {
                done += 1;
            }
        }
    }
    (writer, done)
}

/// Looks as often as asked, and counts the answers and those that aren't what was published as their version.
fn look_many(table: &CellTable, mut reader: ReaderSeat, times: u32) -> (u32, u32)
    requires reader { IsReaderOf table.now reader }
    requires blocks { length (opened_with table.now).images ≡ 2 }
{
    let mut answered = 0;
    let mut wrong = 0;
    'looks: for turn in 0..times {
        let (block, group) = published_group(turn);
        let key = key(1 + (turn / 6 % 2) as u8);
        if let Ok(look) = table.look(&mut reader, block, group, key) {
            answered += 1;
            if look.node != node_of_version(look.version) {
                wrong += 1;
            }
        }
    }
    (answered, wrong)
}

fn publish_and_look<R: Threads + Sync>(
    rt: &R,
    table: &CellTable,
    writer: WriterSeat,
    reader: ReaderSeat,
) -> ((WriterSeat, u32), (u32, u32))
    requires writer { IsWriterOf table.now writer }
    requires reader { IsReaderOf table.now reader }
    requires blocks { length (opened_with table.now).images ≡ 2 }
    requires nodes { (opened_with table.now).size.nodes ≡ 16 }
    requires few { length (published writer) ≡ 0 }
    ensures { IsWriterOf table.now result.0.0 }
{
    join(
        rt,
        || publish_many(table, writer, 10_000),
        || look_many(table, reader, 100_000),
    )
}

fn look_twice<R: Threads + Sync>(
    rt: &R,
    table: &CellTable,
    one: ReaderSeat,
    other: ReaderSeat,
) -> ((u32, u32), (u32, u32))
    requires one { IsReaderOf table.now one }
    requires other { IsReaderOf table.now other }
    requires blocks { length (opened_with table.now).images ≡ 2 }
{
    join(
        rt,
        || look_many(table, one, 100_000),
        || look_many(table, other, 100_000),
    )
}

#[test]
fn looks_are_whole_while_one_publishes(rt: HostRuntime) -> Result<(), Fail> {
    let (table, mut writer) = table(rt.alloc())?;
    let first = table.reader(&mut writer);
    let second = table.reader(&mut writer);
    let third = table.reader(&mut writer);
    let mut last = table.reader(&mut writer);
    let (((mut writer, done), one), (two, three)) = join(
        &rt,
        || publish_and_look(&rt, &table, writer, first),
        || look_twice(&rt, &table, second, third),
    );
    assert_eq!(rt; done, 10_000);
    assert_eq!(rt; (one.1, two.1, three.1), (0, 0, 0));
    assert!(rt; 0 < one.0 && 0 < two.0 && 0 < three.0);
    table.meet(&mut last, &mut writer);
    assert_eq!(rt;
        found(&table, &mut last, 1, 2, key(1)),
        (1666, node_of_version(1666))
    );
    Ok(())
}
