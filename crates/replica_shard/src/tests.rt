ghost use Rattle.std.specs.Prelude.{◌≡◌, ◌<◌, ◌≤◌, All, IfOk, IfSome, sum_by};
ghost use Rattle.group_search.specs.Canon.{rows_in};
ghost use Rattle.group_search.specs.Owned.{IsOwned};
ghost use Rattle.group_search.specs.Words.{HasBits};
ghost use Rattle.group_search.specs.Records.{HasNodes};
ghost use Rattle.replica_shard.specs.Seats.{IsShardReaderOf, IsShardWriterOf};

use crate::{Route, Shard, ShardReader, ShardRefused, ShardWriter, laws};
use block_layout::choose;
use delta_codec::{Message, TableMessage, fits};
use flow_types::{FlowKey, Shape};
use group_search::{BlockImage, GroupRecord, Pair, Row, Rows, Served};
use hash_family::place;
use std::alloc::{AllocError, Global};
use std::process::Abort;
use std::test::Fail;
use std::thread::{Threads, join};

fn key_of_port(source_port: u16) -> FlowKey {
    FlowKey {
        source: 1,
        destination: 2,
        source_port,
        destination_port: 443,
        protocol: 6,
    }
}

/// A record that gives each key this value of two bits.
fn giving(value: u8) -> GroupRecord
    ensures bits { HasBits 2 result }
    ensures in_cluster { HasNodes 4 result }
    ensures rows { rows_in result ≡ 0 }
{
    let pair = |bit: u8| Pair {
        index: 0,
        array: if value & bit == 0 { 0 } else { 255 },
    };
    let zero = Pair { index: 0, array: 0 };
    let pairs = [pair(1), pair(2), zero, zero];
    GroupRecord::Served(Served { bits: 2, pairs })
}

/// A record of this many rows.
fn of_rows(alloc: Global, count: u16) -> Result<GroupRecord, Fail> {
    let mut rows = Vec::new(alloc);
    'rows: for source_port in 0..count {
        rows.push(Row {
            key: key_of_port(source_port),
            node: 0,
        })?;
    }
    Ok(GroupRecord::Fallback(Rows::of(rows.as_slice()).ok_or("rows")?))
}

/// An image whose every record gives each key this value of two bits. The group of each bucket is its first candidate.
fn image(alloc: Global, value: u8) -> Result<BlockImage, AllocError>
    ensures rows { IfOk result (λ image. sum_by rows_in image.records ≤ 64) }
    ensures bits { IfOk result (λ image. All (HasBits 2) image.records) }
    ensures in_cluster { IfOk result (λ image. All (HasNodes 4) image.records) }
{
    let mut records = Vec::new(alloc);
    'records: for _ in 0..64u8 {
        records.push(giving(value))?;
    }
    Ok(BlockImage::new(choose(&[0; 256]), records))
}

/// A shard of owner 1 of four nodes and six blocks: of its blocks, 1 gives each key the node 1, and 5 the node 2.
fn shard(alloc: Global) -> Result<(Shape, Shard, ShardWriter), Fail>
    ensures shape { IfOk result (λ r. r.1.shape ≡ r.0) }
    ensures owner { IfOk result (λ r. r.1.owner ≡ 1) }
    ensures writer { IfOk result (λ r. IsShardWriterOf r.1 r.2) }
{
    let shape = Shape::new(4, 6).ok_or("shape")?;
    let images = [
        image(alloc, 0)?,
        image(alloc, 1)?,
        image(alloc, 0)?,
        image(alloc, 0)?,
        image(alloc, 0)?,
        image(alloc, 2)?,
    ];
    let (shard, writer) = Shard::open(alloc, shape, 1, &images)?;
    Ok((shape, shard, writer))
}

/// A message of the owner of a block at four nodes.
fn message(turn: u32, block: u16, group: u8, content: GroupRecord) -> Message {
    Message::Table(TableMessage {
        owner: (block % 4) as u8,
        turn,
        block,
        group,
        content,
    })
}

/// What a message says of its group: a record that gives each key this value, or one of this many rows.
#[derive(Clone, Copy)]
enum Told {
    Value(u8),
    OfRows(u16),
}

fn record_told(alloc: Global, told: Told) -> Result<GroupRecord, Fail> {
    match told {
        Told::Value(value) => Ok(giving(value)),
        Told::OfRows(count) => of_rows(alloc, count),
    }
}

/// A turn of a block's owner, what the shard answers to its message, and how many turns it has taken then.
#[derive(Drop)]
struct Offer {
    turn: u32,
    block: u16,
    group: u8,
    told: Told,
    answer: Result<(), ShardRefused>,
    taken: u32,
}

fn turn(
    turn: u32,
    block: u16,
    group: u8,
    told: Told,
    answer: Result<(), ShardRefused>,
    taken: u32,
) -> Offer {
    Offer {
        turn,
        block,
        group,
        told,
        answer,
        taken,
    }
}

/// Offers the shard one message.
fn offer_one(
    rt: &impl Abort,
    shape: Shape,
    shard: &Shard,
    writer: &mut ShardWriter,
    offered: &Offer,
    record: GroupRecord,
)
    requires shape { shard.now.shape ≡ shape }
    requires writer { IsShardWriterOf shard.now writer.old }
    ensures { IsShardWriterOf shard.now writer.new }
{
    let message = message(offered.turn, offered.block, offered.group, record);
    assert!(rt; fits(shape, &message));
    if let Message::Table(table) = &message {
        assert_eq!(rt;
            shard.apply(writer, table),
            offered.answer,
            "turn {}",
            table.turn
        );
        assert_eq!(rt; shard.taken(writer), offered.taken);
    }
}

/// Offers the shard these messages in their order.
fn offer_all(
    rt: &impl Abort,
    alloc: Global,
    shape: Shape,
    shard: &Shard,
    writer: &mut ShardWriter,
    offers: &[Offer],
) -> Result<(), Fail>
    requires shape { shard.now.shape ≡ shape }
    requires writer { IsShardWriterOf shard.now writer.old }
    ensures { IsShardWriterOf shard.now writer.new }
{
    'offers: for offered in offers {
        let record = record_told(alloc, offered.told)?;
        offer_one(rt, shape, shard, writer, offered, record);
    }
    Ok(())
}

/// What the reader and the writer find of a key, where its block is the owner's.
fn found(
    rt: &impl Abort,
    shape: Shape,
    shard: &Shard,
    reader: &mut ShardReader,
    writer: &mut ShardWriter,
    key: FlowKey,
) -> Option<(Route, Route)>
    requires shape { shard.now.shape ≡ shape }
    requires owner { shard.now.owner ≡ 1 }
    requires reader { IsShardReaderOf shard.now reader.old }
    requires writer { IsShardWriterOf shard.now writer.old }
    ensures reader { IsShardReaderOf shard.now reader.new }
    ensures writer { IsShardWriterOf shard.now writer.new }
{
    let at = place(shape, key);
    if at.block % shape.nodes() != 1 {
        return None;
    }
    let home = shard.home(key);
    assert_eq!(rt; home.0, at.block);
    assert_eq!(rt; home.1, at.bucket % 64);
    let own = shard.route_own(writer, key);
    let seen = shard.route(reader, key).ok()?;
    Some((seen, own))
}

#[test]
fn takes_the_next_turn_alone(rt: HostRuntime) -> Result<(), Fail> {
    let (shape, shard, mut writer) = shard(rt.alloc())?;
    let foreign = Err(ShardRefused::Foreign { owner: 0 });
    let early = |have| Err(ShardRefused::Early { have });
    let repeat = Err(ShardRefused::Repeat { have: 1 });
    let offers = [
        turn(1, 0, 5, Told::Value(3), foreign, 0),
        turn(2, 1, 5, Told::Value(3), early(0), 0),
        turn(1, 1, 5, Told::Value(3), Ok(()), 1),
        turn(1, 1, 5, Told::Value(2), repeat, 1),
        turn(3, 5, 5, Told::Value(2), early(1), 1),
        turn(2, 5, 5, Told::Value(2), Ok(()), 2),
    ];
    offer_all(&rt, rt.alloc(), shape, &shard, &mut writer, &offers)
}

#[test]
fn refuses_more_rows_than_the_other_groups_leave(rt: HostRuntime) -> Result<(), Fail> {
    let (shape, shard, mut writer) = shard(rt.alloc())?;
    let full = |needed, free| Err(ShardRefused::RowsFull { needed, free });
    let offers = [
        turn(1, 1, 5, Told::OfRows(40), Ok(()), 1),
        turn(2, 1, 6, Told::OfRows(25), full(25, 24), 1),
        turn(2, 1, 6, Told::OfRows(24), Ok(()), 2),
        turn(3, 1, 5, Told::OfRows(41), full(41, 40), 2),
        turn(3, 5, 5, Told::OfRows(64), Ok(()), 3),
        turn(4, 1, 5, Told::Value(1), Ok(()), 4),
        turn(5, 1, 7, Told::OfRows(40), Ok(()), 5),
    ];
    offer_all(&rt, rt.alloc(), shape, &shard, &mut writer, &offers)
}

// A turn changes its group alone. The reader sees it with its next look at the group.
#[test]
fn routes_by_the_turns_taken(rt: HostRuntime) -> Result<(), Fail> {
    let (shape, shard, mut writer) = shard(rt.alloc())?;
    let mut reader = shard.reader(&mut writer);
    let w = &mut writer;
    let offers = [
        turn(1, 5, 7, Told::Value(3), Ok(()), 1),
        turn(2, 5, 7, Told::Value(0), Ok(()), 2),
        turn(3, 1, 8, Told::Value(3), Ok(()), 3),
    ];
    offer_all(&rt, rt.alloc(), shape, &shard, w, &offers)?;
    shard.meet(&mut reader, w);
    let mut met = [0u16; 4];
    'ports: for source_port in 0..2000 {
        let key = key_of_port(source_port);
        let at = place(shape, key);
        let (version, node, case) = match (at.block, at.bucket % 64) {
            (5, 7) => (2, 0, 0),
            (1, 8) => (1, 3, 1),
            (1, _) => (0, 1, 2),
            _ => (0, 2, 3),
        };
        let node = Some(node);
        let route = Route { version, node };
        if let Some(both) = found(&rt, shape, &shard, &mut reader, w, key) {
            assert_eq!(rt; both.0, route, "port {source_port}");
            assert_eq!(rt; both.1, route, "port {source_port}");
            met[case] |= 1;
        }
    }
    assert!(rt; met == [1, 1, 1, 1]);
    Ok(())
}

/// A key of group 5 of block 1.
fn key_of_group_5(shape: Shape) -> Option<FlowKey>
    ensures { IfSome result (λ key. IsOwned shape 1 key) }
{
    'ports: for source_port in 0..4000 {
        let key = key_of_port(source_port);
        let at = place(shape, key);
        if at.block % shape.nodes() == 1 && at.block == 1 && at.bucket % 64 == 5 {
            return Some(key);
        }
    }
    None
}

/// Takes this many turns of one group, each of which sends its keys to another node.
fn take_many(shape: Shape, shard: &Shard, mut writer: ShardWriter, count: u32) -> ShardWriter
    requires shape { shard.now.shape ≡ shape }
    requires writer { IsShardWriterOf shard.now writer }
    requires few { count ≤ 65535 }
    ensures { IsShardWriterOf shard.now result }
{
    'turns: for turn in 0..count {
        let message = message(turn + 1, 1, 5, giving((turn % 4) as u8));
        if fits(shape, &message) {
            if let Message::Table(table) = &message {
                let _ = shard.apply(&mut writer, table);
            }
        }
    }
    writer
}

/// How many of these many routes were answered, and whether each of these was by one whole record.
fn route_many(shard: &Shard, mut reader: ShardReader, key: FlowKey, count: u32) -> (u32, bool)
    requires reader { IsShardReaderOf shard.now reader }
    requires owned { IsOwned shard.now.shape shard.now.owner key }
{
    let (mut answered, mut whole) = (0u32, true);
    'routes: for _ in 0..count {
        if let Ok(route) = shard.route(&mut reader, key) {
            answered = answered.saturating_add(1);
            let node = if route.version == 0 {
                1
            } else {
                (route.version - 1) % 4
            };
            whole = whole && route.node == Some(node as u8);
        }
    }
    (answered, whole)
}

fn take_and_route<R: Threads + Sync>(
    rt: &R,
    shape: Shape,
    shard: &Shard,
    writer: ShardWriter,
    reader: ShardReader,
    key: FlowKey,
) -> (ShardWriter, (u32, bool))
    requires shape { shard.now.shape ≡ shape }
    requires writer { IsShardWriterOf shard.now writer }
    requires reader { IsShardReaderOf shard.now reader }
    requires owned { IsOwned shard.now.shape shard.now.owner key }
    ensures { IsShardWriterOf shard.now result.0 }
{
    join(
        rt,
        || take_many(shape, shard, writer, 10_000),
        || route_many(shard, reader, key, 40_000),
    )
}

#[test]
fn routes_are_whole_while_one_takes_turns(rt: HostRuntime) -> Result<(), Fail> {
    let (shape, shard, mut writer) = shard(rt.alloc())?;
    let key = key_of_group_5(shape).ok_or("key")?;
    let reader = shard.reader(&mut writer);
    let (writer, (answered, whole)) = take_and_route(&rt, shape, &shard, writer, reader, key);
    assert!(rt; whole && 0 < answered);
    assert_eq!(rt; shard.taken(&writer), 10_000);
    Ok(())
}

#[test]
fn laws_can_be_called() {
    laws::builds_can_be_tables();
    laws::a_turn_goes_on();
    laws::turns_make_the_table();
    laws::prefixes_are_turns();
    laws::routes_follow_changes();
}
