//! Routes of a shard, and turns that it takes.
ghost use Rattle.std.specs.Prelude.{◌≡◌, All};
ghost use Rattle.flow_types.specs.declared.record.Flow.{Flow};
ghost use Rattle.group_search.specs.Build.{IsBuild};
ghost use Rattle.group_search.specs.Owned.{IsOwned};
ghost use Rattle.group_search.specs.Records.{AreHandled};
ghost use Rattle.replica_shard.specs.Seats.{IsShardReaderOf, IsShardWriterOf};

use crate::building;
use crate::timing::line;
use delta_codec::{Message, TableMessage, decode, encode, fits};
use flow_types::{Flow, Shape};
use group_search::BlockImage;
use replica_shard::{Shard, ShardPlan, ShardReader, ShardWriter};
use std::alloc::{AllocError, Global};
use std::io;
use std::rt::Clock;
use std::time::Instant;

/// How many turns a shard takes, and how many shards take them.
const TURNS: u16 = 65_000;

const SHARDS: u64 = 16;

/// Routes the keys of one owner, by a reader and by the writer, and lets the shards of many nodes take the owner's turns.
#[tactic(auto, using(replica_shard::proofs::Tables::can_be_tables))]
pub fn figures(
    rt: &(impl Print + AllocGlobal + Clock),
    shape: Shape,
    images: &[BlockImage],
    flows: &[Flow],
) -> io::Result<()>
    requires built { IsBuild shape flows.now images.now }
    requires handled { AreHandled shape.nodes flows.now }
{
    let owned = building::owned(rt.alloc(), shape, flows)?;
    let Ok(plan) = ShardPlan::of(rt.alloc(), shape, 0, images) else {
        return println!(rt; "no memory for a plan");
    };
    let Ok((shard, mut writer)) = Shard::open_plan(rt.alloc(), &plan) else {
        return println!(rt; "no memory for a shard");
    };
    let mut reader = shard.reader(&mut writer);
    let count = owned.len() as u64;
    let start = Instant::now(rt)?;
    let routed = by_reader(&shard, &mut reader, owned.as_slice());
    line(rt, "route", count, start.elapsed(rt)?, routed)?;
    let start = Instant::now(rt)?;
    let routed = by_writer(&shard, &mut writer, owned.as_slice());
    line(rt, "route_own", count, start.elapsed(rt)?, routed)?;
    turns(rt, shape, images, &plan)
}

/// Lets the shards take their owner's turns, each message out of its octets.
fn turns(
    rt: &(impl Print + AllocGlobal + Clock),
    shape: Shape,
    images: &[BlockImage],
    plan: &ShardPlan,
) -> io::Result<()>
    requires { plan.now.size ≡ shape }
{
    let octets = messages(rt.alloc(), shape, images)?;
    let start = Instant::now(rt)?;
    let mut taken = 0u64;
    'shards: for _ in 0..SHARDS {
        let Ok((shard, mut writer)) = Shard::open_plan(rt.alloc(), plan) else {
            return println!(rt; "no memory for a shard");
        };
        take(shape, &shard, &mut writer, octets.as_slice());
        taken = taken.wrapping_add(u64::from(shard.taken(&writer)));
    }
    let count = u64::from(TURNS) * SHARDS;
    line(rt, "apply", count, start.elapsed(rt)?, taken)
}

/// How many of the flows, whose blocks the shard's owner owns, a reader is sent to their nodes for.
fn by_reader(shard: &Shard, reader: &mut ShardReader, flows: &[Flow]) -> u64
    requires reader { IsShardReaderOf shard.now reader.old }
    requires owned { All (λ (flow : Flow). IsOwned shard.now.shape shard.now.owner flow.key) flows.now }
{
    let mut routed = 0u64;
    'flows: for flow in flows {
        if let Ok(route) = shard.route(reader, flow.key) {
            routed = routed.wrapping_add(u64::from(route.node == Some(flow.node)));
        }
    }
    routed
}

/// How many of the flows, whose blocks the shard's owner owns, the writer sends to their nodes.
fn by_writer(shard: &Shard, writer: &mut ShardWriter, flows: &[Flow]) -> u64
    requires writer { IsShardWriterOf shard.now writer.old }
    requires owned { All (λ (flow : Flow). IsOwned shard.now.shape shard.now.owner flow.key) flows.now }
    ensures { IsShardWriterOf shard.now writer.new }
{
    let mut routed = 0u64;
    'flows: for flow in flows {
        let route = shard.route_own(writer, flow.key);
        routed = routed.wrapping_add(u64::from(route.node == Some(flow.node)));
    }
    routed
}

/// The octets of the first owner's turns: records of the images, at one of its groups after the other.
fn messages(alloc: Global, shape: Shape, images: &[BlockImage]) -> Result<Vec<u8>, AllocError> {
    let mut octets = Vec::new(alloc);
    'turns: for turn in 1..=TURNS {
        let at = turn % 4096;
        let block = at / 64 * shape.nodes();
        let group = (at % 64) as u8;
        if let Some(image) = images.get(usize::from(block)) {
            let message = Message::Table(TableMessage {
                owner: 0,
                turn: u32::from(turn),
                block,
                group,
                content: image.record(group).clone()?,
            });
            if fits(shape, &message) {
                octets.extend_from_slice(encode(shape, &message).as_slice())?;
            }
        }
    }
    Ok(octets)
}

/// Takes the messages of these octets as far as they go.
fn take(shape: Shape, shard: &Shard, writer: &mut ShardWriter, octets: &[u8])
    requires shape { shard.now.shape ≡ shape }
    requires writer { IsShardWriterOf shard.now writer.old }
    ensures { IsShardWriterOf shard.now writer.new }
{
    let mut rest = octets;
    'turns: for _ in 0..TURNS {
        let Ok((message, used)) = decode(shape, rest) else {
            return;
        };
        if used > rest.len() || !fits(shape, &message) {
            return;
        }
        if let Message::Table(table) = &message {
            let _ = shard.apply(writer, table);
        }
        rest = &rest[used..];
    }
}
