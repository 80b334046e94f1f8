//! The path of one packet.
ghost use Rattle.std.specs.Prelude.{◌≡◌, ◌*◌, ◌<◌, IfSome, List, Some};
ghost use mathlib.Core.List.{IsPrefix};
ghost use Rattle.flow_types.specs.Key.{number};
ghost use Rattle.group_search.specs.declared.published.Publication.{Publication};
ghost use Rattle.group_search.specs.Owned.{IsOwned};
ghost use Rattle.hash_family.specs.Hash.{place};
ghost use Rattle.run_model.specs.Packets.{answer_of};
ghost use Rattle.replica_shard.specs.Seats.{HasRouted, IsShardReaderOf, first_loads, seen_list};
ghost use Rattle.packet_path.specs.Fibs.{AreFibsOf, AsksOne, fib_seen};
ghost use Rattle.packet_path.specs.Path.{home_at, path_by, route_at};

use flow_types::FlowKey;
use hash_family::{HashedKey, Place};
use partial_fib::{FibReader, FibSeen};
use replica_shard::{Route, Shard, ShardReader};
use run_model::Reply;
use std::sync::Wait;
use std::thread;

/// The path of a packet: its ingress's table sends it to a node, or nowhere, and the node's FIB answers.
///
/// The key's block belongs to the shard's owner, and the reader is the shard's. `fibs` has one reader for each node, of the
/// node's FIB of this owner. For a key that isn't known the node is arbitrary. What the readers have seen only grows. It takes
/// no memory. It routes again where the group was being rewritten, and so promises no return.
pub fn path_of<R: Wait>(
    rt: &R,
    key: FlowKey,
    shard: &Shard,
    reader: &mut ShardReader,
    fibs: &mut [FibReader],
) -> Reply
    requires reader { IsShardReaderOf shard.now reader.old }
    requires owned { IsOwned shard.now.shape shard.now.owner key }
    requires fibs { AreFibsOf shard.now.shape shard.now.owner fibs.old }
    ensures said { result ≡ path_by shard.now (seen_list shard.now reader.new) fibs.new key }

    // The table is asked in this call: `seen` is the version that the last look's two loads found.
    ensures reader { IsShardReaderOf shard.now reader.new }
    ensures later { IsPrefix (seen_list shard.now reader.old) (seen_list shard.now reader.new) }
    ensures looks { first_loads reader.old < first_loads reader.new }
    ensures this_look { let seen = (route_at shard.now (seen_list shard.now reader.new) key).version in
        HasRouted shard.now reader.new (home_at shard.now (seen_list shard.now reader.new) key) (2 * seen) (2 * seen) }

    // And the node's FIB, if there is a node: no other reader has changed.
    ensures asked { AsksOne (route_at shard.now (seen_list shard.now reader.new) key).node fibs.old fibs.new }
    ensures fibs { AreFibsOf shard.now.shape shard.now.owner fibs.new }
{
    path_hashed(rt, &HashedKey::of(&key), shard, reader, fibs)
}

/// What `path_of` gives a key that is hashed already.
///
/// The key's block belongs to the shard's owner, and the reader is the shard's. `fibs` has one reader for each node, of the
/// node's FIB of this owner. It takes no memory, and promises no return.
pub fn path_hashed<R: Wait>(
    rt: &R,
    key: &HashedKey,
    shard: &Shard,
    reader: &mut ShardReader,
    fibs: &mut [FibReader],
) -> Reply
    requires reader { IsShardReaderOf shard.now reader.old }
    requires owned { IsOwned shard.now.shape shard.now.owner key.now }
    requires fibs { AreFibsOf shard.now.shape shard.now.owner fibs.old }
    ensures said { result ≡ path_by shard.now (seen_list shard.now reader.new) fibs.new key.now }

    // The table is asked in this call: `seen` is the version that the last look's two loads found.
    ensures reader { IsShardReaderOf shard.now reader.new }
    ensures later { IsPrefix (seen_list shard.now reader.old) (seen_list shard.now reader.new) }
    ensures looks { first_loads reader.old < first_loads reader.new }
    ensures this_look { let seen = (route_at shard.now (seen_list shard.now reader.new) key.now).version in
        HasRouted shard.now reader.new (home_at shard.now (seen_list shard.now reader.new) key.now) (2 * seen) (2 * seen) }

    // And the node's FIB, if there is a node: no other reader has changed.
    ensures asked { AsksOne (route_at shard.now (seen_list shard.now reader.new) key.now).node fibs.old fibs.new }
    ensures fibs { AreFibsOf shard.now.shape shard.now.owner fibs.new }
{
    let at = shard.place(key);
    let Route {
        version: seen,
        node,
    } = routed(rt, at, key, shard, reader);
    match node {
        Some(node) => {
            let found = found_at(rt, at, key.key(), shard, fibs, usize::from(node));
            answered(node, seen, found)
        }
        None => Reply::Nowhere { seen },
    }
}

/// Where the table sends the key, whose place is known. It routes again where the group was being rewritten.
#[tactic(auto, using(crate::proofs::Lists::lists_go_on))]
fn routed<R: Wait>(
    rt: &R,
    at: Place,
    key: &HashedKey,
    shard: &Shard,
    reader: &mut ShardReader,
) -> Route
    requires reader { IsShardReaderOf shard.now reader.old }
    requires owned { IsOwned shard.now.shape shard.now.owner key.now }
    requires placed { at ≡ place shard.now.shape.blocks key.now }
    requires within { at.block < shard.now.shape.blocks }
    ensures reader { IsShardReaderOf shard.now reader.new }
    ensures later { IsPrefix (seen_list shard.now reader.old) (seen_list shard.now reader.new) }
    ensures looks { first_loads reader.old < first_loads reader.new }
    ensures answer { result ≡ route_at shard.now (seen_list shard.now reader.new) key.now }
    ensures this_look { HasRouted shard.now reader.new (home_at shard.now (seen_list shard.now reader.new) key.now) (2 * result.version) (2 * result.version) }
    ensures in_cluster { IfSome result.node (λ node. node < shard.now.shape.nodes) }
{
    'routes: for _ in rt.forever() {
        if let Ok(route) = shard.route_at(reader, at, key) {
            return route;
        }
        thread::yield_now();
    }
    unreachable!()
}

/// What a node's FIB says of the key, whose place is known.
fn found_at<R: Wait>(
    rt: &R,
    at: Place,
    key: FlowKey,
    shard: &Shard,
    fibs: &mut [FibReader],
    node: usize,
) -> FibSeen
    requires owned { IsOwned shard.now.shape shard.now.owner key }
    requires placed { at ≡ place shard.now.shape.blocks key }
    requires within { at.block < shard.now.shape.blocks }
    requires fibs { AreFibsOf shard.now.shape shard.now.owner fibs.old }
    requires in_cluster { node < shard.now.shape.nodes }
    ensures version { (list : List Publication) → result.version ≡ (fib_seen fibs.new node).versions (home_at shard.now list key) }
    ensures answer { result.answer ≡ (fib_seen fibs.new node).records (number key) }
    ensures asked { AsksOne (Some node) fibs.old fibs.new }
    ensures fibs { AreFibsOf shard.now.shape shard.now.owner fibs.new }
{
    let (block, group) = shard.home_at(at);
    fibs[node].find(rt, block, group, key)
}

/// The reply where a node was asked.
fn answered(node: u8, seen: u32, found: FibSeen) -> Reply
    ensures { result ≡ answer_of node seen found.version found.answer }
{
    match found.answer {
        Some(info) => Reply::Found {
            node,
            seen,
            fib: found.version,
            info,
        },
        None => Reply::Unknown {
            node,
            seen,
            fib: found.version,
        },
    }
}
