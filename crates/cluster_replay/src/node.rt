ghost use Rattle.std.specs.Prelude.{◌≡◌, ◌+◌, ◌%◌, ◌<◌, ◌≤◌, IfOk, OnErr, length};
ghost use Rattle.delta_codec.specs.Messages.{FibMessageFits};
ghost use Rattle.group_search.specs.Canon.{rows_in};
ghost use Rattle.delta_codec.specs.Messages.{TableMessageFits};
ghost use Rattle.replica_shard.specs.Shard.{free_rows, home_in_state, route_in_state};
ghost use Rattle.cluster_replay.specs.Cluster.{after_fib, after_table, fib_in, node_of_parts, node_state_of, shard_in, taking_reply};

use cluster_open::{NodeParts, Table};
use delta_codec::{FibMessage, TableMessage};
use hash_family::{HashedKey, Place};
use out_of_memory::OutOfMemory;
use partial_fib::{Fib, FibRefused};
use replica_shard::{Route, ShardRefused};
use run_model::Reply;
use std::marker::Model;

/// One node of a cluster: its table and its FIB of each owner that has a block, by the owner's number.
#[derive(Drop)]
pub(crate) struct Node {
    pub(crate) tables: Vec<Table>,
    pub(crate) fibs: Vec<Fib>,
}

impl Model for Node {
    ghost use Rattle.cluster_replay.specs.Cluster.{NodeStore};

    ghost Value = { NodeStore };

    ghost view = { λ n. record { shards = n.tables.items; fibs = n.fibs.items } };
}

impl Node {
    /// The node of these parts.
    pub(crate) fn of(parts: NodeParts) -> Node
        ensures { result ≡ node_of_parts parts }
    {
        Node {
            tables: parts.tables,
            fibs: parts.fibs,
        }
    }

    /// Takes the message of a turn into the table of its owner. The table's room is enough for it where it is the next turn.
    pub(crate) fn take_table(&mut self, message: &TableMessage) -> Reply
        requires there { message.now.owner < length self.old.shards }
        requires own { (shard_in (node_state_of self.old) message.now.owner).owner ≡ message.now.owner }
        requires fits { TableMessageFits (shard_in (node_state_of self.old) message.now.owner).size
            message.now }
        requires room { message.now.turn ≡ (shard_in (node_state_of self.old) message.now.owner).taken + 1 →
            rows_in message.now.content ≤ free_rows (shard_in (node_state_of self.old) message.now.owner) message.now.block message.now.group }
        ensures reply { result ≡ taking_reply (shard_in (node_state_of self.old) message.now.owner).taken
            message.now.turn }
        ensures taken { node_state_of self.new ≡ after_table (node_state_of self.old) message.now result }
    {
        match self.tables[usize::from(message.owner)].apply(message) {
            Ok(()) => Reply::Applied,
            Err(ShardRefused::Repeat { have }) => Reply::RepeatHave { have },
            Err(ShardRefused::Early { have }) => Reply::EarlyHave { have },
            Err(ShardRefused::Foreign { .. }) => unreachable!(),
            Err(ShardRefused::RowsFull { .. }) => unreachable!(),
        }
    }

    /// The block and the group of a key whose place is known, by the table of the owner of the place's block.
    pub(crate) fn home_at(&self, owner: usize, at: Place) -> (u16, u8)
        requires there { owner < length self.now.shards }
        requires owned { at.block % (shard_in (node_state_of self.now) owner).size.nodes ≡
            (shard_in (node_state_of self.now) owner).owner }
        requires within { at.block < (shard_in (node_state_of self.now) owner).size.blocks }
        ensures home { record { block = result.0; group = result.1 } ≡ home_in_state
            (shard_in (node_state_of self.now) owner) at }
        ensures in_block { result.1 < 64 }
    {
        self.tables[owner].home_at(at)
    }

    /// Where the table of the owner of the place's block sends a key that is hashed already and whose
    /// place is known. Nothing changes.
    pub(crate) fn route_at(&mut self, owner: usize, at: Place, key: &HashedKey) -> Route
        requires there { owner < length self.old.shards }
        requires owned { at.block % (shard_in (node_state_of self.old) owner).size.nodes ≡
            (shard_in (node_state_of self.old) owner).owner }
        requires within { at.block < (shard_in (node_state_of self.old) owner).size.blocks }
        ensures value { result ≡ route_in_state (shard_in (node_state_of self.old) owner) at key.now }
        ensures kept { self.new ≡ self.old }
    {
        self.tables[owner].route_at(at, key)
    }

    /// Takes the message of a turn into the FIB of its owner.
    pub(crate) fn take_fib(&mut self, message: &FibMessage) -> Result<Reply, OutOfMemory>
        requires there { message.now.owner < length self.old.fibs }
        requires own { (fib_in (node_state_of self.old) message.now.owner).owner ≡ message.now.owner }
        requires fits { FibMessageFits (fib_in (node_state_of self.old) message.now.owner).size message.now }
        ensures reply { IfOk result (λ reply. reply ≡ taking_reply
            (fib_in (node_state_of self.old) message.now.owner).taken message.now.turn) }
        ensures taken { IfOk result (λ reply. node_state_of self.new ≡ after_fib (node_state_of self.old)
            message.now reply) }
        ensures refused { OnErr result (self.new ≡ self.old) }
    {
        match self.fibs[usize::from(message.owner)].apply(message) {
            Ok(()) => Ok(Reply::Applied),
            Err(FibRefused::Repeat { have }) => Ok(Reply::RepeatHave { have }),
            Err(FibRefused::Early { have }) => Ok(Reply::EarlyHave { have }),
            Err(FibRefused::OutOfMemory) => Err(OutOfMemory),
            Err(FibRefused::Foreign { .. }) => unreachable!(),
        }
    }
}
