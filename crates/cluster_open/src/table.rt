ghost use Rattle.std.specs.Prelude.{◌≡◌, ◌↔◌, ◌<◌, ◌+◌, ◌%◌, ℕ, IfOk, OnErr, OnOk, IsErrOf, length};
ghost use Rattle.group_search.specs.Canon.{rows_in};
ghost use Rattle.replica_shard.specs.declared.refused.ShardRefused.TheVariants.{Foreign, Repeat, Early, RowsFull};
ghost use Rattle.delta_codec.specs.Turns.{IsEarly, IsForeign, IsRepeat};
ghost use Rattle.delta_codec.specs.Messages.{TableMessageFits};
ghost use Rattle.replica_shard.specs.Seats.{IsShardWriterOf, shard_taken};
ghost use Rattle.replica_shard.specs.Shard.{free_rows, home_in_state, route_in_state, with_content};
ghost use Rattle.replica_shard.specs.Store.{shard_state_of};

use delta_codec::TableMessage;
use hash_family::{HashedKey, Place};
use out_of_memory::OutOfMemory;
use replica_shard::{Route, Shard, ShardPlan, ShardRefused, ShardWriter};
use std::alloc::Global;
use std::marker::Model;

/// A node's table of one owner's blocks, with the seat of its writer: one thread routes by it and brings it up to date, or it is
/// parted into the shard and the seat, so that others can read the shard.
#[derive(Drop)]
pub struct Table {
    shard: Shard,
    writer: ShardWriter,
}

impl Model for Table {
    ghost use Rattle.replica_shard.specs.Seats.{IsShardWriterOf, shard_taken};
    ghost use Rattle.replica_shard.specs.Store.{ShardStore};

    ghost Value = { ShardStore };

    ghost view = { λ t. shard_taken t.shard t.writer };

    ghost invariant = { λ t. IsShardWriterOf t.shard t.writer };
}

impl Table {
    /// The table as the plan has it, before its owner's first turn.
    pub(crate) fn open(alloc: Global, plan: &ShardPlan) -> Result<Table, OutOfMemory>
        ensures { IfOk result (λ table. table ≡ plan.now) }
    {
        let (shard, writer) = Shard::open_plan(alloc, plan)?;
        Ok(Table { shard, writer })
    }

    /// Takes the owner's next turn, as `Shard::apply` does.
    pub fn apply(&mut self, message: &TableMessage) -> Result<(), ShardRefused>
        requires { TableMessageFits self.old.size message.now }
        ensures taken { OnOk result (shard_state_of self.new ≡ with_content (shard_state_of self.old) message.now) }
        ensures foreign { (owner : ℕ) → IsErrOf result (Foreign owner) ↔ IsForeign self.old.owner message.now.owner owner }
        ensures repeat { (have : ℕ) → IsErrOf result (Repeat have) ↔
            IsRepeat self.old.owner (length self.old.list) message.now.owner message.now.turn have }
        ensures early { (have : ℕ) → IsErrOf result (Early have) ↔
            IsEarly self.old.owner (length self.old.list) message.now.owner message.now.turn have }
        ensures rows_full { (needed free : ℕ) → IsErrOf result (RowsFull needed free) ↔
            ((message.now.owner ≡ self.old.owner) × (message.now.turn ≡ length self.old.list + 1) ×
            (needed ≡ rows_in message.now.content) ×
            (free ≡ free_rows (shard_state_of self.old) message.now.block message.now.group) × (free < needed)) }
        ensures refused { OnErr result (self.new ≡ self.old) }
    {
        self.shard.apply(&mut self.writer, message)
    }

    /// Where the table sends a key that is hashed already and whose place is known. The place's block belongs to the owner.
    /// Nothing changes.
    pub fn route_at(&mut self, at: Place, key: &HashedKey) -> Route
        requires owned { at.block % self.old.size.nodes ≡ self.old.owner }
        requires within { at.block < self.old.size.blocks }
        ensures value { result ≡ route_in_state (shard_state_of self.old) at key.now }
        ensures kept { self.new ≡ self.old }
    {
        self.shard.route_own_at(&mut self.writer, at, key)
    }

    /// The block and the group of a key whose place is known. The place's block belongs to the owner.
    pub fn home_at(&self, at: Place) -> (u16, u8)
        requires owned { at.block % self.now.size.nodes ≡ self.now.owner }
        requires within { at.block < self.now.size.blocks }
        ensures home { record { block = result.0; group = result.1 } ≡ home_in_state (shard_state_of self.now) at }
        ensures in_block { result.1 < 64 }
    {
        self.shard.home_at(at)
    }

    /// How many turns of the owner it has taken.
    pub fn taken(&self) -> u32
        ensures { result ≡ length self.now.list }
    {
        self.shard.taken(&self.writer)
    }

    /// The shard and the seat of its writer.
    pub fn into_parts(self) -> (Shard, ShardWriter)
        ensures seat { IsShardWriterOf result.0 result.1 }
        ensures taken { shard_taken result.0 result.1 ≡ self }
    {
        (self.shard, self.writer)
    }
}
