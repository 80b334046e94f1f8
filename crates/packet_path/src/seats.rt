//! A shard in common, with the seat of its writer or of a reader.
ghost use Rattle.std.specs.Prelude.{◌≡◌, ◌↔◌, ◌<◌, ◌+◌, ◌*◌, ◌∷◌, [], ◌++◌, ℕ, IfOk, OnOk, OnErr, IsErrOf, length};
ghost use mathlib.Core.List.{IsPrefix};
ghost use Rattle.group_search.specs.Canon.{rows_in};
ghost use Rattle.group_search.specs.Owned.{IsOwned};
ghost use Rattle.delta_codec.specs.Turns.{IsEarly, IsForeign, IsRepeat};
ghost use Rattle.replica_shard.specs.declared.refused.ShardRefused.TheVariants.{Foreign, Repeat, Early, RowsFull};
ghost use Rattle.delta_codec.specs.Messages.{TableMessageFits};
ghost use Rattle.replica_shard.specs.Owners.{publication_of};
ghost use Rattle.replica_shard.specs.Seats.{IsShardWriterOf, taken_list};
ghost use Rattle.replica_shard.specs.Shard.{free_rows, with_content};
ghost use Rattle.replica_shard.specs.Store.{shard_state_of};
ghost use Rattle.packet_path.specs.Fibs.{AreFibsOf, AsksOne};
ghost use Rattle.packet_path.specs.Path.{home_at, path_by, route_at};
ghost use Rattle.packet_path.specs.Seated.{HasLookedAt, table_taken};

use crate::path::path_hashed;
use delta_codec::TableMessage;
use hash_family::HashedKey;
use out_of_memory::OutOfMemory;
use partial_fib::FibReader;
use replica_shard::{Shard, ShardReader, ShardRefused, ShardWriter};
use run_model::Reply;
use std::alloc::Global;
use std::marker::Model;
use std::sync::{Arc, Wait};

/// A node's table of one owner's blocks, with the seat of its writer. A contract sees the shard and the list of the records
/// that it has taken.
#[derive(Drop)]
pub struct TableSeat {
    shard: Arc<Shard>,
    writer: ShardWriter,
}

impl Model for TableSeat {
    ghost use Rattle.std.specs.Arc.{arc_value};
    ghost use Rattle.packet_path.specs.Seated.{Seated};
    ghost use Rattle.replica_shard.specs.Seats.{IsShardWriterOf, taken_list};

    ghost Value = { Seated };

    ghost view = { λ t. record { shard = arc_value t.shard; list = taken_list (arc_value t.shard) t.writer } };

    ghost invariant = { λ t. IsShardWriterOf (arc_value t.shard) t.writer };
}

impl TableSeat {
    /// The table of a shard. The writer's seat is this shard's. After an `Err` both are dropped.
    pub fn new(alloc: Global, shard: Shard, writer: ShardWriter) -> Result<TableSeat, OutOfMemory>
        requires { IsShardWriterOf shard writer }
        ensures shard { IfOk result (λ table. table.shard ≡ shard) }
        ensures list { IfOk result (λ table. table.list ≡ taken_list shard writer) }
    {
        let shard = Arc::new(alloc, shard)?;
        let table = TableSeat { shard, writer };
        may_cross(&table);
        Ok(table)
    }

    /// Takes the owner's next turn, as `Shard::apply` does.
    ///
    /// The message fits the cluster's shape. It takes no memory and waits for nobody.
    pub fn apply(&mut self, message: &TableMessage) -> Result<(), ShardRefused>
        requires { TableMessageFits self.old.shard.shape message.now }
        ensures shard { self.new.shard ≡ self.old.shard }
        ensures listed { OnOk result (self.new.list ≡ self.old.list ++ publication_of message.now ∷ []) }
        ensures taken { OnOk result (shard_state_of (table_taken self.new) ≡ with_content (shard_state_of (table_taken self.old)) message.now) }
        ensures foreign { (owner : ℕ) → IsErrOf result (Foreign owner) ↔ IsForeign self.old.shard.owner message.now.owner owner }
        ensures repeat { (have : ℕ) → IsErrOf result (Repeat have) ↔
            IsRepeat self.old.shard.owner (length self.old.list) message.now.owner message.now.turn have }
        ensures early { (have : ℕ) → IsErrOf result (Early have) ↔
            IsEarly self.old.shard.owner (length self.old.list) message.now.owner message.now.turn have }
        ensures rows_full { (needed free : ℕ) → IsErrOf result (RowsFull needed free) ↔
            ((message.now.owner ≡ self.old.shard.owner) × (message.now.turn ≡ length self.old.list + 1) ×
            (needed ≡ rows_in message.now.content) ×
            (free ≡ free_rows (shard_state_of (table_taken self.old)) message.now.block message.now.group) × (free < needed)) }
        ensures refused { OnErr result (self.new ≡ self.old) }
    {
        self.shard.apply(&mut self.writer, message)
    }

    /// How many turns of the owner it has taken. It takes no memory.
    pub fn taken(&self) -> u32
        ensures { result ≡ length self.now.list }
    {
        self.shard.taken(&self.writer)
    }

    /// A reader's seat at the same shard, which has seen all that the table has taken. The table stays as it is.
    pub fn view(&mut self) -> Result<ViewSeat, OutOfMemory>
        ensures shard { IfOk result (λ view. view.shard ≡ self.old.shard) }
        ensures seen { IfOk result (λ view. view.list ≡ self.old.list) }
        ensures kept { self.new ≡ self.old }
    {
        let shard = Arc::try_clone(&self.shard)?;
        let reader = self.shard.reader(&mut self.writer);
        let view = ViewSeat { shard, reader };
        may_cross(&view);
        Ok(view)
    }
}

/// A reader's seat at a shard in common. A contract sees the shard, the list of the records that the reader has seen, how many
/// routes it has asked for, and its last look.
#[derive(Drop)]
pub struct ViewSeat {
    shard: Arc<Shard>,
    reader: ShardReader,
}

impl Model for ViewSeat {
    ghost use Rattle.std.specs.Arc.{arc_value};
    ghost use Rattle.group_cell.specs.Seating.{last_look};
    ghost use Rattle.packet_path.specs.Seated.{Viewed};
    ghost use Rattle.replica_shard.specs.Seats.{IsShardReaderOf, first_loads, seen_list};

    ghost Value = { Viewed };

    ghost view = { λ v. record {
      shard = arc_value v.shard;
      list = seen_list (arc_value v.shard) v.reader;
      loads = first_loads v.reader;
      last = last_look v.reader.seat.seat;
    } };

    ghost invariant = { λ v. IsShardReaderOf (arc_value v.shard) v.reader };
}

impl ViewSeat {
    /// The view has then seen all that the table has taken, and what it had seen before is the beginning of that. The table
    /// stays as it is.
    ///
    /// Both have one shard. It takes no memory and waits for nobody.
    pub fn meet(&mut self, table: &mut TableSeat)
        requires { self.old.shard ≡ table.old.shard }
        ensures shard { self.new.shard ≡ self.old.shard }
        ensures all { self.new.list ≡ table.old.list }
        ensures before { IsPrefix self.old.list table.old.list }
        ensures kept { table.new ≡ table.old }
    {
        self.shard.meet(&mut self.reader, &mut table.writer);
    }

    /// The path of a packet that enters where the table stands, as `path_of` gives it.
    ///
    /// The key's block belongs to the shard's owner. `fibs` has one reader for each node, of the node's FIB of this owner. It
    /// takes no memory, and promises no return.
    pub fn path<R: Wait>(&mut self, rt: &R, key: &HashedKey, fibs: &mut [FibReader]) -> Reply
        requires owned { IsOwned self.old.shard.shape self.old.shard.owner key.now }
        requires fibs { AreFibsOf self.old.shard.shape self.old.shard.owner fibs.old }
        ensures said { result ≡ path_by self.new.shard self.new.list fibs.new key.now }
        ensures shard { self.new.shard ≡ self.old.shard }
        ensures later { IsPrefix self.old.list self.new.list }
        ensures looks { self.old.loads < self.new.loads }
        ensures this_look { let seen = (route_at self.new.shard self.new.list key.now).version in
            HasLookedAt self.new (home_at self.new.shard self.new.list key.now) (2 * seen) (2 * seen) }
        ensures asked { AsksOne (route_at self.new.shard self.new.list key.now).node fibs.old fibs.new }
        ensures fibs { AreFibsOf self.old.shard.shape self.old.shard.owner fibs.new }
    {
        path_hashed(rt, key, &self.shard, &mut self.reader, fibs)
    }
}

/// A seat may go to another thread.
fn may_cross<T: Send>(_seat: &T) {}
