//! Keys are sent to nodes.
ghost use Rattle.std.specs.Prelude.{◌≡◌, ◌+◌, ◌*◌, ◌/◌, ◌%◌, ◌<◌, List, IfErr, IfOk, IfSome};
ghost use mathlib.Core.List.{IsPrefix};
ghost use Rattle.group_cell.specs.Rule.{IsIn};
ghost use Rattle.group_cell.specs.Seats.{opened_with, the_group};
ghost use Rattle.group_search.specs.Owned.{IsOwned};
ghost use Rattle.group_search.specs.declared.published.Publication.{Publication};
ghost use Rattle.hash_family.specs.Hash as hash;
ghost use Rattle.replica_shard.specs.Owners.{cell_of};
ghost use Rattle.replica_shard.specs.Seats.{FindsChange, HasRouted, IsShardReaderOf, IsShardWriterOf, first_loads, seen_list, shard_at, shard_seen, shard_taken, taken_list};
ghost use Rattle.replica_shard.specs.Shard.{home_in_state, route_in_state};
ghost use Rattle.replica_shard.specs.Store.{shard_state_of};

use crate::routing::Route;
use crate::shard::{Shard, ShardReader, ShardWriter};
use flow_types::FlowKey;
use flow_types::laws::numbers_of_a_shape;
use group_cell::{Changing, Look};
use hash_family::{HashedKey, Place, place};

impl Shard {
    /// Where the table sends a key, as far as this reader has then seen: the node that one whole record of the key's
    /// group gives it, which is any of the cluster's for a key that isn't known, and that record's version; or
    /// `Changing`, where the group was being rewritten.
    ///
    /// The key's block belongs to the owner, and the seat is this shard's. What the reader has seen only grows. It takes
    /// no memory and waits for nobody, and nothing says that it ever succeeds beside a writer that never rests.
    #[inline(always)]
    pub fn route(&self, reader: &mut ShardReader, key: FlowKey) -> Result<Route, Changing>
        requires reader { IsShardReaderOf self.now reader.old }
        requires owned { IsOwned self.now.shape self.now.owner key }
        ensures reader { IsShardReaderOf self.now reader.new }
        ensures later { IsPrefix (seen_list self.now reader.old) (seen_list self.now reader.new) }
        ensures looks { first_loads reader.new ≡ first_loads reader.old + 1 }
        ensures answer { IfOk result (λ route. route ≡ route_in_state (shard_state_of (shard_seen self.now reader.new)) (hash.place self.now.shape.blocks key) key) }
        ensures in_cluster { IfOk result (λ route. IfSome route.node (λ node. node < self.now.shape.nodes)) }
        ensures this_look { IfOk result (λ route.
            HasRouted self.now reader.new (home_in_state (shard_state_of (shard_seen self.now reader.new)) (hash.place self.now.shape.blocks key)) (2 * route.version) (2 * route.version)) }
        ensures changing { IfErr result (λ c.
            FindsChange self.now reader.new (home_in_state (shard_state_of (shard_seen self.now reader.new)) (hash.place self.now.shape.blocks key)) c.first c.second) }
    {
        let key = HashedKey::of(&key);
        self.route_at(reader, self.place(&key), &key)
    }

    /// What `route` gives a key that is hashed already and whose place is known.
    ///
    /// The place's block belongs to the owner, and the seat is this shard's. It takes no memory.
    #[inline(always)]
    pub fn route_at(
        &self,
        reader: &mut ShardReader,
        at: Place,
        key: &HashedKey,
    ) -> Result<Route, Changing>
        requires reader { IsShardReaderOf self.now reader.old }
        requires owned { at.block % self.now.shape.nodes ≡ self.now.owner }
        requires within { at.block < self.now.shape.blocks }
        ensures reader { IsShardReaderOf self.now reader.new }
        ensures later { IsPrefix (seen_list self.now reader.old) (seen_list self.now reader.new) }
        ensures looks { first_loads reader.new ≡ first_loads reader.old + 1 }
        ensures answer { IfOk result (λ route. route ≡ route_in_state (shard_state_of (shard_seen self.now reader.new)) at key.now) }
        ensures in_cluster { IfOk result (λ route. IfSome route.node (λ node. node < self.now.shape.nodes)) }
        ensures this_look { IfOk result (λ route.
            HasRouted self.now reader.new (home_in_state (shard_state_of (shard_seen self.now reader.new)) at) (2 * route.version) (2 * route.version)) }
        ensures changing { IfErr result (λ c.
            FindsChange self.now reader.new (home_in_state (shard_state_of (shard_seen self.now reader.new)) at) c.first c.second) }
    {
        let (block, group) = self.cell(at);
        match self.table.look_hashed(&mut reader.seat, block, group, key) {
            Ok(look) => Ok(Route {
                version: look.version,
                node: look.node,
            }),
            Err(changing) => Err(changing),
        }
    }

    /// Where the table sends a key after all that the writer has taken.
    ///
    /// The key's block belongs to the owner, and the seat is this shard's. Nothing changes, and it takes no memory.
    #[inline(always)]
    pub fn route_own(&self, writer: &mut ShardWriter, key: FlowKey) -> Route
        requires writer { IsShardWriterOf self.now writer.old }
        requires owned { IsOwned self.now.shape self.now.owner key }
        ensures writer { IsShardWriterOf self.now writer.new }
        ensures kept { taken_list self.now writer.new ≡ taken_list self.now writer.old }
        ensures answer { result ≡ route_in_state (shard_state_of (shard_taken self.now writer.old)) (hash.place self.now.shape.blocks key) key }
        ensures in_cluster { IfSome result.node (λ node. node < self.now.shape.nodes) }
    {
        let key = HashedKey::of(&key);
        self.route_own_at(writer, self.place(&key), &key)
    }

    /// What `route_own` gives a key that is hashed already and whose place is known.
    ///
    /// The place's block belongs to the owner, and the seat is this shard's. It takes no memory.
    #[inline(always)]
    pub fn route_own_at(&self, writer: &mut ShardWriter, at: Place, key: &HashedKey) -> Route
        requires writer { IsShardWriterOf self.now writer.old }
        requires owned { at.block % self.now.shape.nodes ≡ self.now.owner }
        requires within { at.block < self.now.shape.blocks }
        ensures writer { IsShardWriterOf self.now writer.new }
        ensures kept { taken_list self.now writer.new ≡ taken_list self.now writer.old }
        ensures answer { result ≡ route_in_state (shard_state_of (shard_taken self.now writer.old)) at key.now }
        ensures in_cluster { IfSome result.node (λ node. node < self.now.shape.nodes) }
    {
        let (block, group) = self.cell(at);
        let Look { version, node } = self
            .table
            .look_own_hashed(&mut writer.seat, block, group, key);
        Route { version, node }
    }

    /// The block and the group of a key, whose block belongs to the owner: the group for which the owner's FIB may be
    /// asked. It takes no memory.
    pub fn home(&self, key: FlowKey) -> (u16, u8)
        requires { IsOwned self.now.shape self.now.owner key }
        ensures home { (list : List Publication) →
            record { block = result.0; group = result.1 } ≡ home_in_state (shard_state_of (shard_at self.now list)) (hash.place self.now.shape.blocks key) }
        ensures within { result.0 < self.now.shape.blocks }
        ensures owned { result.0 % self.now.shape.nodes ≡ self.now.owner }
        ensures in_block { result.1 < 64 }
    {
        self.home_at(place(self.shape, key))
    }

    /// What `home` gives a key whose place is known. It takes no memory.
    ///
    /// The place's block belongs to the owner.
    #[inline(always)]
    pub fn home_at(&self, at: Place) -> (u16, u8)
        requires owned { at.block % self.now.shape.nodes ≡ self.now.owner }
        requires within { at.block < self.now.shape.blocks }
        ensures home { (list : List Publication) → record { block = result.0; group = result.1 } ≡ home_in_state (shard_state_of (shard_at self.now list)) at }
        ensures within { result.0 < self.now.shape.blocks }
        ensures owned { result.0 % self.now.shape.nodes ≡ self.now.owner }
        ensures in_block { result.1 < 64 }
    {
        let (_, group) = self.cell(at);
        (at.block, group)
    }

    /// The place of a key at the cluster's shape.
    #[inline(always)]
    pub fn place(&self, key: &HashedKey) -> Place
        ensures value { result ≡ hash.place self.now.shape.blocks key.now }
        ensures within { result.block < self.now.shape.blocks }
    {
        key.place_by(&self.reciprocal)
    }

    /// The block among the owner's, numbered from 0, and the group of a place, whose block belongs to the owner.
    #[inline(always)]
    fn cell(&self, at: Place) -> (u16, u8)
        requires owned { at.block % self.now.shape.nodes ≡ self.now.owner }
        requires within { at.block < self.now.shape.blocks }
        ensures inside { IsIn (opened_with self.now.table) (the_group result.0 result.1) }
        ensures cell { (list : List Publication) → the_group result.0 result.1 ≡ cell_of self.now.shape.nodes (home_in_state (shard_state_of (shard_at self.now list)) at) }
    {
        let block = self.cell_block(at.block);
        (block, self.choices[usize::from(block)].group(at.bucket))
    }

    /// The number among the owner's, counted from 0, of a block of the owner's. A product takes less time than a division.
    #[inline(always)]
    pub(crate) fn cell_block(&self, block: u16) -> u16
        requires { block < self.now.shape.blocks }
        ensures { result ≡ block / self.now.shape.nodes }
    {
        numbers_of_a_shape(self.shape);
        ((u32::from(block) * self.share) >> 16) as u16
    }
}
