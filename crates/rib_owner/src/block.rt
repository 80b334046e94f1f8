ghost use Rattle.std.specs.Prelude.{◌≡◌, ◌+◌, ◌-◌, ◌<◌, ◌≤◌, ◌^◌, List, [], ◌∷◌, ◌++◌, ℕ, IsPermutation, IfOk, OnOk, IfSome, Some, length, option_map, replicate, slice_index, slice_set};
ghost use Rattle.std.specs.List.{slice_get};
ghost use Rattle.bucket_arena.specs.Arena.{bucket_of, item_count};
ghost use Rattle.flow_types.specs.Map.{AreDistinct, flow_at, without};
ghost use Rattle.group_search.specs.declared.record.GroupRecord.{GroupRecord};
ghost use Rattle.group_search.specs.Canon.{rows_in};
ghost use Rattle.group_search.specs.Home.{group_of};
ghost use Rattle.group_search.specs.Records.{entries};
ghost use Rattle.group_history.specs.Change.{step};
ghost use Rattle.group_history.specs.Acceptance.{keys_in};
ghost use Rattle.rib_owner.specs.Part.{rows_free, rows_taken};
ghost use Rattle.rib_owner.specs.Rib.{map_in};
ghost use Rattle.rib_owner.specs.Stock.{ChangesGroup, bucket_for, flows_in, part_in, standing_in};
ghost use Rattle.rib_owner.specs.Decision.{IsFoundAt};

use crate::gathering::{add_others, entry};
use crate::item::Item;
use block_layout::{BUCKETS, Choices, GROUPS};
use bucket_arena::Arena;
use flow_types::{Flow, FlowKey};
use group_history::Change;
use group_search::{BlockImage, Entry, MOST_ROWS};
use out_of_memory::OutOfMemory;
use std::alloc::{AllocError, Global};
use std::marker::Model;

/// The flows of one block, by its buckets, and how many rows each group takes.
///
/// The number of keys and of rows in all are kept, so that no question walks along the block.
#[derive(Drop)]
pub(crate) struct OwnedBlock {
    choices: Choices,
    arena: Arena<Item>,
    rows: [u8; GROUPS as usize],
    keys: u32,
    used: usize,
}

impl Model for OwnedBlock {
    ghost use Rattle.rib_owner.specs.Stock.{IsCounted, Stock};

    ghost Value = { Stock };

    ghost view = { λ b. record { choices = b.choices; arena = b.arena; rows = b.rows } };

    ghost invariant = { λ b. IsCounted b.keys b.used (record { choices = b.choices; arena = b.arena; rows = b.rows }) };
}

/// Where a key stands in its bucket, and its flow.
#[derive(Clone, Copy)]
pub(crate) struct Found {
    pub(crate) place: u32,
    pub(crate) flow: Flow,
}

/// The flow that was found, if one was.
pub(crate) fn flow_of(found: Option<Found>) -> Option<Flow>
    ensures { result ≡ option_map (λ found. found.flow) found }
{
    match found {
        Some(found) => Some(found.flow),
        None => None,
    }
}

impl OwnedBlock {
    /// The block of an image without its flows, which are still to be pushed: it has room for `room` of them. Its
    /// groups take the rows that the image says.
    pub(crate) fn open(
        alloc: Global,
        image: &BlockImage,
        room: u32,
    ) -> Result<OwnedBlock, OutOfMemory>
        requires { room ≤ 1536 }
        ensures choices { IfOk result (λ block. block.choices ≡ image.now.choices) }
        ensures buckets { IfOk result (λ block. block.arena.buckets ≡ replicate 256 []) }
        ensures numbers { IfOk result (λ block. length block.rows ≡ 64) }
        ensures rows { IfOk result (λ block. (group : ℕ) (content : GroupRecord) → group < 64 →
            slice_get image.now.records group ≡ Some content → slice_index block.rows group ≡ rows_in content) }
    {
        let mut arena = Arena::new(alloc);
        arena.reserve(room)?;
        let mut rows = [0; GROUPS as usize];
        let mut used = 0;
        'groups: for group in 0..GROUPS {
            rows[group as usize] = image.record(group).rows();
            used += rows[group as usize] as usize;
        }
        Ok(OwnedBlock {
            choices: *image.choices(),
            arena,
            rows,
            keys: 0,
            used,
        })
    }

    /// The group, 0..=63, of a bucket.
    pub(crate) fn group(&self, bucket: u8) -> u8
        ensures value { result ≡ group_of self.now.choices bucket }
        ensures below { result < 64 }
    {
        self.choices.group(bucket)
    }

    /// Puts a flow of the block behind those of its bucket.
    pub(crate) fn push(&mut self, bucket: u8, flow: Flow) -> Result<(), OutOfMemory>
        requires bucket { bucket_for flow.key ≡ bucket }
        requires few { keys_in (map_in (part_in self.old)) < 1536 }
        ensures choices { OnOk result (self.new.choices ≡ self.old.choices) }
        ensures rows { OnOk result (self.new.rows ≡ self.old.rows) }
        ensures maps { OnOk result (ChangesGroup (part_in self.old) (part_in self.new) (group_of self.old.choices bucket)) }
        ensures map { OnOk result (let group = group_of self.old.choices bucket in
            IsPermutation (map_in (part_in self.old) group ++ flow ∷ []) (map_in (part_in self.new) group)) }
    {
        // What holds of the block is known where a field of it is read.
        let _ = &self.choices;
        self.reserve()?;
        self.put(bucket, flow);
        Ok(())
    }

    /// Makes room for one more flow.
    pub(crate) fn reserve(&mut self) -> Result<(), OutOfMemory>
        requires { keys_in (map_in (part_in self.old)) ≤ 1536 }
        ensures choices { self.new.choices ≡ self.old.choices }
        ensures rows { self.new.rows ≡ self.old.rows }
        ensures buckets { self.new.arena.buckets ≡ self.old.arena.buckets }
        ensures spare { OnOk result (0 < self.new.arena.spare) }
    {
        self.arena.reserve(1)
    }

    /// Lays the flows of each bucket side by side.
    pub(crate) fn settle(&mut self) -> Result<(), OutOfMemory>
        ensures { part_in self.new ≡ part_in self.old }
    {
        self.arena.settle()
    }

    /// Puts a flow behind those of its bucket. There is room for it.
    fn put(&mut self, bucket: u8, flow: Flow)
        requires bucket { bucket_for flow.key ≡ bucket }
        requires spare { 0 < self.old.arena.spare }
        requires few { item_count self.old.arena < 2 ^ 32 - 1 }
        ensures choices { self.new.choices ≡ self.old.choices }
        ensures rows { self.new.rows ≡ self.old.rows }
        ensures buckets { self.new.arena.buckets ≡ slice_set self.old.arena.buckets bucket (bucket_of self.old.arena bucket ++ flow ∷ []) }
    {
        self.arena.push(bucket, Item::of(flow));
        self.keys += 1;
    }

    /// A key of the bucket: where it stands, and its flow.
    pub(crate) fn find(&self, bucket: u8, key: FlowKey) -> Option<Found>
        requires { bucket_for key ≡ bucket }
        ensures flow { option_map (λ found. found.flow) result ≡ flow_at key (bucket_of self.now.arena bucket) }
        ensures place { IfSome result (λ found. slice_get (standing_in (part_in self.now) (group_of self.now.choices bucket) bucket) found.place ≡ Some found.flow) }
        ensures in_group { flow_at key (bucket_of self.now.arena bucket) ≡ flow_at key (map_in (part_in self.now) (group_of self.now.choices bucket)) }
    {
        // As in `push`.
        let _keys = self.keys;
        let number = key.number();
        let mut place = 0;
        'items: for item in self.arena.iter(bucket) {
            let flow = item.flow();
            if flow.key.number() == number {
                return Some(Found { place, flow });
            }
            place += 1;
        }
        None
    }

    /// How many keys the block has.
    pub(crate) fn keys(&self) -> u32
        ensures { result ≡ keys_in (map_in (part_in self.now)) }
    {
        self.keys
    }

    /// How many of the 64 rows the groups other than this one leave.
    pub(crate) fn rows_left(&self, group: u8) -> usize
        requires in_range { group < 64 }
        requires few { rows_taken (part_in self.now) ≤ 64 }
        ensures value { result ≡ rows_free (part_in self.now) group }
        ensures most { result ≤ 64 }
    {
        MOST_ROWS - (self.used - self.rows[group as usize] as usize)
    }

    /// Puts the entries of a group's map after a change into the room. What it held goes.
    pub(crate) fn gather(
        &self,
        group: u8,
        change: &Change,
        room: &mut Vec<Entry>,
    ) -> Result<(), AllocError>
        requires { group < 64 }
        ensures { OnOk result (room.new.items ≡ entries (step (map_in (part_in self.now) group) change.now)) }
    {
        room.clear();
        self.gather_others(group, change.key, room)?;
        if let Some((node, _)) = change.to {
            room.push(entry(change.key, node))?;
        }
        Ok(())
    }

    /// Puts the entries of a group's flows of all keys but this one into the empty room.
    fn gather_others(
        &self,
        group: u8,
        key: FlowKey,
        room: &mut Vec<Entry>,
    ) -> Result<(), AllocError>
        requires { room.old.items ≡ [] }
        ensures { OnOk result (room.new.items ≡ entries (without key (flows_in self.now.choices self.now.arena.buckets group))) }
    {
        'buckets: for number in 0..BUCKETS {
            let bucket = number as u8;
            if self.choices.group(bucket) == group {
                add_others(self.arena.iter(bucket), key, room)?;
            }
        }
        Ok(())
    }

    /// Makes a change in its key's bucket, where the key was found before, and writes how many rows the bucket's group
    /// takes then. There is room for one more flow.
    pub(crate) fn change(&mut self, bucket: u8, found: Option<Found>, change: &Change, rows: u8)
        requires bucket { bucket_for change.now.key ≡ bucket }
        requires found { IsFoundAt (part_in self.old) (group_of self.old.choices bucket) bucket change.now.key found }
        requires distinct { AreDistinct (map_in (part_in self.old) (group_of self.old.choices bucket)) }
        requires few { keys_in (map_in (part_in self.old)) ≤ 1536 }
        requires few_rows { rows_taken (part_in self.old) ≤ 64 }
        requires spare { 0 < self.old.arena.spare }
        ensures choices { self.new.choices ≡ self.old.choices }
        ensures rows { self.new.rows ≡ slice_set self.old.rows (group_of self.old.choices bucket) rows }
        ensures maps { ChangesGroup (part_in self.old) (part_in self.new) (group_of self.old.choices bucket) }
        ensures map { let group = group_of self.old.choices bucket in
            IsPermutation (step (map_in (part_in self.old) group) change.now) (map_in (part_in self.new) group) }
    {
        // As in `push`.
        let _ = &self.choices;
        self.set_rows(bucket, rows);
        self.remove(bucket, found, change.key);
        if let Some((node, info)) = change.to {
            self.put(
                bucket,
                Flow {
                    key: change.key,
                    node,
                    info,
                },
            );
        }
    }

    /// Takes the flow of a key out of its bucket, if it was found there.
    fn remove(&mut self, bucket: u8, found: Option<Found>, key: FlowKey)
        requires flow { option_map (λ found. found.flow) found ≡ flow_at key (bucket_of self.old.arena bucket) }
        requires place { IfSome found (λ found. slice_get (bucket_of self.old.arena bucket) found.place ≡ Some found.flow) }
        requires distinct { AreDistinct (bucket_of self.old.arena bucket) }
        ensures choices { self.new.choices ≡ self.old.choices }
        ensures rows { self.new.rows ≡ self.old.rows }
        ensures buckets { self.new.arena.buckets ≡ slice_set self.old.arena.buckets bucket (without key (bucket_of self.old.arena bucket)) }
        ensures spare { self.old.arena.spare ≤ self.new.arena.spare }
        ensures count { item_count self.new.arena ≤ item_count self.old.arena }
    {
        let _ = key;
        if let Some(found) = found {
            self.arena.take(bucket, found.place);
            self.keys -= 1;
        }
    }

    /// Writes how many rows the bucket's group takes.
    fn set_rows(&mut self, bucket: u8, rows: u8)
        requires { rows_taken (part_in self.old) ≤ 64 }
        ensures { self.new ≡ record self.old { rows = slice_set self.old.rows (group_of self.old.choices bucket) rows } }
    {
        let at = self.choices.group(bucket) as usize;
        self.used = self.used - self.rows[at] as usize + rows as usize;
        self.rows[at] = rows;
    }
}
