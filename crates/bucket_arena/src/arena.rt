//! The arena: 256 lists in one row of cells.
ghost use Rattle.std.specs.Prelude.{◌≡◌, ℕ, ◌+◌, ◌<◌, ◌≤◌, [], ◌∷◌, ◌++◌, length, get_or, replicate, remove, slice_get, slice_set, IsOk, OnOk, OnErr, None};
ghost use Rattle.bucket_arena.specs.Arena.{bucket_of, item_count, HasGrown};
ghost use Rattle.bucket_arena.specs.Chains.{cell_limit, list_count};

use crate::chain::{
    Cell, Chain, append, move_up, next_free, number_at, release, replace, without_last,
};
use crate::items::Items;
use crate::row::Row;
use out_of_memory::OutOfMemory;
use std::alloc::Global;
use std::marker::Model;

/// The number of lists of an arena: one for each octet.
const LISTS: usize = 256;

/// The most cells that an arena can have.
const MOST_CELLS: usize = 4_294_967_294;

/// 256 lists of items, all in one piece of raw memory. It goes back to the allocator when the arena is dropped, of which no
/// clause speaks.
///
/// A contract sees the lists and `spare`, the number of items that can be pushed before `reserve` is needed again.
#[derive(Drop)]
pub struct Arena<T: Copy> {
    row: Row<Cell<T>>,
    chains: [Chain; LISTS],
    // The cells that were given back.
    free: Chain,
    // How many cells were ever written: those of lesser number.
    made: usize,
}

impl<T: Copy> Model for Arena<T> {
    ghost use Rattle.bucket_arena.specs.Arena.{Buckets, buckets_code};

    ghost Value = { Buckets T };

    ghost coded = { buckets_code T.code };

    ghost use Rattle.bucket_arena.specs.Arena.{lists_of, spare_of};
    ghost use Rattle.bucket_arena.specs.Chains.{AreChains};

    ghost view = { λ a. record { buckets = lists_of a.row a.chains; spare = spare_of a.row a.free a.made } };

    ghost invariant = { λ a. AreChains a.row a.chains a.free a.made };
}

impl<T: Copy> Arena<T> {
    /// An arena of empty lists. It takes no memory.
    pub fn new(alloc: Global) -> Arena<T>
        ensures buckets { result.buckets ≡ replicate list_count [] }
        ensures spare { result.spare ≡ 0 }
        ensures count { item_count result ≡ 0 }
    {
        Arena::over(Row::new(alloc))
    }

    /// An arena of empty lists whose cells are those of the row, all of them bare.
    fn over(row: Row<Cell<T>>) -> Arena<T>
        requires bare { (number : ℕ) → get_or row number None ≡ None }
        requires few { length row < cell_limit }
        ensures buckets { result.buckets ≡ replicate list_count [] }
        ensures spare { result.spare ≡ length row }
        ensures count { item_count result ≡ 0 }
    {
        let empty = Chain {
            first: 0,
            last: 0,
            len: 0,
            run: 0,
        };
        Arena {
            row,
            chains: [empty; LISTS],
            free: empty,
            made: 0,
        }
    }

    /// Makes `spare` at least `n`. Where the room grows it at least doubles, so that pushes take constant time on
    /// average, and the items are settled as by `settle`.
    ///
    /// The number of all items and `n` add up to less than 4,294,967,295.
    pub fn reserve(&mut self, n: u32) -> Result<(), OutOfMemory>
        requires { item_count self.old + n < cell_limit }
        ensures lists { self.new.buckets ≡ self.old.buckets }
        ensures count { item_count self.new ≡ item_count self.old }
        ensures spare { OnOk result (n ≤ self.new.spare) }
        ensures kept { self.old.spare ≤ self.new.spare }
        ensures grown { HasGrown self.old self.new }
        ensures held { n ≤ self.old.spare → IsOk result }
        ensures refused { OnErr result (self.new.spare ≡ self.old.spare) }
    {
        let (room, spare) = (self.room(), self.spare());
        if n as usize <= spare {
            return Ok(());
        }
        let needed = room - spare + n as usize;
        let doubled = (room + room).min(MOST_CELLS);
        self.move_to(needed.max(doubled))
    }

    /// Lays the items of each bucket side by side in a new piece of memory, where `at` finds them without a walk. Items that
    /// are pushed later may stand apart from them. The room stays the same.
    pub fn settle(&mut self) -> Result<(), OutOfMemory>
        ensures lists { self.new.buckets ≡ self.old.buckets }
        ensures spare { self.new.spare ≡ self.old.spare }
    {
        let room = self.room();
        if room == 0 {
            return Ok(());
        }
        self.move_to(room)
    }

    /// How many items there is room for, with those that stand in the buckets.
    fn room(&self) -> usize
        ensures room { result ≡ item_count self.now + self.now.spare }
        ensures few { result < cell_limit }
    {
        self.row.room()
    }

    /// How many more items there is room for.
    fn spare(&self) -> usize
        ensures { result ≡ self.now.spare }
    {
        self.free.len as usize + (self.row.room() - self.made)
    }

    /// Moves the items to a piece with room for `room` items in all, bucket by bucket.
    fn move_to(&mut self, room: usize) -> Result<(), OutOfMemory>
        requires enough { item_count self.old ≤ room }
        requires few { room < cell_limit }
        ensures lists { self.new.buckets ≡ self.old.buckets }
        ensures room { OnOk result (item_count self.old + self.new.spare ≡ room) }
        ensures refused { OnErr result (self.new.spare ≡ self.old.spare) }
    {
        let row = Row::with_room(self.row.alloc(), room)?;
        let mut moved = Arena::over(row);
        'buckets: for number in 0..256u16 {
            let bucket = number as u8;
            moved.extend(bucket, self.iter(bucket));
        }
        *self = moved;
        Ok(())
    }

    /// Puts the items behind those of the bucket. There is room for them.
    fn extend(&mut self, bucket: u8, items: Items<'_, T>)
        requires buckets { length self.old.buckets ≡ list_count }
        requires spare { length items ≤ self.old.spare }
        ensures lists { self.new.buckets ≡ slice_set self.old.buckets bucket (bucket_of self.old bucket ++ items.entry) }
        ensures room { item_count self.new + self.new.spare ≡ item_count self.old + self.old.spare }
    {
        'items: for item in items {
            self.push(bucket, item);
        }
    }

    /// Puts the item last in its bucket. `spare` is at least 1, and falls by 1.
    pub fn push(&mut self, bucket: u8, item: T)
        requires { 0 < self.old.spare }
        ensures last { self.new.buckets ≡ slice_set self.old.buckets bucket (bucket_of self.old bucket ++ item ∷ []) }
        ensures spare { self.new.spare + 1 ≡ self.old.spare }
        ensures count { item_count self.new ≡ item_count self.old + 1 }
    {
        let number = next_free(&self.row, &mut self.free, &mut self.made);
        let chain = self.chains[bucket as usize];
        let grown = append(&mut self.row, chain, number, item);
        self.chains[bucket as usize] = grown;
    }

    /// How many items the bucket has.
    pub fn len(&self, bucket: u8) -> u32
        ensures len { result ≡ length (bucket_of self.now bucket) }
        ensures lists { length self.now.buckets ≡ list_count }
    {
        self.chains[bucket as usize].len
    }

    /// The item at a place of the bucket, below its length. Past the items that stand side by side it walks the bucket's
    /// chain up to there, so take `iter` for all of a bucket.
    pub fn at(&self, bucket: u8, place: u32) -> T
        requires { place < length (bucket_of self.now bucket) }
        ensures { slice_get (bucket_of self.now bucket) place ≡ Some result }
    {
        let chain = self.chains[bucket as usize];
        let number = number_at(&self.row, chain, place);
        self.row.read(number).item
    }

    /// The items of the bucket, in their order, in one walk of its chain.
    pub fn iter(&self, bucket: u8) -> Items<'_, T>
        ensures { result ≡ bucket_of self.now bucket }
    {
        let chain = self.chains[bucket as usize];
        Items {
            row: &self.row,
            next: chain.first,
            left: chain.len,
        }
    }

    /// Writes the item over the one at a place of the bucket, below its length. It walks the chain as `at` does.
    pub fn set(&mut self, bucket: u8, place: u32, item: T)
        requires { place < length (bucket_of self.old bucket) }
        ensures written { self.new.buckets ≡ slice_set self.old.buckets bucket (slice_set (bucket_of self.old bucket) place item) }
        ensures spare { self.new.spare ≡ self.old.spare }
        ensures count { item_count self.new ≡ item_count self.old }
    {
        let chain = self.chains[bucket as usize];
        replace(&mut self.row, chain, place, item);
    }

    /// Takes the item at a place of the bucket, below its length. Later items close up, each by a cell, and `spare` rises
    /// by 1. What stood side by side still does.
    pub fn take(&mut self, bucket: u8, place: u32) -> T
        requires { place < length (bucket_of self.old bucket) }
        ensures taken { slice_get (bucket_of self.old bucket) place ≡ Some result }
        ensures rest { self.new.buckets ≡ slice_set self.old.buckets bucket (remove (bucket_of self.old bucket) place) }
        ensures spare { self.new.spare ≡ self.old.spare + 1 }
        ensures count { item_count self.new + 1 ≡ item_count self.old }
    {
        let chain = self.chains[bucket as usize];
        let item = move_up(&mut self.row, chain, place);
        let shrunk = without_last(&self.row, chain);
        let freed = release(&mut self.row, self.free, chain.last, item);
        self.free = freed;
        self.chains[bucket as usize] = shrunk;
        item
    }
}
