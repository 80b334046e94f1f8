//! Chains of cells: each cell has the number of the next.
ghost use Rattle.std.specs.Prelude.{◌≡◌, ℕ, ◌+◌, ◌-◌, ◌<◌, ◌≤◌, ◌≢◌, ◌⊎◌, ◌^◌, [], ◌∷◌, ◌++◌, length, Some, None, get_or, slice_set, remove, slice_get};
ghost use Rattle.bucket_arena.specs.Row.{IsWritten};
ghost use Rattle.bucket_arena.specs.Chains.{cell_at, numbers, items, occurrences, IsWhole, IsNextFree};

use crate::row::Row;

/// An item, and the number of the next cell of its chain. The number takes a word, so that the cell of an item of 24
/// octets has 32: a shift finds it where 28 need a product.
#[derive(Clone, Copy)]
pub(crate) struct Cell<T> {
    pub(crate) item: T,
    pub(crate) next: usize,
}

/// A chain of cells: the numbers of its first and its last cell, how many cells it has, and how many of those after the
/// first are its neighbours in the row, one after another: their numbers need no walk. Without cells the numbers mean
/// nothing.
#[derive(Clone, Copy)]
pub(crate) struct Chain {
    pub(crate) first: usize,
    pub(crate) last: usize,
    pub(crate) len: u32,
    pub(crate) run: u32,
}

/// The number of the cell at a place of the chain.
pub(crate) fn number_at<T: Copy>(row: &Row<Cell<T>>, chain: Chain, place: u32) -> usize
    requires place { place < chain.len }
    requires whole { IsWhole row.now chain }
    requires few { length row.now < 2 ^ 32 }
    ensures number { result ≡ get_or (numbers (cell_at row.now) chain) place 0 }
    ensures written { IsWritten row.now result }
{
    if place <= chain.run {
        return chain.first + place as usize;
    }
    let mut number = chain.first + chain.run as usize;
    'walked: for _ in chain.run..place {
        number = row.read(number).next;
    }
    number
}

/// The number of a cell that no bucket uses: the first of the free chain, which it leaves, or the first cell that was
/// never written.
pub(crate) fn next_free<T: Copy>(row: &Row<Cell<T>>, free: &mut Chain, made: &mut usize) -> usize
    requires whole { 0 < free.old.len → IsWritten row.now free.old.first }
    requires few { made.old + 1 < 2 ^ 32 }
    ensures { IsNextFree (cell_at row.now) free.old free.new made.old made.new result }
{
    if free.len == 0 {
        let number = *made;
        *made += 1;
        return number;
    }
    let number = free.first;
    free.first = row.read(number).next;
    free.len -= 1;
    number
}

/// Writes the item into the cell `number` and links it at the end of the chain.
pub(crate) fn append<T: Copy>(row: &mut Row<Cell<T>>, chain: Chain, number: usize, item: T) -> Chain
    requires whole { IsWhole row.old chain }
    requires apart { occurrences number (numbers (cell_at row.old) chain) ≡ 0 }
    requires room { number < length row.old }
    requires short { chain.len + 1 < 2 ^ 32 }
    ensures numbers { numbers (cell_at row.new) result ≡ numbers (cell_at row.old) chain ++ number ∷ [] }
    ensures items { items (cell_at row.new) result ≡ items (cell_at row.old) chain ++ item ∷ [] }
    ensures whole { IsWhole row.new result }
    ensures len { result.len ≡ chain.len + 1 }
    ensures others { (n : ℕ) → n ≢ number → occurrences n (numbers (cell_at row.old) chain) ≡ 0 → cell_at row.new n ≡ cell_at row.old n }
    ensures written { (n : ℕ) → IsWritten row.old n → IsWritten row.new n }
    ensures room { length row.new ≡ length row.old }
{
    row.write(number, Cell { item, next: number });
    if chain.len == 0 {
        return Chain {
            first: number,
            last: number,
            len: 1,
            run: 0,
        };
    }
    let item = row.read(chain.last).item;
    row.write(chain.last, Cell { item, next: number });
    Chain {
        first: chain.first,
        last: number,
        len: chain.len + 1,
        run: run_with(chain, number),
    }
}

/// The run of the chain once the cell `number` is linked at its end: one more where the chain is all run, and the cell the
/// next in the row.
fn run_with(chain: Chain, number: usize) -> u32
    requires some { 0 < chain.len }
    ensures longer { chain.run + 1 ≡ chain.len → number ≡ chain.last + 1 → result ≡ chain.len }
    ensures same { (result ≡ chain.run) ⊎ ((result ≡ chain.len) × (chain.run + 1 ≡ chain.len) × (number ≡ chain.last + 1)) }
{
    if chain.run == chain.len - 1 && number > chain.last && number - chain.last == 1 {
        chain.len
    } else {
        chain.run
    }
}

/// Moves each item behind a place of the chain up by a cell, and gives the item that stood there. The last item then stands
/// twice. Cells that are neighbours in the row stay so, which they wouldn't if the place's own cell were taken out.
pub(crate) fn move_up<T: Copy>(row: &mut Row<Cell<T>>, chain: Chain, place: u32) -> T
    requires whole { IsWhole row.old chain }
    requires place { place < chain.len }
    requires few { length row.old < 2 ^ 32 }
    ensures item { slice_get (items (cell_at row.old) chain) place ≡ Some result }
    ensures numbers { numbers (cell_at row.new) chain ≡ numbers (cell_at row.old) chain }
    ensures items { remove (items (cell_at row.new) chain) (chain.len - 1) ≡ remove (items (cell_at row.old) chain) place }
    ensures whole { IsWhole row.new chain }
    ensures others { (n : ℕ) → occurrences n (numbers (cell_at row.old) chain) ≡ 0 → cell_at row.new n ≡ cell_at row.old n }
    ensures written { (n : ℕ) → IsWritten row.old n → IsWritten row.new n }
    ensures room { length row.new ≡ length row.old }
{
    let mut number = number_at(row, chain, place);
    let taken = row.read(number).item;
    'moved: for _ in place..chain.len - 1 {
        let next = row.read(number).next;
        let item = row.read(next).item;
        row.write(number, Cell { item, next });
        number = next;
    }
    taken
}

/// The chain without its last cell.
pub(crate) fn without_last<T: Copy>(row: &Row<Cell<T>>, chain: Chain) -> Chain
    requires whole { IsWhole row.now chain }
    requires some { 0 < chain.len }
    requires few { length row.now < 2 ^ 32 }
    ensures numbers { numbers (cell_at row.now) result ≡ remove (numbers (cell_at row.now) chain) (chain.len - 1) }
    ensures items { items (cell_at row.now) result ≡ remove (items (cell_at row.now) chain) (chain.len - 1) }
    ensures whole { IsWhole row.now result }
    ensures len { result.len + 1 ≡ chain.len }
{
    let len = chain.len - 1;
    let before = len.saturating_sub(1);
    let last = number_at(row, chain, before);
    Chain {
        first: chain.first,
        last,
        len,
        run: chain.run.min(before),
    }
}

/// Links a cell before the first of the free chain. It holds the item from then on, which nobody reads.
pub(crate) fn release<T: Copy>(row: &mut Row<Cell<T>>, free: Chain, number: usize, item: T) -> Chain
    requires written { IsWritten row.old number }
    requires apart { occurrences number (numbers (cell_at row.old) free) ≡ 0 }
    requires short { free.len + 1 < 2 ^ 32 }
    ensures numbers { numbers (cell_at row.new) result ≡ number ∷ numbers (cell_at row.old) free }
    ensures len { result.len ≡ free.len + 1 }
    ensures others { (n : ℕ) → n ≢ number → cell_at row.new n ≡ cell_at row.old n }
    ensures written { (n : ℕ) → IsWritten row.old n → IsWritten row.new n }
    ensures room { length row.new ≡ length row.old }
{
    row.write(
        number,
        Cell {
            item,
            next: free.first,
        },
    );
    Chain {
        first: number,
        last: free.last,
        len: free.len + 1,
        run: 0,
    }
}

/// Writes an item over the one at a place of the chain.
pub(crate) fn replace<T: Copy>(row: &mut Row<Cell<T>>, chain: Chain, place: u32, item: T)
    requires whole { IsWhole row.old chain }
    requires place { place < chain.len }
    requires few { length row.old < 2 ^ 32 }
    ensures numbers { numbers (cell_at row.new) chain ≡ numbers (cell_at row.old) chain }
    ensures items { items (cell_at row.new) chain ≡ slice_set (items (cell_at row.old) chain) place item }
    ensures others { (n : ℕ) → occurrences n (numbers (cell_at row.old) chain) ≡ 0 → cell_at row.new n ≡ cell_at row.old n }
    ensures written { (n : ℕ) → IsWritten row.old n → IsWritten row.new n }
    ensures room { length row.new ≡ length row.old }
{
    let number = number_at(row, chain, place);
    let next = row.read(number).next;
    row.write(number, Cell { item, next });
}
