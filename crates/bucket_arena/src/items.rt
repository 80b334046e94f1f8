//! An iterator over a bucket's items.
ghost use Rattle.std.specs.Prelude.{◌≡◌};
ghost use Rattle.std.specs.Iterator.{YieldsFirst, item_count};

use crate::chain::Cell;
use crate::row::Row;
use std::marker::Model;

/// The items of a bucket that are left, in their order.
#[derive(Drop)]
pub struct Items<'a, T: Copy> {
    pub(crate) row: &'a Row<Cell<T>>,
    pub(crate) next: usize,
    pub(crate) left: u32,
}

impl<'a, T: Copy> Model for Items<'a, T> {
    ghost use Rattle.std.specs.Prelude.{List};

    ghost Value = { List T };

    ghost use Rattle.bucket_arena.specs.Chains.{cell_at, numbers_from, items_in, AllWritten};

    ghost view = { λ it. items_in (cell_at it.row.now) (numbers_from (cell_at it.row.now) it.left it.next) };

    ghost invariant = { λ it. AllWritten it.row.now (numbers_from (cell_at it.row.now) it.left it.next) };
}

impl<'a, T: Copy> Iterator for Items<'a, T> {
    type Item = T;

    ghost next_gives = { YieldsFirst (λ rest. rest) };

    ghost remaining = { item_count (λ rest. rest) };

    fn next(&mut self) -> Option<T> {
        if self.left == 0 {
            return None;
        }
        let cell = self.row.read(self.next);
        self.next = cell.next;
        self.left -= 1;
        Some(cell.item)
    }

    fn size_hint(&self) -> (usize, Option<usize>) {
        (self.left as usize, Some(self.left as usize))
    }
}
