//! A row of cells in one piece of raw memory.
ghost use Rattle.std.specs.Prelude.{◌≡◌, ◌<◌, [], length, replicate, Some, None, get_or, slice_set, IfOk};
ghost use Rattle.bucket_arena.specs.Row.{IsWritten, IsPieceOf};

use crate::piece::{Piece, Title, give_back, take_piece};
use out_of_memory::OutOfMemory;
use std::alloc::Global;
use std::marker::Model;
use std_alloc::room::may_hold;

/// A row of cells, seen as the list of what they hold.
pub(crate) struct Row<T: Copy> {
    piece: Option<(Piece<T>, Title<T, Global>)>,
    room: usize,
    alloc: Global,
}

impl<T: Copy> Model for Row<T> {
    ghost use Rattle.std.specs.Prelude.{List, Option};

    ghost Value = { List (Option T) };

    ghost use Rattle.bucket_arena.specs.Row.{cells_of, IsPieceOf};

    ghost view = { λ r. cells_of r.piece };

    ghost invariant = { λ r. IsPieceOf r.piece r.room r.alloc };
}

impl<T: Copy> Row<T> {
    /// A row without cells. It takes no memory.
    pub(crate) fn new(alloc: Global) -> Row<T>
        ensures { result ≡ [] }
    {
        Row {
            piece: None,
            room: 0,
            alloc,
        }
    }

    /// A row of `room` bare cells.
    pub(crate) fn with_room(alloc: Global, room: usize) -> Result<Row<T>, OutOfMemory>
        ensures { IfOk result (λ row. row ≡ replicate room None) }
    {
        if !may_hold::<T>(room) {
            return Err(OutOfMemory);
        }
        let (piece, title) = take_piece(&alloc, room)?;
        Ok(Row {
            piece: Some((piece, title)),
            room,
            alloc,
        })
    }

    /// Where its memory comes from.
    pub(crate) fn alloc(&self) -> Global {
        self.alloc
    }

    /// How many cells there are.
    pub(crate) fn room(&self) -> usize
        ensures { result ≡ length self.now }
    {
        self.room
    }

    /// The value in the cell `number`, which was written before.
    pub(crate) fn read(&self, number: usize) -> T
        requires { IsWritten self.now number }
        ensures { get_or self.now number None ≡ Some result }
    {
        match &self.piece {
            Some((piece, _)) => *piece.read(number),
            None => unreachable!(),
        }
    }

    /// Writes the cell `number`, over whatever it held.
    pub(crate) fn write(&mut self, number: usize, value: T)
        requires { number < length self.old }
        ensures { self.new ≡ slice_set self.old number (Some value) }
    {
        match &mut self.piece {
            Some((piece, _)) => piece.write(number, value),
            None => unreachable!(),
        }
    }
}

impl<T: Copy> Drop for Row<T> {
    fn drop(self) {
        let Row { piece, room, alloc } = self;
        give_up(&alloc, room, piece);
    }
}

/// Gives the piece back, if there is one. It is gone then, with its title.
fn give_up<T: Copy>(alloc: &Global, room: usize, piece: Option<(Piece<T>, Title<T, Global>)>)
    requires { IsPieceOf piece room alloc.now }
{
    if let Some((piece, title)) = piece {
        give_back(alloc, room, piece, title);
    }
}
