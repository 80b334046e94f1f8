//! One piece of raw memory, and the only functions that touch it: take a piece, read a cell, write a cell, give it back.
ghost use Rattle.std.specs.Prelude.{◌≡◌, ℕ, ◌<◌, List, Option, Some, None, length, replicate, get_or, slice_set, IfOk};
ghost use Rattle.std.specs.Vec.Ownership.{FitsInBlock};
ghost use denote.RawPtr.{Ptr};
ghost use Rattle.bucket_arena.specs.Piece.{piece_owned, piece_lent, title_owned};

use std::alloc::{AllocError, Allocator};
use std::marker::{Model, PhantomData, Send};
use std::mem::{align_of, size_of};

/// A row of cells in raw memory. A cell is bare until a value is written to it.
///
/// Values are forgotten where they are written over and where the piece is given back, so keep only `Copy` values here.
pub(crate) struct Piece<T> {
    at: *mut T,
    pub(crate) ghost cells: { List (Option T) },
}

impl<T> Model for Piece<T> {
    ghost also_owns = { λ p. piece_owned T.row p.at p.cells };

    ghost also_shares = { λ p _ κ. piece_lent T.row p.at p.cells κ };
}

unsafe impl<T: Send> Send for Piece<T> {}

/// The right to give a piece back to the allocator that it came from. It takes no space.
pub(crate) struct Title<T, A: Allocator> {
    mark: PhantomData<*const (T, A)>,
    ghost at: { Ptr },
    ghost room: { ℕ },
    ghost alloc: { A },
}

impl<T, A: Allocator> Model for Title<T, A> {
    ghost also_owns = { λ t. title_owned T.row (A.dealloc_token t.alloc) t.at t.room };
}

unsafe impl<T, A: Allocator + Send> Send for Title<T, A> {}

/// A piece of `room` bare cells.
pub(crate) fn take_piece<T, A: Allocator>(
    alloc: &A,
    room: usize,
) -> Result<(Piece<T>, Title<T, A>), AllocError>
    requires { FitsInBlock T.row room }
    ensures { IfOk result (λ taken. (taken.0.cells ≡ replicate room None) × (taken.1.at ≡ taken.0.at) × (taken.1.room ≡ room) × (taken.1.alloc ≡ alloc.now)) }
{
    match alloc.allocate(room * size_of::<T>(), align_of::<T>()) {
        Ok(block) => {
            let piece = Piece {
                at: block as *mut T,
            };
            let title = Title { mark: PhantomData };
            Ok((piece, title))
        }
        Err(error) => Err(error),
    }
}

/// Gives the piece of `room` cells back, whatever they hold. The piece, what its cells held and its title are gone: the call
/// takes both whole, and there is nothing left of which a clause could speak.
pub(crate) fn give_back<T, A: Allocator>(
    alloc: &A,
    room: usize,
    piece: Piece<T>,
    title: Title<T, A>,
)
    requires { (title.at ≡ piece.at) × (title.room ≡ room) × (length piece.cells ≡ room) × (title.alloc ≡ alloc.now) }
{
    let Piece { at } = piece;
    let Title { mark: _ } = title;
    unsafe {
        alloc.deallocate(at as *mut u8, room * size_of::<T>(), align_of::<T>());
    }
}

impl<T> Piece<T> {
    /// The value in the cell `number`, which was written before.
    pub(crate) fn read(&self, number: usize) -> &T
        requires { (x : T) × (get_or self.now.cells number None ≡ Some x) }
        ensures { get_or self.now.cells number None ≡ Some result.now }
    {
        unsafe { &*self.at.add(number) }
    }

    /// Writes the cell `number`, over whatever it held.
    pub(crate) fn write(&mut self, number: usize, value: T)
        requires { number < length self.old.cells }
        ensures { (self.new.at ≡ self.old.at) × (self.new.cells ≡ slice_set self.old.cells number (Some value)) }
    {
        unsafe { self.at.add(number).write(value) }
    }
}
