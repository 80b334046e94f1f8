use crate::fib::Fib;
use crate::sharing::history::{Origin, Past};
use crate::sharing::turn::Turn;
use atomic_table::{Join, Split};
use crossbeam_utils::rule::{Outcome, Protocol};
use left_right::Absorb;
use left_right::reader::Reader;
use left_right::writer::Writer;
use std::alloc::AllocError;

/// What readers take: the FIB, and in the proofs alone the FIB that was shared and its turns since.
#[derive(Drop)]
pub(crate) struct Shown {
    pub(crate) fib: Fib,
    pub(crate) origin: Origin,
    pub(crate) past: Past,
}

impl Absorb<Turn> for Shown {
    ghost use Rattle.partial_fib.specs.Rule.{shown_after};

    type State = Shown;

    ghost state = { λ shown. shown };

    ghost applied = { shown_after };

    fn absorb_first(&mut self, turn: &Turn, _other: &Shown) -> Result<(), AllocError> {
        if turn.shape != self.fib.shape() || self.fib.awaits(&turn.message).is_err() {
            return Err(AllocError);
        }
        self.fib.take(&turn.message).map_err(|_| AllocError)?;
        self.past = turn.past.again();
        Ok(())
    }
}

/// What an end knows: what was shown last, of what it has seen or was told of. No value of it is made.
pub(crate) type Sight = Option<Shown>;

/// The rule of a shared FIB.
pub(crate) struct InTurn;

impl Protocol<Shown, Sight> for InTurn {
    ghost use Rattle.std.specs.Prelude.{None};
    ghost use Rattle.partial_fib.specs.Rule.{IsKept};

    ghost holds = { IsKept };

    ghost first = { None };
}

/// A step after which an end knows what is shown.
pub(crate) struct Looks;

impl Outcome<Shown, Sight> for Looks {
    ghost use Rattle.partial_fib.specs.Rule.{Sees};

    ghost then = { Sees };
}

/// Tells a new reader what the writer knows.
pub(crate) struct Tells;

impl Split<Sight> for Tells {
    ghost left = { λ known. known };

    ghost right = { λ known. known };
}

impl Join<Sight> for Tells {
    ghost use Rattle.std.specs.Prelude.{None};

    ghost both = { λ own told. told };

    ghost spent = { None };
}

/// A reader's place.
pub(crate) type Seat = Reader<Shown, Sight, InTurn>;

/// The writer's place.
pub(crate) type Pen = Writer<Shown, Turn, Sight, InTurn>;
