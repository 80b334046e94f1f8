//! The turns of a shared FIB as a history that only grows. It stands in the proofs alone: what memory has of it is its length.
ghost use Rattle.std.specs.Prelude.{◌≡◌, ◌^◌, ◌<◌, ◌++◌, ◌∷◌, [], length, MatchBool};
ghost use Rattle.partial_fib.specs.History.{length_word};

use crate::fib::Fib;
use delta_codec::FibMessage;
use logbook::{Gain, Offer, Opening, Plain, Play, Rule, Seen, Start, Word};

/// The rule of the history: its word is its length.
pub(crate) struct Counted;

impl Rule<FibMessage, u64> for Counted {
    ghost use Rattle.std.specs.Prelude.{[]};
    ghost use base.Fml.{ftrue};
    ghost use Rattle.partial_fib.specs.History.{IsCounted};

    ghost holds = { IsCounted };

    ghost first = { [] };

    ghost hinted = { λ n turns. Unit {0} };

    ghost shows = { λ turns. [] };

    ghost keeps = { λ names turns. ftrue };

    ghost moves = { λ ask before after answer. Unit {0} };
}

/// Who adds a turn trades nothing for it.
pub(crate) struct Nothing;

impl Gain<FibMessage, u64> for Nothing {
    ghost use base.Fml.{ftrue};

    ghost after = { λ names about answer. ftrue };
}

/// The step that adds a turn.
pub(crate) struct Adds;

impl Play<FibMessage, u64> for Adds {
    ghost use Rattle.partial_fib.specs.History.{IsAdded};

    ghost then = { IsAdded };
}

impl Plain<FibMessage, FibMessage, u64> for Adds {
    ghost use Rattle.std.specs.Prelude.{None};

    ghost ask = { λ turn. turn };

    ghost state = { λ turn. None };
}

/// A beginning of the history. It has no bytes.
pub(crate) type Past = Seen<FibMessage, u64, Counted>;

/// Who writes the history, and how long it is.
#[derive(Drop)]
pub(crate) struct Author {
    head: Word<FibMessage, u64, Counted>,
    count: u64,
    pub(crate) past: Past,
    ghost head_is: { head ≡ length_word past.book },
    ghost counted: { count ≡ length past.log },
}

impl Author {
    /// The author of a new history, which has no turn.
    pub(crate) fn new() -> Author
        ensures { result.past.log ≡ [] }
    {
        let (past, mut first, _second) = Seen::open(Start::alone(), 0, 0);
        Author {
            head: Word::tracked(0, &mut first),
            count: 0,
            past,
        }
    }

    /// Adds a turn. At `false` another author has added one, and this one knows no more what the history is.
    pub(crate) fn add(&mut self, turn: &FibMessage) -> bool
        requires room { length self.old.past.log < 2 ^ 62 }
        ensures book { self.new.past.book ≡ self.old.past.book }
        ensures added { MatchBool result (self.new.past.log ≡ self.old.past.log ++ turn.now ∷ []) (Unit {0}) }
    {
        let mut offer: Offer<FibMessage, u64, Counted, Nothing> = self
            .past
            .plain::<Nothing, FibMessage, Adds>(turn);
        let mut pen = self.past.no_pen();
        let count = self.count;
        let found = self
            .head
            .compare_exchange::<Adds, Nothing>(
                count,
                count + 1,
                &mut self.past,
                &mut offer,
                &mut pen,
            );
        self.count = if found == count { count + 1 } else { found };
        found == count
    }
}

/// The rule of a history that has one entry from the start.
pub(crate) struct Fixed;

impl Rule<Fib, u64> for Fixed {
    ghost use Rattle.std.specs.Prelude.{[]};
    ghost use base.Fml.{ftrue};

    ghost holds = { λ cells fibs. Unit {0} };

    ghost first = { [] };

    ghost hinted = { λ n fibs. Unit {0} };

    ghost shows = { λ fibs. [] };

    ghost keeps = { λ names fibs. ftrue };

    ghost moves = { λ ask before after answer. Unit {0} };
}

impl Opening<Fib, Fib> for Fixed {
    ghost use Rattle.std.specs.Prelude.{[], ◌∷◌};

    ghost log = { λ n fib. fib ∷ [] };
}

/// The FIB as it was shared. It has no bytes.
pub(crate) type Origin = Seen<Fib, u64, Fixed>;

/// The FIB as it is.
pub(crate) fn origin(fib: &Fib) -> Origin
    ensures { result.log ≡ fib.now ∷ [] }
{
    Origin::open_row::<Fib, Fixed>(fib, Start::alone(), 1).0
}
