ghost use Rattle.std.specs.Prelude.{◌≡◌, ◌≢◌, ◌↔◌, ℕ, ◌+◌, ◌^◌, ◌<◌, ◌≤◌, ◌++◌, ◌∷◌, [], length, drop, true, false, MatchBool, OnOk, IsErrOf};
ghost use Rattle.delta_codec.specs.Turns.{IsEarly, IsForeign, IsRepeat};
ghost use Rattle.delta_codec.specs.Values.{IsOperation};
ghost use Rattle.partial_fib.specs.declared.refused.FibRefused.{FibRefused};
ghost use Rattle.partial_fib.specs.declared.refused.FibRefused.TheVariants.{Foreign, Repeat, Early, OutOfMemory};
ghost use Rattle.partial_fib.specs.Ends.{after_refusal, published, shared_after};
ghost use Rattle.partial_fib.specs.History.{shared_fib};
ghost use Rattle.delta_codec.specs.Messages.{FibMessageFits, IsNextTurn};
ghost use Rattle.partial_fib.specs.Rule.{IsRight, shown_after};
ghost use Rattle.partial_fib.specs.Store.{state_of};

use crate::fib::Fib;
use crate::refused::FibRefused;
use crate::sharing::history::{Author, Origin, Past};
use crate::sharing::shown::{Looks, Pen, Shown};
use crate::sharing::turn::Turn;
use delta_codec::{FibMessage, FibOp};
use std::marker::Model;
use std::sync::Wait;

/// The one writer of a shared FIB. A contract sees the turns that are published, and whether it has met want of memory.
///
/// It can't be dropped: `into_fib` or `close` ends it.
pub struct FibWriter {
    // A call has it while it publishes.
    pen: Option<Pen>,
    author: Author,
    origin: Origin,
    past: Past,
    spent: bool,
}

impl Model for FibWriter {
    ghost use Rattle.std.specs.Prelude.{◌≡◌, [], drop, false};
    ghost use Rattle.partial_fib.specs.Ends.{WriterState, There};
    ghost use Rattle.partial_fib.specs.History.{shared_fib};
    ghost use Rattle.partial_fib.specs.Rule.{IsRight};

    ghost Value = { WriterState };

    ghost view = { λ w. record { book = w.past.book; opening = shared_fib w.origin.log; turns = w.past.log; spent = w.spent } };

    ghost invariant = { λ w.
        There (λ pen. IsRight pen.desk.shown.value × (pen.desk.shown.value.origin ≡ w.origin) × (pen.desk.shown.value.past ≡ w.past)
        × (w.spent ≡ false → drop pen.behind pen.log.items ≡ [])) w.pen
        × (w.author.past.book ≡ w.past.book) × (w.spent ≡ false → w.author.past.log ≡ w.past.log) };
}

impl FibWriter {
    /// The writer of a FIB that is shown and has taken no turn.
    pub(crate) fn new(pen: Pen, author: Author, origin: Origin, past: Past) -> FibWriter
        requires right { IsRight pen.desk.shown.value }
        requires shown { (pen.desk.shown.value.origin ≡ origin) × (pen.desk.shown.value.past ≡ past) }
        requires idle { drop pen.behind pen.log.items ≡ [] }
        requires author { author.past ≡ past }
        ensures { result ≡ record { book = past.book; opening = shared_fib origin.log; turns = past.log; spent = false } }
    {
        FibWriter {
            pen: Some(pen),
            author,
            origin,
            past,
            spent: false,
        }
    }

    /// Takes the owner's next turn, and shows readers the FIB after it, by one publication. The message fits the cluster's shape.
    ///
    /// It waits for readers that are inside a `find`. After `OutOfMemory` readers find what they found before, and each later
    /// call answers `OutOfMemory`. After another refusal nothing has changed.
    pub fn apply<R: Wait>(&mut self, rt: &R, message: &FibMessage) -> Result<(), FibRefused>
        requires { FibMessageFits self.old.opening.size message.now }
        ensures published { OnOk result (self.new ≡ published self.old message.now) }
        ensures foreign { (owner : ℕ) → IsErrOf result (Foreign owner) ↔
            ((self.old.spent ≡ false) × IsForeign self.old.opening.owner message.now.owner owner) }
        ensures repeat { (have : ℕ) → IsErrOf result (Repeat have) ↔
            ((self.old.spent ≡ false) × IsRepeat self.old.opening.owner (length self.old.turns) message.now.owner message.now.turn have) }
        ensures early { (have : ℕ) → IsErrOf result (Early have) ↔
            ((self.old.spent ≡ false) × IsEarly self.old.opening.owner (length self.old.turns) message.now.owner message.now.turn have) }
        ensures spent { self.old.spent ≡ true → IsErrOf result OutOfMemory }
        ensures refused { (cause : FibRefused) → IsErrOf result cause → self.new ≡ after_refusal self.old cause }
        // It stays the writer of this sharing, whatever it answers.
        ensures book { self.new.book ≡ self.old.book }
        ensures opening { self.new.opening ≡ self.old.opening }
    {
        if self.spent {
            return Err(FibRefused::OutOfMemory);
        }
        if let Err(refused) = self.shown().awaits(message) {
            return Err(refused);
        }
        let Some(pen) = self.pen.take() else {
            unreachable!()
        };
        let (pen, done) = turned(rt, pen, &mut self.author, message);
        match self.pen.replace(pen) {
            None => (),
            Some(_) => unreachable!(),
        }
        if !done {
            self.spent = true;
            return Err(FibRefused::OutOfMemory);
        }
        self.past = self.author.past.again();
        Ok(())
    }

    /// What readers find.
    fn shown(&self) -> &Fib
        ensures size { result.now.size ≡ self.now.opening.size }
        ensures owner { result.now.owner ≡ self.now.opening.owner }
        ensures taken { result.now.taken ≡ length self.now.turns }
    {
        let Some(pen) = &self.pen else { unreachable!() };
        &pen.published().fib
    }

    /// How many turns are published.
    pub(crate) fn taken(&self) -> u32
        ensures { result ≡ length self.now.turns }
    {
        self.shown().taken()
    }

    /// The turns that are published.
    pub(crate) fn past(&self) -> &Past
        ensures book { result.now.book ≡ self.now.book }
        ensures turns { result.now.log ≡ self.now.turns }
    {
        &self.past
    }

    /// Ends the writer, and gives back what readers found last: the FIB that was shared, after the turns that are published.
    ///
    /// It waits for readers that are inside a `find`. A reader that is asked afterwards may never answer. It takes no memory.
    pub fn into_fib<R: Wait>(self, rt: &R) -> Fib
        ensures fib { state_of result ≡ shared_after self.opening self.turns }
        ensures size { result.size ≡ self.opening.size }
        ensures owner { result.owner ≡ self.opening.owner }
        ensures taken { result.taken ≡ length self.turns }
    {
        let FibWriter {
            pen,
            author: _author,
            origin: _origin,
            past: _past,
            spent: _,
        } = self;
        let Some(pen) = pen else { unreachable!() };
        let Shown {
            fib,
            origin: _its_origin,
            past: _its_past,
        } = Box::into_inner(pen.take(rt));
        fib
    }

    /// Ends the writer, and drops the FIB, which `into_fib` gives back. No clause speaks of it, since nothing is left to speak
    /// of: it waits as `into_fib` does, and readers keep what they have seen.
    pub fn close<R: Wait>(self, rt: &R) {
        self.into_fib(rt);
    }
}

/// Writes the next turn into the history and shows it; or, at `false`, shows what was shown.
fn turned<R: Wait>(rt: &R, pen: Pen, author: &mut Author, message: &FibMessage) -> (Pen, bool)
    requires idle { drop pen.behind pen.log.items ≡ [] }
    requires right { IsRight pen.desk.shown.value }
    requires fits { FibMessageFits pen.desk.shown.value.fib.size message.now }
    requires next { IsNextTurn pen.desk.shown.value.fib.owner pen.desk.shown.value.fib.taken message.now }
    requires author { (author.old.past.book ≡ pen.desk.shown.value.past.book) × (author.old.past.log ≡ pen.desk.shown.value.past.log) }
    ensures book { author.new.past.book ≡ author.old.past.book }
    ensures shown { MatchBool result.1
        ((author.new.past.log ≡ author.old.past.log ++ message.now ∷ []) × IsRight result.0.desk.shown.value
        × (result.0.desk.shown.value.origin ≡ pen.desk.shown.value.origin) × (result.0.desk.shown.value.past ≡ author.new.past)
        × (drop result.0.behind result.0.log.items ≡ []))
        (result.0.desk.shown.value ≡ pen.desk.shown.value) }
{
    if !author.add(message) {
        return (pen, false);
    }
    let turn = Turn {
        shape: pen.published().fib.shape(),
        message: *message,
        past: author.past.again(),
    };
    showing(rt, pen, turn)
}

/// Shows one more turn; or, at `false`, what was shown.
fn showing<R: Wait>(rt: &R, pen: Pen, turn: Turn) -> (Pen, bool)
    requires idle { drop pen.behind pen.log.items ≡ [] }
    requires right { IsRight pen.desk.shown.value }
    requires owner { turn.message.owner ≡ pen.desk.shown.value.fib.owner }
    requires shape { turn.shape ≡ pen.desk.shown.value.fib.size }
    requires next { (turn.past.book ≡ pen.desk.shown.value.past.book) × (turn.past.log ≡ pen.desk.shown.value.past.log ++ turn.message ∷ []) }
    ensures { MatchBool result.1
        ((result.0.desk.shown.value ≡ shown_after pen.desk.shown.value turn) × IsRight result.0.desk.shown.value
        × (drop result.0.behind result.0.log.items ≡ []))
        (result.0.desk.shown.value ≡ pen.desk.shown.value) }
{
    are_values(turn.message.op);
    let mut pen = pen;
    match pen.append(turn) {
        Ok(()) => {
            let (pen, done) = pen.publish_as::<Looks, R>(rt);
            (pen, done.is_ok())
        }
        Err(_) => (pen, false),
    }
}

/// The numbers of a turn's change are of their types.
fn are_values(op: FibOp)
    ensures { IsOperation op }
{
    match op {
        FibOp::Nothing => (),
        FibOp::Put(_key, _info) => (),
        FibOp::Drop(_key) => (),
    }
}
