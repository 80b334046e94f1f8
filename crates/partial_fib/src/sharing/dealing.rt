ghost use Rattle.std.specs.Prelude.{◌≡◌, ◌<◌, ◌≤◌, [], drop, replicate, vec_len, vec_capacity, false, Some, IfOk};
ghost use Rattle.partial_fib.specs.declared.sharing.shown.Shown.{Shown};
ghost use Rattle.partial_fib.specs.Ends.{ReaderState, reader_told};
ghost use Rattle.partial_fib.specs.History.{shared_fib};
ghost use Rattle.partial_fib.specs.Rule.{IsRight};

use crate::fib::Fib;
use crate::sharing::history::{Author, Origin, Past, origin};
use crate::sharing::reader::FibReader;
use crate::sharing::shown::{Looks, Pen, Seat, Shown, Tells};
use crate::sharing::writer::FibWriter;
use out_of_memory::OutOfMemory;
use std::alloc::Global;
use std::sync::Wait;

/// Shares a FIB among one writer and this number of readers, which have seen no turn yet. There is at least one reader, and the
/// FIB has taken no turn.
///
/// After `OutOfMemory` the FIB is dropped. It asks again for a reader that it isn't given at once.
pub fn share<R: Wait>(
    rt: &R,
    alloc: Global,
    fib: Fib,
    readers: u8,
) -> Result<(FibWriter, Vec<FibReader>), OutOfMemory>
    requires some { 0 < readers }
    requires fresh { fib.taken ≡ 0 }
    ensures writer { IfOk result (λ ends. ends.0 ≡ record { book = ends.0.book; opening = fib; turns = []; spent = false }) }
    ensures readers { IfOk result (λ ends. ends.1.items ≡ replicate readers (reader_told ends.0)) }
{
    let mut ends = Vec::with_capacity(alloc, usize::from(readers))?;
    let author = Author::new();
    let opening = origin(&fib);
    let _whole = fib.len();
    let copy = fib.clone()?;
    let first = Shown {
        fib,
        origin: opening.again(),
        past: author.past.again(),
    };
    let second = Shown {
        fib: copy,
        origin: opening.again(),
        past: author.past.again(),
    };
    let pen = opened(rt, Pen::new(alloc, first, second, usize::from(readers))?)?;
    let pen = dealt(rt, pen, &opening, &author.past, &mut ends, readers);
    let past = author.past.again();
    let writer = FibWriter::new(pen, author, opening, past);
    may_cross(&writer);
    may_cross(&ends);
    Ok((writer, ends))
}

/// It may go to another thread.
fn may_cross<T: Send>(_end: &T) {}

/// Shows the FIB for the first time, so that the writer knows what is shown.
fn opened<R: Wait>(rt: &R, pen: Pen) -> Result<Pen, OutOfMemory>
    requires idle { drop pen.behind pen.log.items ≡ [] }
    requires right { IsRight pen.desk.shown.value }
    ensures shown { IfOk result (λ p. p.desk.shown.value ≡ pen.desk.shown.value) }
    ensures right { IfOk result (λ p. IsRight p.desk.shown.value) }
    ensures known { IfOk result (λ p. p.desk.place.me.0.client ≡ Some pen.desk.shown.value) }
    ensures idle { IfOk result (λ p. drop p.behind p.log.items ≡ []) }
{
    let (pen, done) = pen.publish_as::<Looks, R>(rt);
    match done {
        Ok(()) => Ok(pen),
        Err(_) => {
            pen.take(rt);
            Err(OutOfMemory)
        }
    }
}

/// Gives this number of readers, each of which knows what the writer knows.
fn dealt<R: Wait>(
    rt: &R,
    pen: Pen,
    opening: &Origin,
    past: &Past,
    ends: &mut Vec<FibReader>,
    readers: u8,
) -> Pen
    requires known { pen.desk.place.me.0.client ≡ Some pen.desk.shown.value }
    requires shown { (pen.desk.shown.value.origin ≡ opening.now) × (pen.desk.shown.value.past ≡ past.now) × (past.now.log ≡ []) }
    requires none { (ends.old.items ≡ []) × (vec_len ends.old ≡ 0) }
    requires room { readers ≤ vec_capacity ends.old }
    ensures shown { result.desk.shown.value ≡ pen.desk.shown.value }
    ensures idle { drop result.behind result.log.items ≡ drop pen.behind pen.log.items }
    ensures readers { ends.new.items ≡ replicate readers (record { book = past.now.book; opening = shared_fib opening.now.log; turns = [] }) }
{
    let mut pen = pen;
    'readers: for _ in 0..readers {
        let (back, seat) = seated(rt, pen);
        pen = back;
        ends.push_reserved(FibReader::new(seat, opening.again(), past.again()));
    }
    pen
}

/// A reader's place that knows what the writer knows.
fn seated<R: Wait>(rt: &R, pen: Pen) -> (Pen, Seat)
    requires { pen.desk.place.me.0.client ≡ Some pen.desk.shown.value }
    ensures known { result.0.desk.place.me.0.client ≡ pen.desk.place.me.0.client }
    ensures shown { result.0.desk.shown ≡ pen.desk.shown }
    ensures pending { drop result.0.behind result.0.log.items ≡ drop pen.behind pen.log.items }
    ensures seat { result.1.place.me.0.client ≡ Some pen.desk.shown.value }
{
    let mut pen = pen;
    'asks: for _ in rt.forever() {
        if let Ok(seat) = pen.factory().reader() {
            let mut seat = seat;
            seat.learn::<Tells>(pen.tell::<Tells>());
            return (pen, seat);
        }
    }
    unreachable!()
}
