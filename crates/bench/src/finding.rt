//! A shared FIB, the turns that are applied to it, and finds in it.

ghost use Rattle.std.specs.Prelude.{◌≡◌, ◌≤◌, ◌<◌, IfSome, All};
ghost use Rattle.delta_codec.specs.Messages.{FibMessageFits};

use crate::elapsed::{since, wait};
use crate::keys::key;
use delta_codec::{FibMessage, FibOp};
use flow_types::{Record, Shape};
use hash_family::mix;
use partial_fib::{Fib, FibReader, FibWriter, share};
use std::alloc::Global;
use std::rt::Clock;
use std::sync::Wait;
use std::sync::atomic::{AtomicBool, Ordering};
use std::time::{Duration, Instant};

/// How many flows stand in the FIB.
pub const FLOWS: u32 = 16_384;
/// The last turn that an owner makes.
pub const LAST_TURN: u32 = 65_535;

/// What a thread did: how often, how long it took, and the sum of what it found.
#[derive(Clone, Copy)]
pub struct Run {
    pub times: u64,
    pub taken: Duration,
    pub sum: u64,
}

/// What a thread did before it began.
pub const NOTHING: Run = Run {
    times: 0,
    taken: Duration::ZERO,
    sum: 0,
};

/// A shared FIB of one block, without a record, or nothing for want of memory.
pub fn opened<R: Wait>(rt: &R, alloc: Global, readers: u8) -> Option<(FibWriter, Vec<FibReader>)>
    requires { 0 < readers }
    ensures writer { IfSome result (λ ends. ends.0.opening.size ≡ record { nodes = 2; blocks = 1 }) }
    ensures readers { IfSome result (λ ends. All (λ reader. (reader.opening.size ≡ record { nodes = 2; blocks = 1 }) × (reader.opening.owner ≡ 0)) ends.1.items) }
{
    let shape = Shape::new(2, 1)?;
    let fib = Fib::open(alloc, shape, 0, 0, &[]).ok()?;
    match share(rt, alloc, fib, readers) {
        Ok(ends) => Some(ends),
        Err(_) => None,
    }
}

/// The owner's turn of a number, which puts one of the flows.
fn turn(number: u32) -> FibMessage
    requires first { 1 ≤ number }
    requires last { number ≤ 65535 }
    ensures { FibMessageFits (record { nodes = 2; blocks = 1 }) result }
{
    FibMessage {
        owner: 0,
        turn: number,
        block: 0,
        group: (number % 64) as u8,
        op: FibOp::Put(
            key(1, u64::from(number % FLOWS)),
            Record {
                teid: number,
                base: 9,
            },
        ),
    }
}

/// Applies the turns after so many, up to the last, each as soon as its time has come: a step after that of the one before.
pub fn applies<R: Clock + Wait>(
    rt: &R,
    writer: &mut FibWriter,
    taken: u32,
    last: u32,
    step: Duration,
) -> Run
    requires size { writer.old.opening.size ≡ record { nodes = 2; blocks = 1 } }
    requires last { last ≤ 65535 }
    ensures { writer.new.opening ≡ writer.old.opening }
{
    let start = Instant::now(rt);
    let mut done = 0u64;
    'turns: for number in taken..last {
        wait(rt, &start, step.saturating_mul(number - taken));
        if writer.apply(rt, &turn(number + 1)).is_ok() {
            done = done.wrapping_add(1);
        }
    }
    Run {
        times: done,
        taken: since(rt, start),
        sum: 0,
    }
}

/// Finds flows so many times, but no more once the writer is done.
pub fn finds<R: Clock + Wait>(rt: &R, reader: &mut FibReader, times: u64, done: &AtomicBool) -> Run
    requires size { reader.old.opening.size ≡ record { nodes = 2; blocks = 1 } }
    requires owner { reader.old.opening.owner ≡ 0 }
    ensures { reader.new.opening ≡ reader.old.opening }
{
    let start = Instant::now(rt);
    let mut found = 0u64;
    let mut sum = 0u64;
    'finds: for number in 0..times {
        if number % 1024 == 0 && done.load(Ordering::SeqCst) {
            break;
        }
        let drawn = mix(number) % u64::from(FLOWS);
        let seen = reader.find(rt, 0, (drawn % 64) as u8, key(1, drawn));
        sum = sum.wrapping_add(u64::from(seen.answer.map_or(0, |info| info.teid)));
        found = found.wrapping_add(1);
    }
    Run {
        times: found,
        taken: since(rt, start),
        sum,
    }
}
