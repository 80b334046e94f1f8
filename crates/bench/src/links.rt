//! Messages through a link, by one thread and by two.

ghost use Rattle.std.specs.Prelude.{◌≡◌, ◌≤◌, IfOk};
ghost use Rattle.delta_codec.specs.Fits.{Fits};
ghost use Rattle.node_link.specs.Rule.{size_of};

use crate::elapsed::since;
use crate::keys::key;
use crossbeam_utils::Backoff;
use delta_codec::{FibMessage, FibOp, Message};
use flow_types::{Record, Shape};
use node_link::{SendEnd, TakeEnd, Taken, link, receive, send};
use std::alloc::Global;
use std::io;
use std::rt::Clock;
use std::sync::Wait;
use std::thread::{Threads, join};
use std::time::{Duration, Instant};

/// How many messages are sent.
const TIMES: u64 = 2_000_000;

/// How often the taker looks, at most.
const TRIES: u64 = 4_000_000_000;

/// Prints a line for each work: its name, how many messages went, the nanoseconds, and the sum of the turns that came.
pub fn figures<R: Print + AllocGlobal + Clock + Threads + Wait + Sync>(rt: &R) -> io::Result<()> {
    let Some(shape) = Shape::new(16, 256) else {
        return Ok(());
    };
    let Ok((sender, taker)) = link(rt.alloc(), shape) else {
        return println!(rt; "no memory for a link");
    };
    let start = Instant::now(rt);
    let (sender, taker, turns) = one_by_one(rt, sender, taker, shape);
    tell(rt, "links_one_by_one", since(rt, start), turns)?;
    let start = Instant::now(rt);
    let (sender, taker, turns) = at_once(rt, sender, taker, shape, false);
    tell(rt, "links_from_thread_to_thread", since(rt, start), turns)?;
    let start = Instant::now(rt);
    let (_sender, _taker, turns) = at_once(rt, sender, taker, shape, true);
    tell(rt, "links_to_a_taker_that_rests", since(rt, start), turns)
}

fn tell(rt: &impl Print, name: &str, taken: Duration, turns: u64) -> io::Result<()> {
    println!(rt; "{name} {TIMES} {} {turns}", taken.as_nanos())
}

/// The message of a turn, one of 65,535 in turn: a key is put.
fn message(number: u64) -> Message
    ensures { Fits (size_of 16 256) result }
{
    let info = Record {
        teid: (number & 0xFFFF) as u32,
        base: 0xC0A8_0009,
    };
    Message::Fib(FibMessage {
        owner: 5,
        turn: (number % 65_535) as u32 + 1,
        block: 21,
        group: 7,
        op: FibOp::Put(key(1, number), info),
    })
}

/// The turn of what was taken, or nothing.
fn turn_of(taken: &Taken) -> Option<u64> {
    match taken {
        Taken::Item(Message::Fib(fib)) => Some(u64::from(fib.turn)),
        Taken::Item(Message::Table(table)) => Some(u64::from(table.turn)),
        Taken::Empty => None,
    }
}

/// Takes each message as soon as it is sent.
fn one_by_one<R: Wait>(
    rt: &R,
    sender: SendEnd,
    taker: TakeEnd,
    shape: Shape,
) -> (SendEnd, TakeEnd, u64)
    requires shape { shape ≡ size_of 16 256 }
    requires sender { sender.size ≡ shape }
    requires taker { taker.size ≡ shape }
    ensures sender { result.0.size ≡ shape }
    ensures taker { result.1.size ≡ shape }
{
    let (mut sender, mut taker) = (sender, taker);
    let mut turns = 0u64;
    'messages: for number in 0..TIMES {
        if send(rt, &mut sender, shape, &message(number)).is_err() {
            break;
        }
        if let Ok(taken) = receive(rt, &mut taker, shape) {
            turns = turns.wrapping_add(turn_of(&taken).unwrap_or(0));
        }
    }
    (sender, taker, turns)
}

fn send_all<R: Wait>(rt: &R, end: SendEnd, shape: Shape) -> SendEnd
    requires shape { shape ≡ size_of 16 256 }
    requires sender { end.size ≡ shape }
    ensures { result.size ≡ shape }
{
    let mut end = end;
    'messages: for number in 0..TIMES {
        if send(rt, &mut end, shape, &message(number)).is_err() {
            break;
        }
    }
    end
}

/// Takes all messages. Where the link is empty, it looks again at once, or rests for a while that grows.
fn take_all<R: Wait>(rt: &R, end: TakeEnd, shape: Shape, rests: bool) -> (TakeEnd, u64)
    requires { end.size ≡ shape }
    ensures { result.0.size ≡ shape }
{
    let mut end = end;
    let backoff = Backoff::new();
    let mut turns = 0u64;
    let mut count = 0u64;
    'tries: for _ in 0..TRIES {
        if count >= TIMES {
            break;
        }
        if let Ok(taken) = receive(rt, &mut end, shape) {
            if let Some(turn) = turn_of(&taken) {
                turns = turns.wrapping_add(turn);
                count += 1;
                backoff.reset();
            } else if rests {
                backoff.snooze();
            }
        }
    }
    (end, turns)
}

/// Both ends at work.
fn at_once<R: Threads + Wait + Sync>(
    rt: &R,
    sender: SendEnd,
    taker: TakeEnd,
    shape: Shape,
    rests: bool,
) -> (SendEnd, TakeEnd, u64)
    requires shape { shape ≡ size_of 16 256 }
    requires sender { sender.size ≡ shape }
    requires taker { taker.size ≡ shape }
    ensures sender { result.0.size ≡ shape }
    ensures taker { result.1.size ≡ shape }
{
    let (sender, (taker, turns)) = join(
        rt,
        move || -> SendEnd
            requires { (shape ≡ size_of 16 256) × (sender.size ≡ shape) }
            ensures { result.size ≡ shape }
        { send_all(rt, sender, shape) },
        move || -> (TakeEnd, u64)
            requires { taker.size ≡ shape }
            ensures { result.0.size ≡ shape }
        { take_all(rt, taker, shape, rests) },
    );
    (sender, taker, turns)
}
