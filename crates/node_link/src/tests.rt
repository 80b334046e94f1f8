ghost use Rattle.std.specs.Prelude.{◌≡◌, ◌<◌, ◌≤◌, IfOk, IsTrue};
ghost use Rattle.delta_codec.specs.Fits.{Fits};
ghost use Rattle.node_link.specs.Rule.{size_of};

use crate::{SendEnd, TakeEnd, Taken, link, receive, send, settle};
use delta_codec::{FibMessage, FibOp, Message, TableMessage, fits};
use flow_types::{FlowKey, Record, Shape};
use group_search::{GroupRecord, Pair, Row, Rows, Served};
use out_of_memory::OutOfMemory;
use std::alloc::Global;
use std::sync::Wait;
use std::test::Fail;
use std::thread;

/// How many messages go from thread to thread.
const MANY: u32 = 1000;

const INFO: Record = Record {
    teid: 305_419_896,
    base: 0xC0A8_0009,
};

fn key(protocol: u8) -> FlowKey {
    FlowKey {
        source: 0x0A00_0001,
        destination: 0xC000_0207,
        source_port: 1000,
        destination_port: 443,
        protocol,
    }
}

/// Four nodes, one block.
fn shape() -> Result<Shape, Fail>
    ensures { IfOk result (λ shape. shape ≡ size_of 4 1) }
{
    Ok(Shape::new(4, 1).ok_or("a shape")?)
}

fn fib(turn: u32, op: FibOp) -> Message
    requires first { 1 ≤ turn }
    requires last { turn ≤ 65535 }
    ensures { Fits (size_of 4 1) result }
{
    Message::Fib(FibMessage {
        owner: 0,
        turn,
        block: 0,
        group: 5,
        op,
    })
}

fn table(turn: u32, content: GroupRecord) -> Message {
    Message::Table(TableMessage {
        owner: 0,
        turn,
        block: 0,
        group: 5,
        content,
    })
}

fn served() -> GroupRecord {
    let pair = |array| Pair { index: 258, array };
    let none = Pair { index: 0, array: 0 };
    let pairs = [pair(5), pair(128), none, none];
    GroupRecord::Served(Served { bits: 2, pairs })
}

/// The rows of this number of keys, 2..=64.
fn rows(count: u8) -> Result<GroupRecord, Fail>
    requires { count ≤ 64 }
{
    let mut all = [Row::default(); 64];
    'rows: for number in 0..count {
        all[usize::from(number)] = Row {
            key: key(number),
            node: number % 4,
        };
    }
    let rows = Rows::of(&all[..usize::from(count)]).ok_or("rows")?;
    Ok(GroupRecord::Fallback(rows))
}

/// Whether an end may go to another thread.
fn can_go<T: Send>(_end: &T) {}

/// A new link. It is asked for again where memory was refused.
fn linked(alloc: Global, shape: Shape) -> Result<(SendEnd, TakeEnd), OutOfMemory>
    ensures line { IfOk result (λ ends. ends.0.line ≡ ends.1.line) }
    ensures sender { IfOk result (λ ends. ends.0.size ≡ shape) }
    ensures taker { IfOk result (λ ends. ends.1.size ≡ shape) }
{
    match link(alloc, shape) {
        Ok(ends) => Ok(ends),
        Err(_) => link(alloc, shape),
    }
}

/// Sends a message, and again where memory was refused.
fn sends<R: Wait>(
    rt: &R,
    end: &mut SendEnd,
    shape: Shape,
    message: &Message,
) -> Result<(), OutOfMemory>
    requires size { end.old.size ≡ shape }
    requires fits { Fits shape message.now }
    ensures line { end.new.line ≡ end.old.line }
    ensures size { end.new.size ≡ end.old.size }
{
    match send(rt, end, shape, message) {
        Ok(()) => Ok(()),
        Err(_) => send(rt, end, shape, message),
    }
}

#[test]
fn takes_what_was_sent(rt: HostRuntime) -> Result<(), Fail> {
    let shape = shape()?;
    let (mut sender, mut taker) = linked(rt.alloc(), shape)?;
    let first = table(1, served());
    let second = table(2, rows(64)?);
    let third = fib(2, FibOp::Put(key(6), INFO));
    assert!(rt; fits(shape, &first));
    sends(&rt, &mut sender, shape, &first)?;
    assert!(rt; fits(shape, &second));
    sends(&rt, &mut sender, shape, &second)?;
    sends(&rt, &mut sender, shape, &third)?;
    let taken = receive(&rt, &mut taker, shape)?;
    assert_eq!(rt; taken, Taken::Item(first));
    let taken = receive(&rt, &mut taker, shape)?;
    assert_eq!(rt; taken, Taken::Item(second));
    let taken = receive(&rt, &mut taker, shape)?;
    assert_eq!(rt; taken, Taken::Item(third));
    let taken = receive(&rt, &mut taker, shape)?;
    assert_eq!(rt; taken, Taken::Empty);
    Ok(())
}

#[test]
fn settles_what_is_left(rt: HostRuntime) -> Result<(), Fail> {
    let shape = shape()?;
    let (mut sender, mut taker) = linked(rt.alloc(), shape)?;
    let taken = settle(&rt, &mut sender, &mut taker, shape)?;
    assert_eq!(rt; taken, Taken::Empty);
    let first = fib(1, FibOp::Nothing);
    let second = fib(2, FibOp::Drop(key(6)));
    sends(&rt, &mut sender, shape, &first)?;
    sends(&rt, &mut sender, shape, &second)?;
    let taken = settle(&rt, &mut sender, &mut taker, shape)?;
    assert_eq!(rt; taken, Taken::Item(first));
    let taken = receive(&rt, &mut taker, shape)?;
    assert_eq!(rt; taken, Taken::Item(second));
    let taken = settle(&rt, &mut sender, &mut taker, shape)?;
    assert_eq!(rt; taken, Taken::Empty);
    Ok(())
}

/// The message of a turn, which tells of the turn before it, too.
fn numbered(turn: u32) -> Message
    requires first { 1 ≤ turn }
    requires last { turn ≤ 65535 }
    ensures { Fits (size_of 4 1) result }
{
    let info = Record {
        teid: turn - 1,
        base: 0xC0A8_0009,
    };
    fib(turn, FibOp::Put(key(6), info))
}

/// Sends the messages of the turns from 1 on, unless memory ran out.
fn send_many<R: Wait>(rt: &R, end: SendEnd, shape: Shape) -> (SendEnd, bool)
    requires shape { shape ≡ size_of 4 1 }
    requires end { end.size ≡ shape }
    ensures line { result.0.line ≡ end.line }
    ensures size { result.0.size ≡ end.size }
{
    let mut end = end;
    'turns: for turn in 1..MANY + 1 {
        if sends(rt, &mut end, shape, &numbered(turn)).is_err() {
            return (end, false);
        }
    }
    (end, true)
}

/// Whether it is the message of the turn after this one.
fn is_next(taken: &Taken, turns: u32) -> bool
    ensures { IsTrue result → turns < 1000 }
{
    turns < MANY && *taken == Taken::Item(numbered(turns + 1))
}

/// Takes while another thread sends: how many messages came in order, if no other did.
fn take_some<R: Wait>(rt: &R, end: TakeEnd, shape: Shape) -> (TakeEnd, Option<u32>)
    requires { end.size ≡ shape }
    ensures line { result.0.line ≡ end.line }
    ensures size { result.0.size ≡ end.size }
{
    let mut end = end;
    let mut turns = 0;
    'tries: for _ in 0..5000 {
        match receive(rt, &mut end, shape) {
            Ok(Taken::Empty) => thread::yield_now(),
            Ok(taken) if is_next(&taken, turns) => turns += 1,
            _ => return (end, None),
        }
    }
    (end, Some(turns))
}

/// Takes the rest: how many messages came in order in all, with those before, if no other did.
fn settle_all<R: Wait>(
    rt: &R,
    sender: &mut SendEnd,
    taker: &mut TakeEnd,
    shape: Shape,
    turns: u32,
) -> Option<u32>
    requires line { sender.old.line ≡ taker.old.line }
    requires sent_shape { sender.old.size ≡ shape }
    requires taken_shape { taker.old.size ≡ shape }
{
    let mut turns = turns;
    'rest: for _ in 0..MANY + 1 {
        match settle(rt, sender, taker, shape) {
            Ok(Taken::Empty) => return Some(turns),
            Ok(taken) if is_next(&taken, turns) => turns += 1,
            _ => return None,
        }
    }
    None
}

#[test]
fn carries_from_thread_to_thread(rt: HostRuntime) -> Result<(), Fail> {
    let shape = shape()?;
    let (sender, taker) = linked(rt.alloc(), shape)?;
    can_go(&sender);
    can_go(&taker);
    let ((mut sender, sent), (mut taker, taken)) = thread::join(
        &rt,
        move || -> (SendEnd, bool)
            requires { (shape ≡ size_of 4 1) × (sender.size ≡ shape) }
            ensures { (result.0.line ≡ sender.line) × (result.0.size ≡ sender.size) }
        { send_many(&rt, sender, shape) },
        move || -> (TakeEnd, Option<u32>)
            requires { taker.size ≡ shape }
            ensures { (result.0.line ≡ taker.line) × (result.0.size ≡ taker.size) }
        { take_some(&rt, taker, shape) },
    );
    assert!(rt; sent, "memory");
    let turns = taken.ok_or("in order")?;
    let all = settle_all(&rt, &mut sender, &mut taker, shape, turns);
    assert_eq!(rt; all, Some(MANY));
    Ok(())
}
