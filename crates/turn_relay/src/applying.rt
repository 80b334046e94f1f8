//! What the appliers of a thread do in a phase.
ghost use Rattle.std.specs.Prelude.{◌≡◌, ◌++◌, ◌∷◌, [], List};
ghost use Rattle.delta_codec.specs.declared.message.Message.{Message};
ghost use Rattle.delta_codec.specs.Fits.{Fits};
ghost use Rattle.turn_relay.specs.Each.{Each};
ghost use Rattle.turn_relay.specs.Follow.{ApplierDid, Follow, GoesOn, IsAfterFib, IsAfterTable, PartDid, works};

use crate::applier::Applier;
use crate::part::Part;
use crate::state::State;
use delta_codec::Message;
use node_link::{Taken, receive};
use packet_path::TableSeat;
use partial_fib::{FibRefused, FibWriter};
use replica_shard::ShardRefused;
use sb_io::{Gate, Who};
use std::sync::Wait;
use std::sync::atomic::{AtomicU64, Ordering};
use std::thread;

/// How far messages got, by a table's answer to the last.
fn after_table(answer: Result<(), ShardRefused>) -> State
    ensures { IsAfterTable answer result }
{
    match answer {
        Ok(()) => State::Clear,
        Err(_) => State::Stuck,
    }
}

/// How far messages got, by a FIB's answer to the last.
fn after_fib(answer: Result<(), FibRefused>) -> State
    ensures { IsAfterFib answer result }
{
    match answer {
        Ok(()) => State::Clear,
        Err(FibRefused::OutOfMemory) => State::Failed,
        Err(FibRefused::Foreign { owner: _ }) => State::Stuck,
        Err(FibRefused::Repeat { have: _ }) => State::Stuck,
        Err(FibRefused::Early { have: _ }) => State::Stuck,
    }
}

/// Applies a message that was taken, where all before it were applied.
#[tactic(auto, using(crate::proofs::Follows::stays_stuck))]
fn act<R: Wait>(
    rt: &R,
    table: &mut TableSeat,
    fib: &mut FibWriter,
    state: State,
    message: Message,
) -> State
    requires table { Fits table.old.shard.shape message }
    requires fib { Fits fib.old.opening.size message }
    ensures shard { table.new.shard ≡ table.old.shard }
    ensures book { fib.new.book ≡ fib.old.book }
    ensures opening { fib.new.opening ≡ fib.old.opening }
    ensures follow { (before : List Message) → Follow table.old fib.old before state →
        Follow table.new fib.new (before ++ message ∷ []) result }
{
    match state {
        State::Clear => match message {
            Message::Table(message) => after_table(table.apply(&message)),
            Message::Fib(message) => after_fib(fib.apply(rt, &message)),
        },
        State::Stuck => State::Stuck,
        State::Failed => State::Failed,
    }
}

/// The turn that a message tells.
fn turn_of(message: &Message) -> u32 {
    match message {
        Message::Table(message) => message.turn,
        Message::Fib(message) => message.turn,
    }
}

/// The same as the applier of a node.
pub(crate) fn act_at<R: Wait, G: Gate>(
    rt: &R,
    gate: &G,
    node: u8,
    table: &mut TableSeat,
    fib: &mut FibWriter,
    state: State,
    message: Message,
) -> State
    requires table { Fits table.old.shard.shape message }
    requires fib { Fits fib.old.opening.size message }
    ensures shard { table.new.shard ≡ table.old.shard }
    ensures book { fib.new.book ≡ fib.old.book }
    ensures opening { fib.new.opening ≡ fib.old.opening }
    ensures follow { (before : List Message) → Follow table.old fib.old before state →
        Follow table.new fib.new (before ++ message ∷ []) result }
{
    let turn = turn_of(&message);
    gate.before(Who::Applier(node), turn);
    let now = act(rt, table, fib, state, message);
    gate.after(Who::Applier(node), turn);
    now
}

/// Whether the owner works in the phase.
fn is_working(working: &[bool], owner: u8) -> bool
    ensures { result ≡ works working.now owner }
{
    let owner = usize::from(owner);
    owner < working.len() && working[owner]
}

/// One look at a link, where its owner works in the phase and nothing was refused: whether there was a message.
fn take_one<R: Wait, G: Gate>(rt: &R, gate: &G, working: &[bool], node: u8, part: &mut Part) -> bool
    ensures { PartDid working.now part.old part.new }
{
    if !is_working(working, part.owner) || part.state != State::Clear {
        return false;
    }
    take(rt, gate, node, part)
}

/// One look at a link: whether there was a message. It is applied.
fn take<R: Wait, G: Gate>(rt: &R, gate: &G, node: u8, part: &mut Part) -> bool
    ensures { GoesOn part.old part.new }
{
    let shape = part.shape;
    let Some(end) = &mut part.end else {
        return false;
    };
    let Ok(taken) = receive(rt, end, shape) else {
        unreachable!()
    };
    match taken {
        Taken::Item(message) => {
            part.state = act_at(
                rt,
                gate,
                node,
                &mut part.table,
                &mut part.fib,
                part.state,
                message,
            );
            true
        }
        Taken::Empty => false,
    }
}

/// One look at each link of a node: whether there was a message.
fn take_each<R: Wait, G: Gate>(
    rt: &R,
    gate: &G,
    working: &[bool],
    node: u8,
    parts: &mut [Part],
) -> bool
    ensures { Each (PartDid working.now) parts.old parts.new }
{
    let Some((first, rest)) = parts.split_first_mut() else {
        return false;
    };
    let here = take_one(rt, gate, working, node, first);
    let there = take_each(rt, gate, working, node, rest);
    here || there
}

/// One look at each link of each of these nodes: whether there was a message.
fn take_all<R: Wait, G: Gate>(rt: &R, gate: &G, working: &[bool], appliers: &mut [Applier]) -> bool
    ensures { Each (ApplierDid working.now) appliers.old appliers.new }
{
    let Some((first, rest)) = appliers.split_first_mut() else {
        return false;
    };
    let here = take_each(rt, gate, working, first.node, first.parts.as_mut_slice());
    let there = take_all(rt, gate, working, rest);
    here || there
}

/// The work of these nodes' appliers in a phase: they take and apply messages until this many owners are done and afterwards no
/// link has a message left.
///
/// `working` says by the owners' numbers which work in the phase. Only their links are looked at, and the parts of the others
/// stay as they are. A part that refused a message, or met want of memory, takes no more, and holds up no other. Where nothing
/// is found the thread yields.
#[tactic(auto, using(crate::proofs::Runs::appliers_self, crate::proofs::Runs::appliers_trans))]
pub fn apply_all<R: Wait, G: Gate>(
    rt: &R,
    gate: &G,
    owners: u64,
    done: &AtomicU64,
    working: &[bool],
    appliers: &mut [Applier],
)
    ensures { Each (ApplierDid working.now) appliers.old appliers.new }
{
    'looks: for _ in rt.forever() {
        // It is read before the looks, so that what an owner sent before it was done is found by them.
        let over = done.load(Ordering::SeqCst) >= owners;
        if take_all(rt, gate, working, appliers) {
            continue;
        }
        if over {
            return;
        }
        thread::yield_now();
    }
    unreachable!()
}
