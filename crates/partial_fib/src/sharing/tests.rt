ghost use Rattle.std.specs.Prelude.{◌≡◌, ◌≤◌, ◌<◌, [], length, All, IfOk, IfSome};
ghost use Rattle.partial_fib.specs.Ends.{IsLater};
ghost use Rattle.delta_codec.specs.Messages.{FibMessageFits};

use crate::{Fib, FibReader, FibRefused, FibSeen, FibWriter, share, told};
use delta_codec::{FibMessage, FibOp};
use flow_types::{FlowKey, Record, Shape};
use std::alloc::Global;
use std::process::Abort;
use std::sync::Wait;
use std::test::Fail;
use std::thread::{Threads, join_mut};

/// How many turns the owner makes.
const TURNS: u32 = 10_000;

/// How many turns each put a key that has no record yet, so that the records grow.
const GROWTH: u32 = 12;

/// The FIB of node 3 and owner 1 at shape (4, 2), without a record.
fn opened(alloc: Global) -> Result<Fib, Fail>
    ensures shape { IfOk result (λ fib. (fib.size ≡ record { nodes = 4; blocks = 2 }) × (fib.owner ≡ 1)) }
    ensures fresh { IfOk result (λ fib. fib.taken ≡ 0) }
{
    let shape = Shape::new(4, 2).ok_or("shape")?;
    Ok(Fib::open(alloc, shape, 3, 1, &[])?)
}

/// The one key of a group of block 1 that the owner's turns are of.
fn key_of(group: u8) -> FlowKey {
    FlowKey {
        source: 1,
        destination: 2,
        source_port: 1001 + u16::from(group),
        destination_port: 443,
        protocol: 6,
    }
}

/// What the key of a group has at a version of the group: nothing at each third one.
fn info_of(version: u32) -> Option<Record> {
    if version % 3 == 0 {
        return None;
    }
    Some(Record {
        teid: version,
        base: 9,
    })
}

/// The owner's turn of a number, which is of four groups in turn.
fn turn(number: u32) -> FibMessage
    requires first { 1 ≤ number }
    requires last { number ≤ 65535 }
    ensures { FibMessageFits (record { nodes = 4; blocks = 2 }) result }
{
    let group = ((number - 1) % 4) as u8;
    let key = key_of(group);
    FibMessage {
        owner: 1,
        turn: number,
        block: 1,
        group,
        op: match info_of((number - 1) / 4 + 1) {
            None => FibOp::Drop(key),
            Some(info) => FibOp::Put(key, info),
        },
    }
}

/// Applies the owner's turns in their order, and counts those that were taken.
fn apply_all<R: Wait>(rt: &R, writer: &mut FibWriter) -> u32
    requires size { writer.old.opening.size ≡ record { nodes = 4; blocks = 2 } }
    ensures book { writer.new.book ≡ writer.old.book }
    ensures opening { writer.new.opening ≡ writer.old.opening }
{
    let mut done = 0u32;
    'turns: for number in 0..TURNS {
        if writer.apply(rt, &turn(number + 1)).is_ok() {
            done = done.saturating_add(1);
        }
    }
    done
}

/// Looks many times, and counts the answers that aren't those of the owner's turns up to the version, and the versions that fell.
#[tactic(auto, using(crate::proofs::Keeping::later_self, crate::proofs::Keeping::later_trans))]
fn look_many<R: Wait>(rt: &R, reader: &mut FibReader) -> u32
    requires size { reader.old.opening.size ≡ record { nodes = 4; blocks = 2 } }
    requires owner { reader.old.opening.owner ≡ 1 }
    ensures later { IsLater reader.old reader.new }
{
    let mut wrong = 0u32;
    let mut versions = [0u32; 4];
    'looks: for look in 0..4 * TURNS {
        let group = look as usize % 4;
        let seen = reader.find(rt, 1, group as u8, key_of(group as u8));
        if seen.answer != info_of(seen.version) || seen.version < versions[group] {
            wrong = wrong.saturating_add(1);
        }
        versions[group] = seen.version;
    }
    wrong
}

/// One reader looks while the writer applies.
fn apply_and_look<R: Threads + Wait + Sync>(
    rt: &R,
    writer: &mut FibWriter,
    reader: &mut FibReader,
) -> (u32, u32)
    requires writer { writer.old.opening.size ≡ record { nodes = 4; blocks = 2 } }
    requires size { reader.old.opening.size ≡ record { nodes = 4; blocks = 2 } }
    requires owner { reader.old.opening.owner ≡ 1 }
    ensures writer { writer.new.book ≡ writer.old.book }
    ensures reader { IsLater reader.old reader.new }
{
    join_mut(
        rt,
        &mut || apply_all(rt, writer),
        &mut || look_many(rt, reader),
    )
}

/// Two readers look.
fn look_twice<R: Threads + Wait + Sync>(
    rt: &R,
    one: &mut FibReader,
    other: &mut FibReader,
) -> (u32, u32)
    requires one { (one.old.opening.size ≡ record { nodes = 4; blocks = 2 }) × (one.old.opening.owner ≡ 1) }
    requires other { (other.old.opening.size ≡ record { nodes = 4; blocks = 2 }) × (other.old.opening.owner ≡ 1) }
{
    join_mut(rt, &mut || look_many(rt, one), &mut || look_many(rt, other))
}

/// What a reader finds at the key of a group.
fn finds<R: Wait>(rt: &R, reader: &mut FibReader, group: u8) -> FibSeen
    requires size { reader.old.opening.size ≡ record { nodes = 4; blocks = 2 } }
    requires owner { reader.old.opening.owner ≡ 1 }
    requires group { group < 64 }
    ensures { IsLater reader.old reader.new }
{
    reader.find(rt, 1, group, key_of(group))
}

/// A reader finds this at the key of a group.
fn says<R: Abort + Wait>(rt: &R, reader: &mut FibReader, group: u8, seen: FibSeen)
    requires size { reader.old.opening.size ≡ record { nodes = 4; blocks = 2 } }
    requires owner { reader.old.opening.owner ≡ 1 }
    requires group { group < 64 }
    ensures { IsLater reader.old reader.new }
{
    assert_eq!(rt; finds(rt, reader, group), seen);
}

/// A writer answers this to a turn.
fn answers<R: Abort + Wait>(
    rt: &R,
    writer: &mut FibWriter,
    turn: FibMessage,
    answer: Result<(), FibRefused>,
)
    requires size { writer.old.opening.size ≡ record { nodes = 4; blocks = 2 } }
    requires fits { FibMessageFits (record { nodes = 4; blocks = 2 }) turn }
    ensures book { writer.new.book ≡ writer.old.book }
    ensures opening { writer.new.opening ≡ writer.old.opening }
{
    assert_eq!(rt; writer.apply(rt, &turn), answer);
}

#[test]
fn readers_find_what_is_applied(rt: HostRuntime) -> Result<(), Fail> {
    let (mut writer, mut readers) = share(&rt, rt.alloc(), opened(rt.alloc())?, 1)?;
    let Some(mut reader) = readers.pop() else {
        writer.close(&rt);
        return Err(Fail::from("a reader"));
    };
    let nothing = FibSeen {
        version: 0,
        answer: None,
    };
    let first = FibSeen {
        version: 1,
        answer: info_of(1),
    };
    says(&rt, &mut reader, 0, nothing);
    let early = Err(FibRefused::Early { have: 0 });
    answers(&rt, &mut writer, turn(2), early);
    answers(&rt, &mut writer, turn(1), Ok(()));
    let repeat = Err(FibRefused::Repeat { have: 1 });
    answers(&rt, &mut writer, turn(1), repeat);
    says(&rt, &mut reader, 0, first);
    says(&rt, &mut reader, 1, nothing);
    told(&rt, &mut reader, &mut writer);
    says(&rt, &mut reader, 0, first);
    let fib = writer.into_fib(&rt);
    assert_eq!(rt; fib.taken(), 1);
    assert_eq!(rt; fib.find(1, 0, key_of(0)), first);
    Ok(())
}

#[test]
fn readers_in_threads_find_what_turns_say(rt: HostRuntime) -> Result<(), Fail> {
    let (mut writer, mut readers) = share(&rt, rt.alloc(), opened(rt.alloc())?, 3)?;
    let (Some(mut first), Some(mut second), Some(mut third)) = (
        readers.pop(),
        readers.pop(),
        readers.pop(),
    ) else {
        writer.close(&rt);
        return Err(Fail::from("three readers"));
    };
    let ((done, wrong), others) = join_mut(
        &rt,
        &mut || apply_and_look(&rt, &mut writer, &mut first),
        &mut || look_twice(&rt, &mut second, &mut third),
    );
    told(&rt, &mut first, &mut writer);
    let last = FibSeen {
        version: 2500,
        answer: info_of(2500),
    };
    says(&rt, &mut first, 3, last);
    writer.close(&rt);
    assert_eq!(rt; done, TURNS);
    assert_eq!(rt; wrong.max(others.0).max(others.1), 0);
    Ok(())
}

/// The ends of a shared FIB without a record, and of one reader, or nothing for want of memory.
fn ends<R: Wait>(rt: &R, alloc: Global) -> Option<(FibWriter, Vec<FibReader>)>
    ensures writer { IfSome result (λ ends. ends.0.opening.size ≡ record { nodes = 4; blocks = 2 }) }
    ensures readers { IfSome result (λ ends. All (λ reader. (reader.opening.size ≡ record { nodes = 4; blocks = 2 }) × (reader.opening.owner ≡ 1)) ends.1.items) }
{
    let shape = Shape::new(4, 2)?;
    let fib = Fib::open(alloc, shape, 3, 1, &[]).ok()?;
    match share(rt, alloc, fib, 1) {
        Ok(ends) => Some(ends),
        Err(_) => None,
    }
}

/// The same, asked for again where memory was refused.
fn ends_again<R: Wait>(rt: &R, alloc: Global) -> Option<(FibWriter, Vec<FibReader>)>
    ensures writer { IfSome result (λ ends. ends.0.opening.size ≡ record { nodes = 4; blocks = 2 }) }
    ensures readers { IfSome result (λ ends. All (λ reader. (reader.opening.size ≡ record { nodes = 4; blocks = 2 }) × (reader.opening.owner ≡ 1)) ends.1.items) }
{
    match ends(rt, alloc) {
        Some(both) => Some(both),
        None => ends(rt, alloc),
    }
}

/// The owner's turn of a number, which puts the key of the group with its number.
fn growing(number: u32) -> FibMessage
    requires first { 1 ≤ number }
    requires last { number < 64 }
    ensures { FibMessageFits (record { nodes = 4; blocks = 2 }) result }
{
    let group = number as u8;
    let info = Record {
        teid: number,
        base: 9,
    };
    FibMessage {
        owner: 1,
        turn: number,
        block: 1,
        group,
        op: FibOp::Put(key_of(group), info),
    }
}

/// Applies turns that each put a new key: how many were taken, if each turn after one for which memory was refused was
/// refused in the same way, and no other was.
fn grow<R: Wait>(rt: &R, writer: &mut FibWriter) -> Option<u32>
    requires size { writer.old.opening.size ≡ record { nodes = 4; blocks = 2 } }
    ensures opening { writer.new.opening ≡ writer.old.opening }
{
    let mut taken = 0u32;
    'turns: for number in 0..GROWTH {
        match writer.apply(rt, &growing(number + 1)) {
            Ok(()) if taken == number => taken = number + 1,
            Err(FibRefused::OutOfMemory) => (),
            _ => return None,
        }
    }
    Some(taken)
}

/// How many keys a reader finds other than the turns up to this number say.
fn count_wrong<R: Wait>(rt: &R, reader: &mut FibReader, taken: u32) -> u32
    requires size { reader.old.opening.size ≡ record { nodes = 4; blocks = 2 } }
    requires owner { reader.old.opening.owner ≡ 1 }
{
    let mut wrong = 0u32;
    'turns: for number in 0..GROWTH {
        let seen = finds(rt, reader, number as u8 + 1);
        let there = number < taken;
        if seen.answer.is_some() != there || seen.version != u32::from(there) {
            wrong = wrong.saturating_add(1);
        }
    }
    wrong
}

#[test]
fn shows_what_it_showed_where_memory_is_refused(rt: HostRuntime) -> Result<(), Fail> {
    let Some((mut writer, mut readers)) = ends_again(&rt, rt.alloc()) else {
        return Err(Fail::from("memory"));
    };
    let Some(mut reader) = readers.pop() else {
        writer.close(&rt);
        return Err(Fail::from("a reader"));
    };
    let grown = grow(&rt, &mut writer);
    let refused = match grown {
        Some(GROWTH) => FibRefused::Repeat { have: GROWTH },
        _ => FibRefused::OutOfMemory,
    };
    answers(&rt, &mut writer, growing(1), Err(refused));
    let wrong = count_wrong(&rt, &mut reader, grown.unwrap_or(0));
    writer.close(&rt);
    assert!(rt; grown.is_some(), "each turn, or want of memory");
    assert_eq!(rt; wrong, 0);
    Ok(())
}
