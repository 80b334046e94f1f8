//! Finds in a FIB by one to three threads, alone, beside a writer that applies turns at a steady rate, and beside one that
//! applies them without pause.

ghost use Rattle.std.specs.Prelude.{◌≡◌, ◌<◌, All};

use crate::finding::{FLOWS, LAST_TURN, NOTHING, Run, applies, finds, opened};
use partial_fib::{FibReader, FibWriter};
use std::rt::Clock;
use std::sync::Wait;
use std::sync::atomic::{AtomicBool, Ordering};
use std::thread::Threads;
use std::time::Duration;
use std::{io, thread};

/// How many finds each thread makes where no writer applies.
const TIMES: u64 = 4_000_000;
/// How many microseconds after a turn's time the next turn's time comes, at a steady writer.
const STEP: u64 = 10;

/// How a writer applies while others find.
#[derive(Clone, Copy)]
enum Pace {
    /// Not at all.
    Still,
    /// At a steady rate.
    Steady,
    /// Without pause.
    Full,
}

/// A thread that finds, so many times, or until the writer is done.
#[derive(Drop)]
struct Finder {
    reader: FibReader,
    times: u64,
    run: Run,
    ghost of_one_block: { (reader.opening.size ≡ record { nodes = 2; blocks = 1 }) × (reader.opening.owner ≡ 0) },
}

/// A thread that applies turns up to the last.
struct Applier {
    writer: FibWriter,
    pace: Pace,
    run: Run,
    ghost of_one_block: { writer.opening.size ≡ record { nodes = 2; blocks = 1 } },
}

enum Task {
    Idles,
    Finds(Finder),
    Applies(Applier),
}

/// Prints a line for each thread: its name, how often it found or applied, the nanoseconds, and the sum of what it found.
pub fn figures<R: Print + AllocGlobal + Clock + Threads + Wait + Sync>(rt: &R) -> io::Result<()> {
    'readers: for readers in 1..=3u8 {
        measured(rt, readers, Pace::Still)?;
        measured(rt, readers, Pace::Steady)?;
        measured(rt, readers, Pace::Full)?;
    }
    Ok(())
}

/// Finds by so many readers, beside a writer of this pace.
fn measured<R: Print + AllocGlobal + Clock + Threads + Wait + Sync>(
    rt: &R,
    readers: u8,
    pace: Pace,
) -> io::Result<()>
    requires { 0 < readers }
{
    let Some((mut writer, mut ends)) = opened(rt, rt.alloc(), readers) else {
        return println!(rt; "no memory for a FIB");
    };
    let filled = applies(rt, &mut writer, 0, FLOWS, Duration::ZERO);
    let times = match pace {
        Pace::Still => TIMES,
        Pace::Steady | Pace::Full => u64::MAX,
    };
    let one = finding(&mut ends, times);
    let two = finding(&mut ends, times);
    let three = finding(&mut ends, times);
    let mut tasks = [one, two, three, applying(writer, pace)];
    work(rt, &mut tasks);
    let [one, two, three, four] = tasks;
    let (finds, applies) = names(pace);
    let told = tell(rt, "fibs_apply", 0, filled);
    let one = end(rt, one, readers, finds);
    let two = end(rt, two, readers, finds);
    let three = end(rt, three, readers, finds);
    let four = end(rt, four, readers, applies);
    told.and(one).and(two).and(three).and(four)
}

/// What finds beside a writer of this pace are called, and its turns.
fn names(pace: Pace) -> (&'static str, &'static str) {
    match pace {
        Pace::Still => ("fibs_find", "fibs_apply"),
        Pace::Steady => (
            "fibs_find_beside_a_steady_writer",
            "fibs_apply_steadily_beside_readers",
        ),
        Pace::Full => ("fibs_find_beside_a_writer", "fibs_apply_beside_readers"),
    }
}

/// The task of one more reader, or none where there is no other.
fn finding(ends: &mut Vec<FibReader>, times: u64) -> Task
    requires { All (λ reader. (reader.opening.size ≡ record { nodes = 2; blocks = 1 }) × (reader.opening.owner ≡ 0)) ends.old.items }
    ensures { All (λ reader. (reader.opening.size ≡ record { nodes = 2; blocks = 1 }) × (reader.opening.owner ≡ 0)) ends.new.items }
{
    match ends.pop() {
        None => Task::Idles,
        Some(reader) => Task::Finds(Finder {
            reader,
            times,
            run: NOTHING,
        }),
    }
}

/// The writer's task: the turns that are left, or none.
fn applying(writer: FibWriter, pace: Pace) -> Task
    requires { writer.opening.size ≡ record { nodes = 2; blocks = 1 } }
{
    Task::Applies(Applier {
        writer,
        pace,
        run: NOTHING,
    })
}

/// All threads at once. The readers end with the writer, if it applies.
fn work<R: Clock + Threads + Wait + Sync>(rt: &R, tasks: &mut [Task]) {
    let done = AtomicBool::new(false);
    thread::for_each_mut(rt, tasks, 4, &|_, task| act(rt, &done, task));
}

/// One thread's work.
fn act<R: Clock + Wait>(rt: &R, done: &AtomicBool, task: &mut Task) {
    match task {
        Task::Idles => (),
        Task::Finds(finder) => {
            finder.run = finds(rt, &mut finder.reader, finder.times, done);
        }
        Task::Applies(applier) => {
            let step = match applier.pace {
                Pace::Still => return,
                Pace::Steady => Duration::from_micros(STEP),
                Pace::Full => Duration::ZERO,
            };
            applier.run = applies(rt, &mut applier.writer, FLOWS, LAST_TURN, step);
            done.store(true, Ordering::SeqCst);
        }
    }
}

/// Ends a task, and prints what its thread did.
fn end<R: Print + Wait>(rt: &R, task: Task, readers: u8, name: &str) -> io::Result<()> {
    match task {
        Task::Idles => Ok(()),
        Task::Finds(finder) => tell(rt, name, readers, finder.run),
        Task::Applies(applier) => {
            let Applier { writer, pace, run } = applier;
            writer.close(rt);
            match pace {
                Pace::Still => Ok(()),
                Pace::Steady | Pace::Full => tell(rt, name, readers, run),
            }
        }
    }
}

/// Prints a line: a name with how many readers there were, how often it was done, the nanoseconds, and the sum of what was
/// found.
fn tell(rt: &impl Print, name: &str, readers: u8, run: Run) -> io::Result<()> {
    let nanos = run.taken.as_nanos();
    println!(rt; "{name}_of_{readers} {} {nanos} {}", run.times, run.sum)
}
