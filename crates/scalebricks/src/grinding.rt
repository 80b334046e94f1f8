//! The mode `grind`: rows that are made from a seed are replayed, and one line about that is printed.

ghost use Rattle.std.specs.Prelude.{◌≡◌, ◌≤◌, ◌⊎◌, IsOk, IfOk, OnOk};
ghost use Rattle.std.specs.Io.KnownBytes.{Appends};
ghost use Rattle.out_of_memory.specs.Answer.{Answers};
ghost use Rattle.sb_io.specs.Faults.{Rose};
ghost use Rattle.sb_io.specs.Streams.{AppendsPart};
ghost use Rattle.cluster_open.specs.Limits.{named_fault};
ghost use Rattle.scalebricks.specs.Grind.{grind_outcome};
ghost use Rattle.scalebricks.specs.Printed.{printed, IsRefused};
ghost use Rattle.scalebricks.specs.Run.{AppendsSummary, outcome_status};
ghost use Rattle.scalebricks.specs.Status.{WritesNothing, code};
ghost use Rattle.scalebricks.specs.Status.Status.{Done, InputRefused, NoMemory, WriteFailed};

use crate::output::{Output, print_output, refused};
use crate::status::{DONE, OUT_OF_MEMORY};
use cluster_replay::{InputFault, answer_rows};
use grind_rows::grind_input;
use out_of_memory::OutOfMemory;
use run_report::summary;
use sb_io::Sink;
use std::alloc::Global;
use std::thread::Threads;

/// The one line about a replay of the rows that `grind_input` makes from the seed: the counts of rows, of accepted and refused
/// updates, and of packets whose flows were found and weren't. The table is built by 1..=64 `workers`, which change
/// nothing in it. The fault is that of the rows.
#[tactic(auto, unfolding(crate::specs::Grind::grind_outcome))]
pub fn grind<R: Threads + Sync>(
    rt: &R,
    alloc: Global,
    seed: u32,
    workers: u8,
) -> Result<Vec<u8>, InputFault>
    requires some_worker { 1 ≤ workers }
    requires few_workers { workers ≤ 64 }
    ensures { Answers (λ text. text.items) named_fault (grind_outcome seed) result }
{
    let rows = grind_input(alloc, seed)?;
    match answer_rows(rt, alloc, rows.as_slice(), workers) {
        Ok(made) => Ok(summary(alloc, seed, made.row_count, made.replies.as_slice())?),
        Err(fault) => Err(fault),
    }
}

/// Prints what a grind comes to, and answers the status.
pub fn grind_seed<K: Sink, R: Threads + Sync>(
    rt: &R,
    alloc: Global,
    seed: u32,
    workers: u8,
    output: &mut K,
) -> u8
    requires some_worker { 1 ≤ workers }
    requires few_workers { workers ≤ 64 }

    // The status is that of the seed's rows, but where the sink fails or memory lacks.
    ensures exact { (result ≡ outcome_status (grind_outcome seed)) ⊎
        ((result ≡ code WriteFailed) ⊎ (result ≡ code NoMemory)) }

    ensures done { result ≡ code Done → AppendsSummary seed (K.held output.old) (K.held output.new) }
    ensures refused { result ≡ code InputRefused →
        IsRefused (grind_outcome seed) × Appends (K.held output.old) (K.held output.new) (printed (grind_outcome seed)) }

    // What 0 or 1 would have appended was cut short.
    ensures write_fault { result ≡ code WriteFailed → Rose (K.faults output.old) (K.faults output.new) }
    ensures cut_short { result ≡ code WriteFailed →
        AppendsPart (K.held output.old) (K.held output.new) (printed (grind_outcome seed)) }

    ensures nothing { WritesNothing result → output.new ≡ output.old }
    ensures write_faults { K.faults output.old ≤ K.faults output.new }
{
    match make_output(rt, alloc, seed, workers) {
        Ok(made) => print_output(made, output),
        Err(OutOfMemory) => OUT_OF_MEMORY,
    }
}

/// Makes what is printed for a seed: the summary of its rows, or the line of their first fault.
#[tactic(auto, using(crate::proofs::Named::named_refused))]
fn make_output<R: Threads + Sync>(
    rt: &R,
    alloc: Global,
    seed: u32,
    workers: u8,
) -> Result<Output, OutOfMemory>
    requires some_worker { 1 ≤ workers }
    requires few_workers { workers ≤ 64 }
    ensures text { IfOk result (λ made. made.text.items ≡ printed (grind_outcome seed)) }
    ensures status { IfOk result (λ made. made.status ≡ outcome_status (grind_outcome seed)) }
    ensures known { OnOk result (IsOk (grind_outcome seed) ⊎ IsRefused (grind_outcome seed)) }
    ensures summary { IfOk result (λ made. made.status ≡ code Done →
        grind_outcome seed ≡ Ok made.text.items) }
{
    match grind(rt, alloc, seed, workers) {
        Ok(text) => Ok(Output { text, status: DONE }),
        Err(fault) => refused(alloc, fault),
    }
}
