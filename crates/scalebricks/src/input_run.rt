//! The modes that run an input: the whole input is read and run, and what that comes to is printed.

ghost use Rattle.std.specs.Prelude.{ℕ, ◌≡◌, ◌≢◌, ◌≤◌, ◌↔◌, ◌⊎◌, ◌+◌, IsOk, IfOk, OnOk, IfSome, length};
ghost use Rattle.flow_types.specs.Input.{most_octets};
ghost use Rattle.sb_io.specs.Faults.{Rose};
ghost use Rattle.sb_io.specs.Streams.{ReadsCount, AppendsPart};
ghost use Rattle.cluster_open.specs.Input.{fault_in};
ghost use Rattle.cluster_open.specs.Runs.{AnswersRun};
ghost use Rattle.scalebricks.specs.InputRun.{IsInputRun};
ghost use Rattle.scalebricks.specs.Printed.{printed};
ghost use Rattle.scalebricks.specs.Run.{AppendsLine, AppendsRun, IsOutputOf, IsReadable, OfInput, OfOutcome, status_by, status_of};
ghost use Rattle.scalebricks.specs.Status.{IsHindered, WritesNothing, code};
ghost use Rattle.scalebricks.specs.Status.Status.{Done, InputRefused, NoMemory, ReadFailed, TooLarge, WordsRefused, WriteFailed};

use crate::output::{Output, print_output, refused};
use crate::status::{DONE, INPUT_LIMIT, OUT_OF_MEMORY, READ_FAULT, TOO_LARGE};
use cluster_open::read_vec;
use cluster_replay::{InputFault, replay_input};
use cluster_storm::storm_input;
use out_of_memory::OutOfMemory;
use packet_reader::Mode;
use sb_io::{Gate, ReadRefusal, Sink, Source, read_all};
use std::alloc::Global;
use std::sync::Wait;
use std::thread::Threads;

/// How an input is run.
#[derive(Clone, Copy, Debug)]
pub struct InputRun {
    /// By one thread, or by many.
    pub mode: Mode,
    /// How many workers build the table, 1..=64.
    pub workers: u8,
    /// How many lanes answer packets, 1..=8; in a replay there is one.
    pub lanes: u8,
}

/// Reads the whole input, runs it, prints what that comes to, and answers the status.
pub fn run_input<S: Source, K: Sink, G: Gate + Sync, R: Threads + Sync + Wait>(
    rt: &R,
    alloc: Global,
    how: InputRun,
    input: &mut S,
    output: &mut K,
    gate: &G,
) -> u8
    requires { IsInputRun how }
    ensures known { result ≤ code TooLarge }
    ensures command { result ≢ code WordsRefused }

    // The input was read to its end, and what was appended is a run of its script: the headline.
    ensures done { result ≡ code Done → OfInput (S.left input.old) (S.left input.new)
        (AppendsRun how.mode how.lanes (K.held output.old) (K.held output.new)) }

    // The input was read to its end and has a bad row or a block past a limit, and the line of the first was appended.
    ensures refused { result ≡ code InputRefused → OfInput (S.left input.old) (S.left input.new)
        (OfOutcome how.mode how.lanes (AppendsLine (K.held output.old) (K.held output.new))) }

    ensures read_fault { result ≡ code ReadFailed → Rose (S.faults input.old) (S.faults input.new) }

    // What 0 or 1 would have appended was cut short.
    ensures write_fault { result ≡ code WriteFailed → Rose (K.faults output.old) (K.faults output.new) }
    ensures cut_short { result ≡ code WriteFailed → OfInput (S.left input.old) (S.left input.new)
        (OfOutcome how.mode how.lanes (λ outcome. AppendsPart (K.held output.old) (K.held output.new) (printed outcome))) }

    // One octet more than the limit was read.
    ensures too_large { IfSome (S.left input.old) (λ octets.
        (result ≡ code TooLarge) ↔ ReadsCount octets (S.left input.new) (most_octets + 1)) }

    ensures nothing { WritesNothing result → output.new ≡ output.old }

    // Whatever it answers, it read from the start, and no more than that; no count of faults has fallen.
    ensures gone { IfSome (S.left input.old) (λ octets.
        (n : ℕ) × (n ≤ most_octets + 1) × ReadsCount octets (S.left input.new) n) }
    ensures read_faults { S.faults input.old ≤ S.faults input.new }
    ensures write_faults { K.faults output.old ≤ K.faults output.new }

    // The status is that of the input, but where a fault or want of memory comes first.
    ensures exact { IfSome (S.left input.old) (λ octets. (result ≡ status_of how.mode octets) ⊎
        IsHindered result) }
    ensures complete { IfSome (S.left input.old) (λ octets. IsReadable how.mode octets
        → ¬ Rose (S.faults input.old) (S.faults input.new) → ¬ Rose (K.faults output.old) (K.faults output.new)
        → (result ≡ code Done) ⊎ (result ≡ code NoMemory)) }
{
    let made = match read_all(alloc, input, INPUT_LIMIT) {
        Ok(bytes) => make_output(rt, alloc, bytes, how, gate),
        Err(ReadRefusal::ReadFault) => return READ_FAULT,
        Err(ReadRefusal::TooLarge { limit: _ }) => return TOO_LARGE,
        Err(ReadRefusal::OutOfMemory) => return OUT_OF_MEMORY,
    };
    match made {
        Ok(made) => print_output(made, output),
        Err(OutOfMemory) => OUT_OF_MEMORY,
    }
}

/// Makes what is printed for an input: its report, or the line of its first bad row or of the first block past a
/// limit. The input is freed once it is read.
fn make_output<G: Gate + Sync, R: Threads + Sync + Wait>(
    rt: &R,
    alloc: Global,
    bytes: Vec<u8>,
    how: InputRun,
    gate: &G,
) -> Result<Output, OutOfMemory>
    requires in_range { IsInputRun how }
    requires limit { length bytes.items ≤ most_octets }
    ensures made { IfOk result (IsOutputOf how.mode how.lanes bytes.items) }
    ensures status { IfOk result (λ made. made.status ≡ status_by (fault_in how.mode bytes.items)) }
{
    match text_of(rt, alloc, bytes, how, gate) {
        Ok(text) => Ok(Output { text, status: DONE }),
        Err(fault) => refused(alloc, fault),
    }
}

/// The report of an input, or its fault.
fn text_of<G: Gate + Sync, R: Threads + Sync + Wait>(
    rt: &R,
    alloc: Global,
    bytes: Vec<u8>,
    how: InputRun,
    gate: &G,
) -> Result<Vec<u8>, InputFault>
    requires in_range { IsInputRun how }
    requires limit { length bytes.items ≤ most_octets }
    ensures { AnswersRun how.mode how.lanes bytes.items result }
{
    let input = match read_vec(alloc, bytes, how.mode) {
        Ok(input) => input,
        Err(fault) => return Err(fault),
    };
    match how.mode {
        Mode::Replay => replay_input(rt, alloc, input, how.workers),
        Mode::Storm => storm_input(rt, alloc, input, how.workers, how.lanes, gate),
    }
}
