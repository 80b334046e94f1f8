ghost use Rattle.std.specs.Prelude.{ℕ, ◌≡◌, ◌≤◌, ◌↔◌, ◌⊎◌, ◌+◌, IfSome, None, map, string_bytes};
ghost use Rattle.flow_types.specs.Input.{most_octets};
ghost use Rattle.sb_io.specs.Faults.{Rose};
ghost use Rattle.sb_io.specs.Streams.{ReadsCount, AppendsPart};
ghost use Rattle.command_words.specs.declared.command.Task.TheVariants.{Grind};
ghost use Rattle.scalebricks.specs.Grind.{grind_outcome};
ghost use Rattle.scalebricks.specs.Printed.{printed};
ghost use Rattle.scalebricks.specs.Run.{AppendsAll, AppendsLine, IsCommand, IsReadable, OfCommand, OfCommandsOutcome, OfRun, outcome_status, status_of};
ghost use Rattle.scalebricks.specs.Status.{IsHindered, WritesNothing, code};
ghost use Rattle.scalebricks.specs.Status.Status.{Done, InputRefused, NoMemory, ReadFailed, TooLarge, WordsRefused, WriteFailed};

use crate::grinding::grind_seed;
use crate::input_run::{InputRun, run_input};
use crate::status::{OUT_OF_MEMORY, WORDS_REFUSED};
use command_words::{Task, read_command};
use out_of_memory::OutOfMemory;
use packet_reader::Mode;
use sb_io::{Gate, Sink, Source};
use std::alloc::Global;
use std::sync::Wait;
use std::thread::Threads;

/// Does what the words ask for, from the whole input to the whole output, and answers the status.
///
/// The words are those after the program's name. Nothing is written before the whole output is made.
pub fn run<S: Source, K: Sink, G: Gate + Sync, R: Threads + Sync + Wait>(
    rt: &R,
    alloc: Global,
    words: &[String],
    input: &mut S,
    output: &mut K,
    gate: &G,
) -> u8
    ensures known { result ≤ code TooLarge }

    // In the mode, on the lanes and with the seed of the words: a replay or a storm read its input to its end, and what was
    // appended is a run of its script that the model allows on that many lanes, which is the headline. A replay has one lane
    // and one such run; a storm has one of several. What a grind appended is the summary of its own rows.
    ensures done { result ≡ code Done → OfCommand (map string_bytes words.now)
        (λ command. AppendsAll command.task command.lanes command.seed
        (S.left input.old) (S.left input.new) (K.held output.old) (K.held output.new)) }

    // The rows have a bad one or a block past a limit, and the line of the first was appended.
    ensures refused { result ≡ code InputRefused → OfCommand (map string_bytes words.now)
        (λ command. OfCommandsOutcome command.task command.lanes command.seed
        (S.left input.old) (S.left input.new) (AppendsLine (K.held output.old) (K.held output.new))) }

    ensures command { result ≡ code WordsRefused → ¬ IsCommand (map string_bytes words.now) }
    ensures no_command { ¬ IsCommand (map string_bytes words.now) → (result ≡ code WordsRefused) ⊎
        (result ≡ code NoMemory) }
    ensures nothing_read { ¬ IsCommand (map string_bytes words.now) → input.new ≡ input.old }

    ensures read_fault { result ≡ code ReadFailed → Rose (S.faults input.old) (S.faults input.new) }

    // What 0 or 1 would have appended was cut short.
    ensures write_fault { result ≡ code WriteFailed → Rose (K.faults output.old) (K.faults output.new) }
    ensures cut_short { result ≡ code WriteFailed → OfCommand (map string_bytes words.now)
        (λ command. OfCommandsOutcome command.task command.lanes command.seed
        (S.left input.old) (S.left input.new) (λ outcome.
        AppendsPart (K.held output.old) (K.held output.new) (printed outcome))) }

    // One octet more than the limit was read.
    ensures too_large { IfSome (S.left input.old) (λ octets.
        (result ≡ code TooLarge) ↔ ReadsCount octets (S.left input.new) (most_octets + 1)) }

    ensures nothing { WritesNothing result → output.new ≡ output.old }

    // Whatever it answers, it read from the start, and no more than that; no count of faults has fallen.
    ensures gone { IfSome (S.left input.old) (λ octets.
        (n : ℕ) × (n ≤ most_octets + 1) × ReadsCount octets (S.left input.new) n) }
    ensures read_faults { S.faults input.old ≤ S.faults input.new }
    ensures write_faults { K.faults output.old ≤ K.faults output.new }

    // The status of a run is that of its input in its mode, but where a fault or want of memory comes first.
    ensures exact_run { OfCommand (map string_bytes words.now)
        (λ command. OfRun command.task command.lanes (λ mode lanes.
        IfSome (S.left input.old) (λ octets. (result ≡ status_of mode octets) ⊎ IsHindered result))) }
    ensures complete_run { OfCommand (map string_bytes words.now)
        (λ command. OfRun command.task command.lanes (λ mode lanes.
        IfSome (S.left input.old) (λ octets. IsReadable mode octets
        → ¬ Rose (S.faults input.old) (S.faults input.new) → ¬ Rose (K.faults output.old) (K.faults output.new)
        → (result ≡ code Done) ⊎ (result ≡ code NoMemory)))) }

    // A grind reads nothing, and its status is that of its own rows, but where the sink fails or memory lacks.
    ensures own_rows { OfCommand (map string_bytes words.now)
        (λ command. command.task ≡ Grind → input.new ≡ input.old) }
    ensures exact_grind { OfCommand (map string_bytes words.now) (λ command. command.task ≡ Grind →
        (result ≡ outcome_status (grind_outcome command.seed)) ⊎ ((result ≡ code WriteFailed) ⊎ (result ≡ code NoMemory))) }
    ensures complete_grind { OfCommand (map string_bytes words.now) (λ command. command.task ≡ Grind →
        ¬ Rose (K.faults output.old) (K.faults output.new)
        → (result ≡ outcome_status (grind_outcome command.seed)) ⊎ (result ≡ code NoMemory)) }
{
    let command = match read_command(alloc, words) {
        Ok(Some(command)) => command,
        Ok(None) => return WORDS_REFUSED,
        Err(OutOfMemory) => return OUT_OF_MEMORY,
    };
    match command.task {
        Task::Replay => {
            let how = InputRun {
                mode: Mode::Replay,
                workers: command.workers,
                lanes: 1,
            };
            run_input(rt, alloc, how, input, output, gate)
        }
        Task::Storm => {
            let how = InputRun {
                mode: Mode::Storm,
                workers: command.workers,
                lanes: command.lanes,
            };
            run_input(rt, alloc, how, input, output, gate)
        }
        Task::Grind => grind_seed(rt, alloc, command.seed, command.workers, output),
    }
}
