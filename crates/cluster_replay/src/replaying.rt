ghost use Rattle.std.specs.Prelude.{◌≡◌, ◌+◌, ◌<◌, ◌≤◌, ◌^◌, ℕ, List, IfOk, length};
ghost use Rattle.out_of_memory.specs.Answer.{Answers};
ghost use Rattle.csv_rows.specs.Rows.{rows};
ghost use Rattle.flow_types.specs.Input.{most_octets};
ghost use Rattle.packet_reader.specs.declared.mode.Mode.TheVariants.{Replay};
ghost use Rattle.run_report.specs.Report.{AreOfTheirEvents};
ghost use Rattle.cluster_open.specs.Limits.{named_fault};
ghost use Rattle.cluster_open.specs.Reading.{IsReadFrom};
ghost use Rattle.cluster_open.specs.Runs.{AnswersRun};
ghost use Rattle.cluster_replay.specs.Outcome.{outcome, outcome_by, replay_replies};
ghost use Rattle.cluster_replay.specs.Seen.{said};

use crate::answering::replies;
use crate::opening::open;
use cluster_open::{InputFault, InputRows, read_rows};
use packet_reader::{Event, Mode};
use run_model::Reply;
use run_report::report;
use std::alloc::Global;
use std::thread::Threads;

/// What became of an input's events.
#[derive(Debug, Drop)]
pub struct Replayed {
    /// The events, in order.
    pub script: Vec<Event>,
    /// The reply to each.
    pub replies: Vec<Reply>,
    /// How many rows the input has.
    pub row_count: u32,
}

/// The printed run of an input: the rows up to `begin` are read, then the script, the table is built, each event gets its
/// reply, and the report prints them. The fault is the first row that breaks a rule, or else the first block that is past a
/// limit.
pub fn replay<R: Threads + Sync>(
    rt: &R,
    alloc: Global,
    bytes: &[u8],
    workers: u8,
) -> Result<Vec<u8>, InputFault>
    requires some_worker { 1 ≤ workers }
    requires few_workers { workers ≤ 64 }
    requires limit { length bytes.now ≤ most_octets }
    ensures answers { Answers (λ text. text.items) named_fault (outcome bytes.now) result }
    ensures run { AnswersRun Replay 1 bytes.now result }
{
    match read_rows(alloc, bytes, Mode::Replay) {
        Ok(input) => replay_input(rt, alloc, input, workers),
        Err(fault) => Err(fault),
    }
}

/// The events of an input and the replies to them, as `replay` prints them, with its faults.
pub fn answer_rows<R: Threads + Sync>(
    rt: &R,
    alloc: Global,
    bytes: &[u8],
    workers: u8,
) -> Result<Replayed, InputFault>
    requires some_worker { 1 ≤ workers }
    requires few_workers { workers ≤ 64 }
    requires limit { length bytes.now ≤ most_octets }
    ensures answers { Answers said named_fault (outcome_by replay_replies bytes.now) result }
    ensures fit { IfOk result (λ made. AreOfTheirEvents made.script.items made.replies.items) }
    ensures counted { IfOk result (λ made. made.row_count ≡ length (rows bytes.now)) }
{
    match read_rows(alloc, bytes, Mode::Replay) {
        Ok(input) => answer_input(rt, alloc, input, workers),
        Err(fault) => Err(fault),
    }
}

/// What `replay` answers for the octets of which this input was read. A caller that owns the octets can free them before.
pub fn replay_input<R: Threads + Sync>(
    rt: &R,
    alloc: Global,
    input: InputRows,
    workers: u8,
) -> Result<Vec<u8>, InputFault>
    requires some_worker { 1 ≤ workers }
    requires few_workers { workers ≤ 64 }
    requires read { (octets : List ℕ) × IsReadFrom Replay octets input.opening input.script.items }
    ensures answers { (octets : List ℕ) → IsReadFrom Replay octets input.opening input.script.items →
        Answers (λ text. text.items) named_fault (outcome octets) result }
    ensures run { (octets : List ℕ) → IsReadFrom Replay octets input.opening input.script.items →
        AnswersRun Replay 1 octets result }
{
    match answer_input(rt, alloc, input, workers) {
        Ok(made) => Ok(report(alloc, made.script.as_slice(), made.replies.as_slice())?),
        Err(fault) => Err(fault),
    }
}

/// The replies to the script of an input that was read. The flows of its opening are freed before the first.
fn answer_input<R: Threads + Sync>(
    rt: &R,
    alloc: Global,
    input: InputRows,
    workers: u8,
) -> Result<Replayed, InputFault>
    requires some_worker { 1 ≤ workers }
    requires few_workers { workers ≤ 64 }
    requires read { (octets : List ℕ) × IsReadFrom Replay octets input.opening input.script.items }
    ensures answers { (octets : List ℕ) → IsReadFrom Replay octets input.opening input.script.items →
        Answers said named_fault (outcome_by replay_replies octets) result }
    ensures fit { IfOk result (λ made. AreOfTheirEvents made.script.items made.replies.items) }
    ensures counted { IfOk result (λ made. (octets : List ℕ) →
        IsReadFrom Replay octets input.opening input.script.items →
        made.row_count ≡ length (rows octets)) }
{
    let InputRows { opening, script } = input;
    let mut cluster = match open(rt, alloc, &opening, workers) {
        Ok(cluster) => cluster,
        Err(fault) => return Err(fault),
    };
    let row_count = row_count(opening.begin_row, script.len());
    drop(opening);
    let replies = replies(alloc, &mut cluster, script.as_slice())?;
    Ok(Replayed {
        script,
        replies,
        row_count,
    })
}

/// How many rows there are, where `begin` stands in the row of this number: those up to it, one for each event, and `end`.
fn row_count(begin_row: u32, events: usize) -> u32
    requires { begin_row + events + 1 < 2 ^ 32 }
    ensures { result ≡ begin_row + events + 1 }
{
    begin_row + events as u32 + 1
}
