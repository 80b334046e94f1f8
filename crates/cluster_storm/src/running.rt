//! A storm's run, from the bytes of the input to the printed text.
ghost use Rattle.std.specs.Prelude.{◌≤◌, ◌<◌, ◌^◌, ℕ, List, All, IfOk, length};
ghost use Rattle.flow_types.specs.Input.{most_octets};
ghost use Rattle.packet_reader.specs.declared.mode.Mode.TheVariants.{Storm};
ghost use Rattle.run_model.specs.Laws.{CanBeOpened, IsRow};
ghost use Rattle.storm_model.specs.Storm.{IsNoCarry};
ghost use Rattle.cluster_open.specs.Input.{opened};
ghost use Rattle.cluster_open.specs.Opened.{AreOpenedNodes, AreOpenedSenders};
ghost use Rattle.cluster_open.specs.Reading.{IsReadFrom};
ghost use Rattle.cluster_open.specs.Runs.{AnswersRun, AreRunReplies};

use crate::making::make_storm;
use crate::phases::run_storm;
use cluster_open::{ClusterParts, InputFault, InputRows, open_parts, read_rows};
use flow_reader::Opening;
use out_of_memory::OutOfMemory;
use packet_reader::{Event, Mode};
use run_model::Reply;
use run_report::report;
use sb_io::Gate;
use std::alloc::Global;
use std::sync::Wait;
use std::thread::Threads;

/// The printed run of an input by threads: the rows up to `begin` are read, then the script, the table is built, lanes answer
/// the packets while owners accept the updates, and the report prints the replies. The fault is the first row that
/// breaks a rule, or else the first block that is past a limit.
///
/// `workers` threads build the table, 1..=64, and there are 1..=8 lanes: they change what may be printed in nothing but
/// which packets see a group's older or newer versions. The gate is passed round each step of a worker.
pub fn storm<R: Threads + Wait + Sync, G: Gate + Sync>(
    rt: &R,
    alloc: Global,
    bytes: &[u8],
    workers: u8,
    lanes: u8,
    gate: &G,
) -> Result<Vec<u8>, InputFault>
    requires some_worker { 1 ≤ workers }
    requires few_workers { workers ≤ 64 }
    requires some_lane { 1 ≤ lanes }
    requires few_lanes { lanes ≤ 8 }
    requires limit { length bytes.now ≤ most_octets }
    ensures { AnswersRun Storm lanes bytes.now result }
{
    match read_rows(alloc, bytes, Mode::Storm) {
        Ok(input) => storm_input(rt, alloc, input, workers, lanes, gate),
        Err(fault) => Err(fault),
    }
}

/// What `storm` answers for the octets of which this input was read. A caller that owns the octets can free them before.
pub fn storm_input<R: Threads + Wait + Sync, G: Gate + Sync>(
    rt: &R,
    alloc: Global,
    input: InputRows,
    workers: u8,
    lanes: u8,
    gate: &G,
) -> Result<Vec<u8>, InputFault>
    requires some_worker { 1 ≤ workers }
    requires few_workers { workers ≤ 64 }
    requires some_lane { 1 ≤ lanes }
    requires read { (octets : List ℕ) × IsReadFrom Storm octets input.opening input.script.items }
    ensures { (octets : List ℕ) → IsReadFrom Storm octets input.opening input.script.items →
        AnswersRun Storm lanes octets result }
{
    let InputRows { opening, script } = input;
    let parts = match open_parts(rt, alloc, &opening, workers) {
        Ok(parts) => parts,
        Err(fault) => return Err(fault),
    };
    let replies = answer(rt, alloc, opening, parts, lanes, gate, script.as_slice())?;
    Ok(report(alloc, script.as_slice(), replies.as_slice())?)
}

/// The replies to the script of a storm that was opened so. It is closed then, whether or not memory was wanting.
fn answer<R: Threads + Wait + Sync, G: Gate + Sync>(
    rt: &R,
    alloc: Global,
    opening: Opening,
    parts: ClusterParts,
    lanes: u8,
    gate: &G,
    script: &[Event],
) -> Result<Vec<Reply>, OutOfMemory>
    requires some_lane { 1 ≤ lanes }
    requires can { CanBeOpened (opened opening) }
    requires owners { AreOpenedSenders opening.shape opening.flows parts.owners.items }
    requires nodes { AreOpenedNodes opening.shape opening.flows parts.nodes.items }
    requires few { length script.now < 2 ^ 32 }
    requires carries { All IsNoCarry script.now }
    requires rows { All (IsRow (opened opening)) script.now }
    ensures { IfOk result (λ replies. AreRunReplies Storm lanes (opened opening) script.now replies.items) }
{
    let Opening {
        shape,
        flows,
        begin_row: _,
    } = opening;
    let mut storm = make_storm(rt, alloc, shape, flows, parts, script, lanes)?;
    let answered = run_storm(rt, alloc, gate, &mut storm, script);
    storm.close(rt);
    answered
}
