ghost use Rattle.std.specs.Prelude.{◌≡◌, ◌+◌, ◌^◌, ◌<◌, ◌++◌, OnOk, IfOk, count_by};
ghost use Rattle.run_report.specs.Report.{AreOfTheirEvents, is_accepted, is_found, is_refused, is_unknown, lines, packets_with, report, summary};

use crate::lines::{write_last_line, write_line, write_summary_line};
use out_of_memory::OutOfMemory;
use packet_reader::Event;
use run_model::Reply;
use std::alloc::{AllocError, Global};

/// As many octets as most lines take at most.
const LINE_LENGTH: usize = 88;

/// As many octets as most summaries take at most.
const SUMMARY_LENGTH: usize = 128;

/// The printed lines of a script and its replies, one reply for each event, and the last line with their counts.
#[tactic(auto, using(crate::proofs::Counts::counts_within), unfolding(crate::specs::Report::report))]
pub fn report(alloc: Global, script: &[Event], replies: &[Reply]) -> Result<Vec<u8>, OutOfMemory>
    requires { AreOfTheirEvents script.now replies.now }
    ensures { IfOk result (λ bytes. bytes.items ≡ report script.now replies.now) }
{
    let mut text = Vec::with_capacity(alloc, script.len().saturating_mul(LINE_LENGTH))?;
    write_lines(&mut text, script, replies)?;
    write_last_line(&mut text, found_count(replies), unknown_count(replies))?;
    Ok(text)
}

/// The one line of a run over `rows` rows that were made from a seed, with the counts of its replies.
#[tactic(auto, using(crate::proofs::Counts::counts_within), unfolding(crate::specs::Report::summary))]
pub fn summary(
    alloc: Global,
    seed: u32,
    rows: u32,
    replies: &[Reply],
) -> Result<Vec<u8>, OutOfMemory>
    ensures { IfOk result (λ bytes. bytes.items ≡ summary seed rows replies.now) }
{
    let updates = (accepted_count(replies), refused_count(replies));
    let packets = (found_count(replies), unknown_count(replies));
    let mut text = Vec::with_capacity(alloc, SUMMARY_LENGTH)?;
    write_summary_line(&mut text, seed, rows, updates, packets)?;
    Ok(text)
}

/// How many replies accepted an update.
fn accepted_count(replies: &[Reply]) -> usize
    ensures { result ≡ count_by is_accepted replies.now }
{
    replies
        .iter()
        .filter(|reply| matches!(reply, Reply::Accepted { .. }))
        .count()
}

/// How many replies refused an update.
fn refused_count(replies: &[Reply]) -> usize
    ensures { result ≡ count_by is_refused replies.now }
{
    replies
        .iter()
        .filter(|reply| matches!(reply, Reply::Refused(_)))
        .count()
}

/// How many replies found the packet's flow.
fn found_count(replies: &[Reply]) -> usize
    ensures { result ≡ count_by is_found replies.now }
{
    replies
        .iter()
        .filter(|reply| matches!(reply, Reply::Found { .. }))
        .count()
}

/// How many replies found no flow.
fn unknown_count(replies: &[Reply]) -> usize
    ensures { result ≡ count_by is_unknown replies.now }
{
    replies
        .iter()
        .filter(|reply| matches!(reply, Reply::Unknown { .. } | Reply::Nowhere { .. }))
        .count()
}

fn write_lines(text: &mut Vec<u8>, script: &[Event], replies: &[Reply]) -> Result<(), AllocError>
    requires { AreOfTheirEvents script.now replies.now }
    ensures { OnOk result (text.new.items ≡ text.old.items ++ lines 0 script.now replies.now) }
{
    let mut packets = 0;
    'events: for (index, event) in script.iter().enumerate() {
        write_line(text, packets, event, &replies[index])?;
        packets = packets_with(packets, event);
    }
    Ok(())
}

/// How many packets there are with this event, after `packets` packets.
fn packets_with(packets: usize, event: &Event) -> usize
    requires { packets + 1 < 2 ^ 64 }
    ensures { result ≡ packets_with packets event.now }
{
    match event {
        Event::Packet { .. } => packets + 1,
        _ => packets,
    }
}
