//! The lines of a report, as octets.

ghost use Rattle.std.specs.Prelude.{◌≡◌, ◌+◌, ◌^◌, ◌<◌, [], ◌∷◌, ◌++◌, codes, OnOk};
ghost use Rattle.std.specs.List.{concat};
ghost use Rattle.std.specs.Fmt.{decimal};
ghost use Rattle.run_report.specs.Report.{IsOfCarry, IsOfEvent, IsOfPacket, IsOfUpdate, IsPrinted, accepted_line, carry_line, carry_words, fib_words, found_line, hops, last_line, line, node_words, nowhere_line, packet_line, packet_words, record_words, refusal_words, refused_line, rows_words, seen_words, summary_line, unknown_line, update_line};

use flow_types::{Record, write_address};
use group_history::UpdateRefused;
use line_text::{write_count, write_words};
use packet_reader::Event;
use run_model::Reply;
use std::alloc::AllocError;

/// Appends the line of an event and its reply, after `packets` packets. A `sync` has none.
pub fn write_line(
    text: &mut Vec<u8>,
    packets: usize,
    event: &Event,
    reply: &Reply,
) -> Result<(), AllocError>
    requires { IsOfEvent event.now reply.now }
    ensures { OnOk result (text.new.items ≡ text.old.items ++ line packets event.now reply.now) }
{
    match *event {
        Event::Set(_) => write_update(text, b"set", reply),
        Event::Del(_) => write_update(text, b"del", reply),
        Event::Packet { ingress, .. } => write_packet_line(text, packets, ingress, reply),
        Event::Carry { .. } => write_carry(text, reply),
        Event::Sync => Ok(()),
    }
}

// ---- updates

/// Appends the line of an update, which the word says to set or to delete.
fn write_update(text: &mut Vec<u8>, word: &[u8], reply: &Reply) -> Result<(), AllocError>
    requires { IsOfUpdate reply.now }
    ensures { OnOk result (text.new.items ≡ text.old.items ++ update_line word.now reply.now) }
{
    match *reply {
        Reply::Accepted { owner, turn } => write_accepted(text, word, owner, turn),
        Reply::Refused(refused) => write_refused(text, word, refused),
        _ => unreachable!(),
    }
}

fn write_accepted(text: &mut Vec<u8>, word: &[u8], owner: u8, turn: u32) -> Result<(), AllocError>
    ensures { OnOk result (text.new.items ≡ text.old.items ++ accepted_line word.now owner turn) }
{
    write_words(text, word)?;
    write_count(text, b" accepted owner ", u64::from(owner))?;
    write_count(text, b" turn ", u64::from(turn))?;
    write_words(text, b"\n")
}

fn write_refused(text: &mut Vec<u8>, word: &[u8], refused: UpdateRefused) -> Result<(), AllocError>
    requires { IsPrinted refused }
    ensures { OnOk result (text.new.items ≡ text.old.items ++ refused_line word.now refused) }
{
    write_words(text, word)?;
    write_words(text, b" refused ")?;
    write_refusal(text, refused)?;
    write_words(text, b"\n")
}

/// Appends for what an update was refused.
fn write_refusal(text: &mut Vec<u8>, refused: UpdateRefused) -> Result<(), AllocError>
    requires { IsPrinted refused }
    ensures { OnOk result (text.new.items ≡ text.old.items ++ concat (refusal_words refused)) }
{
    match refused {
        UpdateRefused::Spent { .. } => write_words(text, b"spent"),
        UpdateRefused::Absent => write_words(text, b"absent"),
        UpdateRefused::BlockFull { block } => {
            write_count(text, b"blockfull block ", u64::from(block))
        }
        UpdateRefused::RowsFull { needed, free, .. } => write_rows(text, needed, free),
        UpdateRefused::OutOfMemory => unreachable!(),
    }
}

fn write_rows(text: &mut Vec<u8>, needed: u32, free: u32) -> Result<(), AllocError>
    ensures { OnOk result (text.new.items ≡ text.old.items ++ concat (rows_words needed free)) }
{
    write_count(text, b"rowsfull needed ", u64::from(needed))?;
    write_count(text, b" free ", u64::from(free))
}

// ---- packets

fn write_packet_line(
    text: &mut Vec<u8>,
    number: usize,
    ingress: u8,
    reply: &Reply,
) -> Result<(), AllocError>
    requires { IsOfPacket reply.now }
    ensures { OnOk result (text.new.items ≡ text.old.items ++ packet_line number ingress reply.now) }
{
    match *reply {
        Reply::Found {
            node,
            seen,
            fib,
            info,
        } => write_found(text, number, ingress, node, seen, fib, info),
        Reply::Unknown { node, seen, fib } => write_unknown(text, number, ingress, node, seen, fib),
        Reply::Nowhere { seen } => write_nowhere(text, number, ingress, seen),
        _ => unreachable!(),
    }
}

fn write_found(
    text: &mut Vec<u8>,
    number: usize,
    ingress: u8,
    node: u8,
    seen: u32,
    fib: u32,
    info: Record,
) -> Result<(), AllocError>
    ensures { OnOk result (text.new.items ≡ text.old.items ++ found_line number ingress node seen fib info) }
{
    write_packet(text, number, ingress)?;
    write_node(text, ingress, node)?;
    write_seen(text, seen)?;
    write_fib(text, fib)?;
    write_record(text, info)?;
    write_words(text, b"\n")
}

fn write_unknown(
    text: &mut Vec<u8>,
    number: usize,
    ingress: u8,
    node: u8,
    seen: u32,
    fib: u32,
) -> Result<(), AllocError>
    ensures { OnOk result (text.new.items ≡ text.old.items ++ unknown_line number ingress node seen fib) }
{
    write_packet(text, number, ingress)?;
    write_node(text, ingress, node)?;
    write_seen(text, seen)?;
    write_fib(text, fib)?;
    write_words(text, b" unknown")?;
    write_words(text, b"\n")
}

fn write_nowhere(
    text: &mut Vec<u8>,
    number: usize,
    ingress: u8,
    seen: u32,
) -> Result<(), AllocError>
    ensures { OnOk result (text.new.items ≡ text.old.items ++ nowhere_line number ingress seen) }
{
    write_packet(text, number, ingress)?;
    write_seen(text, seen)?;
    write_words(text, b" unknown")?;
    write_words(text, b"\n")
}

fn write_packet(text: &mut Vec<u8>, number: usize, ingress: u8) -> Result<(), AllocError>
    ensures { OnOk result (text.new.items ≡ text.old.items ++ concat (packet_words number ingress)) }
{
    write_count(text, b"packet ", number as u64)?;
    write_count(text, b" in ", u64::from(ingress))
}

fn write_node(text: &mut Vec<u8>, ingress: u8, node: u8) -> Result<(), AllocError>
    ensures { OnOk result (text.new.items ≡ text.old.items ++ concat (node_words ingress node)) }
{
    write_count(text, b" to ", u64::from(node))?;
    write_count(text, b" hops ", u64::from(hops(ingress, node)))
}

/// How often a packet crosses the switch between its ingress and its node.
fn hops(ingress: u8, node: u8) -> u8
    ensures { result ≡ hops ingress node }
{
    u8::from(node != ingress)
}

fn write_seen(text: &mut Vec<u8>, seen: u32) -> Result<(), AllocError>
    ensures { OnOk result (text.new.items ≡ text.old.items ++ concat (seen_words seen)) }
{
    write_count(text, b" seen ", u64::from(seen))
}

fn write_fib(text: &mut Vec<u8>, fib: u32) -> Result<(), AllocError>
    ensures { OnOk result (text.new.items ≡ text.old.items ++ concat (fib_words fib)) }
{
    write_count(text, b" fib ", u64::from(fib))
}

fn write_record(text: &mut Vec<u8>, info: Record) -> Result<(), AllocError>
    ensures { OnOk result (text.new.items ≡ text.old.items ++ concat (record_words info)) }
{
    write_count(text, b" teid ", u64::from(info.teid))?;
    write_words(text, b" base ")?;
    write_words(text, write_address(info.base).as_slice())
}

// ---- messages

/// Appends the line of a message.
fn write_carry(text: &mut Vec<u8>, reply: &Reply) -> Result<(), AllocError>
    requires { IsOfCarry reply.now }
    ensures { OnOk result (text.new.items ≡ text.old.items ++ carry_line reply.now) }
{
    write_carried(text, reply)?;
    write_words(text, b"\n")
}

/// Appends what became of a message.
fn write_carried(text: &mut Vec<u8>, reply: &Reply) -> Result<(), AllocError>
    requires { IsOfCarry reply.now }
    ensures { OnOk result (text.new.items ≡ text.old.items ++ concat (carry_words reply.now)) }
{
    match *reply {
        Reply::Applied => write_words(text, b"carry applied"),
        Reply::RepeatHave { have } => write_count(text, b"carry repeat have ", u64::from(have)),
        Reply::EarlyHave { have } => write_count(text, b"carry early have ", u64::from(have)),
        Reply::Unsent => write_words(text, b"carry refused unsent"),
        _ => unreachable!(),
    }
}

// ---- all

/// Appends the last line, by the number of packets whose flow was found and that of the others.
pub fn write_last_line(text: &mut Vec<u8>, found: usize, unknown: usize) -> Result<(), AllocError>
    requires { found + unknown < 2 ^ 64 }
    ensures { OnOk result (text.new.items ≡ text.old.items ++ last_line found unknown) }
{
    write_count(text, b"done packets ", (found + unknown) as u64)?;
    write_count(text, b" found ", found as u64)?;
    write_count(text, b" unknown ", unknown as u64)?;
    write_words(text, b"\n")
}

/// Appends the one line of a run over rows that were made from a seed: the counts of its rows, of its accepted and refused
/// updates, and of its packets whose flows were found and weren't.
pub fn write_summary_line(
    text: &mut Vec<u8>,
    seed: u32,
    rows: u32,
    updates: (usize, usize),
    packets: (usize, usize),
) -> Result<(), AllocError>
    requires { packets.0 + packets.1 < 2 ^ 64 }
    ensures { OnOk result (text.new.items ≡ text.old.items ++ summary_line seed rows updates.0 updates.1 packets.0 packets.1) }
{
    let ((accepted, refused), (found, unknown)) = (updates, packets);
    write_count(text, b"grind seed ", u64::from(seed))?;
    write_count(text, b" rows ", u64::from(rows))?;
    write_count(text, b" accepted ", accepted as u64)?;
    write_count(text, b" refused ", refused as u64)?;
    write_count(text, b" packets ", (found + unknown) as u64)?;
    write_count(text, b" found ", found as u64)?;
    write_count(text, b" unknown ", unknown as u64)?;
    write_words(text, b"\n")
}
