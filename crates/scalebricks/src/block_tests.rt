//! Inputs whose flows are found by scanning for keys that share a bucket.

use crate::run;
use crate::status::{DONE, INPUT_REFUSED};
use crate::tests::one_word;
use flow_types::{FlowKey, Shape};
use group_search::{Entry, least, separable};
use hash_family::{pair, place, position};
use sb_io::{MemSink, MemSource, OpenGate};
use std::alloc::Global;
use std::sync::Wait;
use std::test::Fail;
use std::thread::Threads;

/// The most octets that one of these inputs prints.
const ROOM: usize = 10_000;

/// Fails where the input ends with another status or prints something else.
fn answers(
    rt: &(impl Threads + Sync + Wait + Alloc<A = Global>),
    rows: &str,
    wanted: u8,
    printed: &str,
) -> Result<(), Fail> {
    let alloc = rt.alloc();
    let words = one_word(alloc, "replay")?;
    let mut input = MemSource::new(alloc, rows.as_bytes(), &[])?;
    let mut output = MemSink::new(alloc, ROOM, &[])?;
    let status = run(rt, alloc, &words, &mut input, &mut output, &OpenGate);
    if status == wanted && output.content() == printed.as_bytes() {
        Ok(())
    } else {
        Err("another status or output".into())
    }
}

/// The key with this source port. The rows of `flow_row`, `set_row` and `packet_row` say it.
fn key_at(source_port: u16) -> FlowKey {
    FlowKey {
        source: 0x0A00_0001,
        destination: 0xC000_0207,
        source_port,
        destination_port: 443,
        protocol: 6,
    }
}

fn entry_at(source_port: u16, node: u8) -> Entry {
    let key = key_at(source_port);
    let pair = pair(key);
    Entry { pair, key, node }
}

fn flow_row(text: &mut String, port: u16, node: u8) -> Result<(), Fail> {
    writeln!(
        text,
        "flow,10.0.0.1,192.0.2.7,{port},443,6,{node},{port},1.2.3.4"
    )?;
    Ok(())
}

fn set_row(text: &mut String, port: u16, node: u8) -> Result<(), Fail> {
    writeln!(
        text,
        "set,10.0.0.1,192.0.2.7,{port},443,6,{node},{port},1.2.3.4"
    )?;
    Ok(())
}

fn packet_row(text: &mut String, port: u16) -> Result<(), Fail> {
    writeln!(text, "packet,0,10.0.0.1,192.0.2.7,{port},443,6")?;
    Ok(())
}

/// The source ports, from the least up, whose keys stand in bucket 0.
fn ports_of_one_bucket(alloc: Global, shape: Shape) -> Result<Vec<u16>, Fail> {
    let mut ports = Vec::new(alloc);
    'ports: for port in 0..u16::MAX {
        if place(shape, key_at(port)).bucket == 0 {
            ports.push(port)?;
        }
    }
    Ok(ports)
}

// 64 flows of one bucket that no index tells apart are kept as rows; a block has room for no 65th, neither when it is opened
// nor afterwards.
#[test]
fn keeps_rows_of_flows_that_no_index_serves(rt: HostRuntime) -> Result<(), Fail> {
    let shape = Shape::new(2, 1).ok_or("shape")?;
    let ports = ports_of_one_bucket(rt.alloc(), shape)?;
    assert!(rt; ports.len() > 65);
    let mut entries = Vec::new(rt.alloc());
    let mut rows = String::from_str(rt.alloc(), "cluster,2,1\n")?;
    let mut packets = String::from_str(rt.alloc(), "begin\n")?;
    let mut want = String::new(rt.alloc());
    'flows: for number in 0..64u8 {
        let (port, node) = (ports[number as usize], number % 2);
        entries.push(entry_at(port, node))?;
        flow_row(&mut rows, port, node)?;
        packet_row(&mut packets, port)?;
        writeln!(
            want,
            "packet {number} in 0 to {node} hops {node} seen 0 fib 0 teid {port} base 1.2.3.4"
        )?;
    }
    assert!(rt; !separable(entries.as_slice(), 1));
    entries.push(entry_at(ports[64], 0))?;
    assert!(rt; !separable(entries.as_slice(), 1));
    set_row(&mut packets, ports[64], 0)?;
    packet_row(&mut packets, ports[0])?;
    packet_row(&mut packets, ports[64])?;
    packets.push_str("end\n")?;
    let first = ports[0];
    writeln!(
        want,
        "set refused rowsfull needed 65 free 64\n\
         packet 64 in 0 to 0 hops 0 seen 0 fib 0 teid {first} base 1.2.3.4\n\
         packet 65 in 0 seen 0 unknown\n\
         done packets 66 found 65 unknown 1"
    )?;
    let input = format!(in rt.alloc(); "{rows}{packets}")?;
    answers(&rt, &input, DONE, &want)?;
    flow_row(&mut rows, ports[64], 0)?;
    let input = format!(in rt.alloc(); "{rows}{packets}")?;
    answers(&rt, &input, INPUT_REFUSED, "refused block 0 RowsFull\n")
}

#[test]
fn refuses_a_block_with_too_many_flows(rt: HostRuntime) -> Result<(), Fail> {
    let mut rows = String::from_str(rt.alloc(), "cluster,4,1\n")?;
    'flows: for port in 0..1536 {
        flow_row(&mut rows, port, 0)?;
    }
    let mut updates = String::new(rt.alloc());
    set_row(&mut updates, 1536, 0)?;
    set_row(&mut updates, 7, 0)?;
    let input = format!(in rt.alloc(); "{rows}begin\n{updates}end\n")?;
    let want = "set refused blockfull block 0\nset accepted owner 0 turn 1\n\
        done packets 0 found 0 unknown 0\n";
    answers(&rt, &input, DONE, want)?;
    flow_row(&mut rows, 1536, 0)?;
    let input = format!(in rt.alloc(); "{rows}begin\nend\n")?;
    answers(&rt, &input, INPUT_REFUSED, "refused block 0 BlockFull\n")
}

// Of three flows of one bucket, index 0 has those at nodes 0 and 1 at one position and that at node 2 at another. A key
// of the bucket that isn't known, and that hits a 1 in both arrays, has the value 3, which is no node.
#[test]
fn sends_an_unknown_key_nowhere(rt: HostRuntime) -> Result<(), Fail> {
    let shape = Shape::new(3, 1).ok_or("shape")?;
    let ports = ports_of_one_bucket(rt.alloc(), shape)?;
    let first = *ports.first().ok_or("no port")?;
    let stands = position(pair(key_at(first)), 0);
    let mut same = None;
    let mut other = None;
    'ports: for port in &ports {
        if *port != first && position(pair(key_at(*port)), 0) == stands {
            same = Some(*port);
        }
        if position(pair(key_at(*port)), 0) != stands {
            other = Some(*port);
        }
    }
    let (second, third) = (same.ok_or("no second")?, other.ok_or("no third")?);
    let entries = [entry_at(first, 0), entry_at(second, 1), entry_at(third, 2)];
    let low = least(&entries, 0).ok_or("bit 0")?;
    let high = least(&entries, 1).ok_or("bit 1")?;
    assert!(rt; low.index > 0 && high.index == 0);
    let mut unknown = None;
    'unknown: for port in &ports {
        let hashes = pair(key_at(*port));
        let hits = (low.array >> position(hashes, low.index))
            & (high.array >> position(hashes, high.index))
            & 1;
        if hits == 1 && *port != first && *port != second && *port != third {
            unknown = Some(*port);
        }
    }
    let mut input = String::from_str(rt.alloc(), "cluster,3,1\n")?;
    flow_row(&mut input, first, 0)?;
    flow_row(&mut input, second, 1)?;
    flow_row(&mut input, third, 2)?;
    input.push_str("begin\n")?;
    packet_row(&mut input, unknown.ok_or("no unknown key")?)?;
    input.push_str("end\n")?;
    answers(
        &rt,
        &input,
        DONE,
        "packet 0 in 0 seen 0 unknown\ndone packets 1 found 0 unknown 1\n",
    )
}
