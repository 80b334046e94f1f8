//! A caller of the library: it reads flows from standard input, a line `PORT NODE` each, builds their keyless table for a
//! cluster of four nodes, and routes five keys.
//!
//! Proved: whatever the lines say, `build` is asked for a map, with distinct keys and handlers among the nodes. Only tested:
//! what is printed.
#![tactic(auto)]

use flow_reader::FlowMap;
use flow_types::{Flow, FlowKey, Record, Shape};
use group_search::BlockImage;
use hash_family::place;
use setsep_build::{BuildRefused, build};
use std::io;

fn main(rt: HostRuntime) -> io::Result<()> {
    let Some(shape) = Shape::new(4, 1) else {
        unreachable!()
    };
    let mut flows = Vec::new(rt.alloc());
    'lines: for line in rt.lines(rt.alloc()) {
        match flow_of(line?.as_str()) {
            Some(flow) => flows.push(flow)?,
            None => return println!(rt; "a line that isn't a port and a node"),
        }
    }
    let map = match FlowMap::of(rt.alloc(), shape, &flows) {
        Ok(map) => map,
        Err(refused) => return println!(rt; "{refused}"),
    };
    let images = match build(&rt, rt.alloc(), map.shape(), map.flows(), 1) {
        Ok(images) => images,
        Err(BuildRefused::OutOfMemory) => return println!(rt; "out of memory"),
        Err(_) => return println!(rt; "a block of the table is past a limit"),
    };
    'ports: for port in 1000..1005 {
        match node_of(&images, shape, key(port)) {
            Some(node) => println!(rt; "port {port} goes to node {node}")?,
            None => println!(rt; "port {port} goes nowhere")?,
        }
    }
    Ok(())
}

/// The node that the table gives a key. It gives most keys one, those of no flow too.
fn node_of(images: &[BlockImage], shape: Shape, key: FlowKey) -> Option<u8> {
    let at = place(shape, key);
    let image = images.get(usize::from(at.block))?;
    let group = image.choices().group(at.bucket);
    image.record(group).decode(shape.nodes(), key)
}

/// The key of packets from this port of 10.0.0.1 to port 443 of 192.0.2.7 by TCP.
fn key(source_port: u16) -> FlowKey {
    FlowKey {
        source: 0x0A00_0001,
        destination: 0xC000_0207,
        source_port,
        destination_port: 443,
        protocol: 6,
    }
}

/// The flow that a line says: the port of its key, and the node that handles it.
fn flow_of(line: &str) -> Option<Flow> {
    let (port, node) = line.split_once(' ')?;
    let key = key(port.parse().ok()?);
    let node = node.parse().ok()?;
    let info = Record {
        teid: 77,
        base: 0xC0A8_0009,
    };
    Some(Flow { key, node, info })
}
