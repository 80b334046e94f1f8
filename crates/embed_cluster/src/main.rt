//! A caller of a cluster's parts: an owner, an applier for both nodes and two lanes, each in a thread of its own.
//!
//! The cluster has two nodes and one block. While its owner takes updates and sends their turns, the applier applies what
//! arrives at the nodes, and each lane answers packets that enter at a node of its own. Then comes a barrier, after which
//! both lanes answer alike. What they answer beside the owner differs from run to run, and is only counted.
//!
//! Proved, for every schedule: each call is asked as it asks to be. Only tested: what is printed, that memory suffices,
//! and that the threads end.
#![tactic(auto)]

mod cluster;
mod lane;
mod node;
mod owner;

ghost use Rattle.std.specs.Prelude.{◌≡◌};

use cluster::run;
use flow_types::{Flow, FlowKey, Record, Shape};
use lane::Said;
use rib_owner::Update;
use run_model::Reply;
use setsep_build::{BuildRefused, build};
use std::io;
use std::process::ExitCode;

fn main(rt: HostRuntime) -> ExitCode {
    let Some(shape) = Shape::new(2, 1) else {
        unreachable!()
    };
    let flows = [flow(key(1000), 0, 70), flow(key(1001), 1, 71)];
    let images = match build(&rt, rt.alloc(), shape, &flows, 1) {
        Ok(images) => images,
        Err(BuildRefused::OutOfMemory) => return ended(&rt, "out of memory"),
        Err(_) => return ended(&rt, "a block of the table is past a limit"),
    };
    let said = match run(&rt, rt.alloc(), shape, &flows, images.as_slice()) {
        Ok(said) => said,
        Err(_) => return ended(&rt, "out of memory"),
    };
    match tell(&rt, &said) {
        Ok(()) => ExitCode::SUCCESS,
        Err(_) => ended(&rt, "the output failed"),
    }
}

/// Says why the program ends early.
fn ended<R: Eprint>(rt: &R, why: &str) -> ExitCode {
    let _ = rt.eprintln(why);
    ExitCode::FAILURE
}

/// The key of packets from this port of 10.0.0.1 to port 443 of 192.0.2.7 by TCP.
pub(crate) fn key(source_port: u16) -> FlowKey
    ensures { result ≡ record {
      source = 0x0A000001;
      destination = 0xC0000207;
      source_port = source_port;
      destination_port = 443;
      protocol = 6;
    } }
{
    FlowKey {
        source: 0x0A00_0001,
        destination: 0xC000_0207,
        source_port,
        destination_port: 443,
        protocol: 6,
    }
}

/// The flow with this key, which this node puts into this tunnel.
fn flow(key: FlowKey, node: u8, teid: u32) -> Flow
    ensures key { result.key ≡ key }
    ensures node { result.node ≡ node }
{
    let info = Record {
        teid,
        base: 0xC0A8_0009,
    };
    Flow { key, node, info }
}

/// The updates that the owner is asked for: a flow goes to another node, one is new, one is removed, one isn't there, and
/// the first gets another tunnel.
pub(crate) fn updates() -> [Update; 5] {
    [
        Update::Set(flow(key(1000), 1, 80)),
        Update::Set(flow(key(1002), 0, 82)),
        Update::Del(key(1001)),
        Update::Del(key(1003)),
        Update::Set(flow(key(1000), 1, 81)),
    ]
}

/// Prints what the lanes said.
fn tell<R: Print>(rt: &R, said: &[Said; 2]) -> io::Result<()> {
    'lanes: for lane in said {
        let Said {
            ingress,
            beside,
            after,
        } = lane;
        println!(rt; "node {ingress}: {beside} packets answered beside the owner")?;
        tell_after(rt, *ingress, after)?;
    }
    Ok(())
}

/// Prints a lane's replies after the barrier.
fn tell_after<R: Print>(rt: &R, ingress: usize, replies: &[Option<Reply>; 3]) -> io::Result<()> {
    let mut port = 1000u32;
    'replies: for reply in replies {
        match reply {
            Some(
                Reply::Found {
                    node,
                    seen,
                    fib,
                    info,
                },
            ) => {
                let teid = info.teid;
                println!(rt;
                    "node {ingress}: port {port} goes to node {node}, tunnel {teid}; versions {seen}, {fib}"
                )?
            }
            Some(Reply::Unknown { node, seen, fib }) => {
                println!(rt;
                    "node {ingress}: port {port} goes to node {node}, unknown there; versions {seen}, {fib}"
                )?
            }
            Some(_) => println!(rt; "node {ingress}: port {port} goes nowhere")?,
            None => println!(rt; "node {ingress}: port {port} is another owner's")?,
        }
        port += 1;
    }
    Ok(())
}
