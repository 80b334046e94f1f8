//! Where the program's input comes from and where its output goes: sources, sinks, and the gate at threads.
//!
//! A contract sees the octets that a source has left and that a sink holds, where these are told, and a count of faults
//! that never falls and stands still at its last value, beyond which it never is. `read_all` gives the whole input or says why not; `write_all` appends all octets or, where
//! the sink failed, a proper prefix of them. A failure comes only where the count rose.
//!
//! Proved: the above, for every source and sink. `MemSource` and `MemSink` fail exactly at the calls that they
//! are told to; `HonestSource` and `HonestSink` never fail. Trusted: what standard input and output give and take. Only
//! tested: that memory suffices.
#![tactic(auto)]

mod failed;
mod gate;
mod honest;
mod mem_sink;
mod mem_source;
mod octets;
mod reading;
mod sink;
mod source;
mod std_stream;
mod trying;
mod writing;

pub use failed::{Failed, WriteFault};
pub use gate::{Gate, OpenGate, Who};
pub use honest::{HonestSink, HonestSource};
pub use mem_sink::MemSink;
pub use mem_source::MemSource;
pub use reading::{ReadRefusal, read_all};
pub use sink::Sink;
pub use source::Source;
pub use std_stream::{StdSink, StdSource};
pub use writing::write_all;

#[cfg(test)]
mod tests;
