ghost use Rattle.std.specs.Prelude.{ℕ, List, [], Some, ◌≡◌, ◌⊎◌, ◌+◌, ◌<◌, ◌≤◌, ◌++◌, ◌↔◌, IfOk, OnOk, OnErr, IsErr, Contains, length, take};
ghost use Rattle.sb_io.specs.Faults.{last_count, next_count};
ghost use Rattle.sb_io.specs.Memory.{Store};

use crate::{Failed, Sink};
use out_of_memory::OutOfMemory;
use std::alloc::Global;
use std::marker::Model;

/// A sink in memory, which fails at the calls that it is told to, and past its limit. It tells its octets.
#[derive(Debug, Drop)]
pub struct MemSink {
    content: Vec<u8>,
    limit: usize,
    failing: Vec<u64>,
    calls: u64,
    faults: u64,
}

impl Model for MemSink {
    ghost use Rattle.std.specs.Prelude.{◌≤◌, vec_len, vec_capacity};
    ghost use Rattle.sb_io.specs.Memory.{Store};

    ghost Value = { Store };

    ghost view = { λ s. record { held = s.content.items; limit = s.limit; failing = s.failing.items; calls = s.calls; faults = s.faults } };

    ghost invariant = { λ s. (vec_len s.content ≤ s.limit) × (s.limit ≤ vec_capacity s.content) };
}

impl MemSink {
    /// An empty sink with room for `limit` octets, whose calls of the listed numbers fail. The first call has number
    /// 1. All its memory is taken here.
    pub fn new(alloc: Global, limit: usize, failing: &[u64]) -> Result<MemSink, OutOfMemory>
        ensures { IfOk result (λ sink. sink ≡ record { held = []; limit = limit; failing = failing.now; calls = 0; faults = 0 }) }
    {
        Ok(MemSink {
            content: Vec::with_capacity(alloc, limit)?,
            limit,
            failing: Vec::from_slice(alloc, failing)?,
            calls: 0,
            faults: 0,
        })
    }

    /// What it holds.
    pub fn content(&self) -> &[u8]
        ensures { result.now ≡ self.now.held }
    {
        &self.content
    }
}

impl Sink for MemSink {
    ghost held = { λ s. Some s.held };

    ghost faults = { λ s. s.faults };

    fn write(&mut self, piece: &[u8]) -> Result<usize, Failed>
        ensures never_falls { self.old.faults ≤ self.new.faults }
        ensures in_range { self.new.faults ≤ last_count }

        // It fails exactly at the listed calls and past the limit.
        ensures listed { IsErr result ↔ (Contains self.old.failing (next_count self.old.calls) ⊎ self.old.limit < length self.old.held + length piece.now) }
        ensures whole { IfOk result (λ n. n ≡ length piece.now) }
        ensures appended { OnOk result (self.new.held ≡ self.old.held ++ piece.now) }
        ensures fault { OnErr result (self.new.faults ≡ next_count self.old.faults) }
        ensures no_fault { OnOk result (self.new.faults ≡ self.old.faults) }
        ensures unwritten { OnErr result (self.new.held ≡ self.old.held) }
        ensures calls { self.new.calls ≡ next_count self.old.calls }
        ensures list { self.new.failing ≡ self.old.failing }
        ensures limit { self.new.limit ≡ self.old.limit }
    {
        self.calls = self.calls.saturating_add(1);
        if self.failing.contains(&self.calls) || self.limit - self.content.len() < piece.len() {
            self.faults = self.faults.saturating_add(1);
            return Err(Failed);
        }
        match self.content.extend_from_slice(piece) {
            Ok(()) => Ok(piece.len()),
            Err(_) => unreachable!(),
        }
    }
}
