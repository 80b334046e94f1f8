ghost use Rattle.std.specs.Prelude.{ℕ, List, [], Some, ◌≡◌, ◌<◌, ◌≤◌, ◌++◌, ◌↔◌, IfOk, OnOk, OnErr, IsErr, Contains, length, take, min, IsTrue};
ghost use Rattle.std.specs.Io.KnownBytes.{Consumes, IsAtEnd, Keeps};
ghost use Rattle.sb_io.specs.Faults.{last_count, next_count};
ghost use Rattle.sb_io.specs.Memory.{Feed};

use crate::octets::Octets;
use crate::{Failed, Source};
use out_of_memory::OutOfMemory;
use std::alloc::Global;
use std::marker::Model;

/// A source over octets in memory, which fails at the calls that it is told to. It tells its octets.
#[derive(Debug, Drop)]
pub struct MemSource {
    octets: Octets,
    failing: Vec<u64>,
    calls: u64,
    faults: u64,
}

impl Model for MemSource {
    ghost use Rattle.sb_io.specs.Memory.{Feed};

    ghost Value = { Feed };

    ghost view = { λ s. record { left = s.octets; failing = s.failing.items; calls = s.calls; faults = s.faults } };
}

impl MemSource {
    /// A source of these octets, whose calls of the listed numbers fail. The first call has number 1.
    pub fn new(alloc: Global, content: &[u8], failing: &[u64]) -> Result<MemSource, OutOfMemory>
        ensures { IfOk result (λ source. source ≡ record { left = content.now; failing = failing.now; calls = 0; faults = 0 }) }
    {
        Ok(MemSource {
            octets: Octets::new(alloc, content)?,
            failing: Vec::from_slice(alloc, failing)?,
            calls: 0,
            faults: 0,
        })
    }
}

impl Source for MemSource {
    ghost left = { λ s. Some s.left };

    ghost faults = { λ s. s.faults };

    fn read(&mut self, into: &mut [u8]) -> Result<usize, Failed>
        ensures fits { IfOk result (λ n. n ≤ length into.new) }
        ensures end { IfOk result (λ n. n ≡ 0 → 0 < length into.new → self.new.left ≡ []) }
        ensures never_falls { self.old.faults ≤ self.new.faults }
        ensures in_range { self.new.faults ≤ last_count }

        // It fails exactly at the listed calls.
        ensures listed { IsErr result ↔ Contains self.old.failing (next_count self.old.calls) }
        ensures most { IfOk result (λ n. n ≡ min (length into.old) (length self.old.left)) }
        ensures next { IfOk result (λ n. self.old.left ≡ take n into.new ++ self.new.left) }
        ensures fault { OnErr result (self.new.faults ≡ next_count self.old.faults) }
        ensures no_fault { OnOk result (self.new.faults ≡ self.old.faults) }
        ensures unread { OnErr result (self.new.left ≡ self.old.left) }
        ensures calls { self.new.calls ≡ next_count self.old.calls }
        ensures list { self.new.failing ≡ self.old.failing }
    {
        let faults = self.faults;
        self.calls = self.calls.saturating_add(1);
        if self.failing.contains(&self.calls) {
            self.faults = faults.saturating_add(1);
            return Err(Failed);
        }
        Ok(self.octets.give(into))
    }
}
