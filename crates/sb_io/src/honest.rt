ghost use Rattle.std.specs.Prelude.{ℕ, List, [], None, Some, ◌≡◌, ◌<◌, ◌≤◌, ◌++◌, IfOk, IsOk, length, take, min};

use crate::octets::Octets;
use crate::{Failed, Sink, Source};
use out_of_memory::OutOfMemory;
use std::alloc::Global;
use std::marker::Model;

/// A source over octets in memory that never fails. It tells its octets.
#[derive(Debug, Drop)]
pub struct HonestSource {
    octets: Octets,
}

impl Model for HonestSource {
    ghost use Rattle.std.specs.Prelude.{List, ℕ};

    ghost Value = { List ℕ };

    ghost view = { λ s. s.octets };
}

impl HonestSource {
    /// A source of these octets.
    pub fn new(alloc: Global, content: &[u8]) -> Result<HonestSource, OutOfMemory>
        ensures { IfOk result (λ source. source ≡ content.now) }
    {
        let octets = Octets::new(alloc, content)?;
        Ok(HonestSource { octets })
    }
}

impl Source for HonestSource {
    ghost left = { λ s. Some s };

    ghost faults = { λ _. 0 };

    fn read(&mut self, into: &mut [u8]) -> Result<usize, Failed>
        ensures fits { IfOk result (λ n. n ≤ length into.new) }
        ensures end { IfOk result (λ n. n ≡ 0 → 0 < length into.new → self.new ≡ []) }
        ensures never_fails { IsOk result }
        ensures most { IfOk result (λ n. n ≡ min (length into.old) (length self.old)) }
        ensures next { IfOk result (λ n. self.old ≡ take n into.new ++ self.new) }
    {
        Ok(self.octets.give(into))
    }
}

/// A sink that takes every piece whole, keeps nothing and never fails. It tells no octets.
#[derive(Clone, Copy, Debug)]
pub struct HonestSink {
    _private: (),
}

impl HonestSink {
    /// A sink.
    pub fn new() -> HonestSink {
        HonestSink { _private: () }
    }
}

impl Sink for HonestSink {
    ghost held = { λ _. None };

    ghost faults = { λ _. 0 };

    fn write(&mut self, piece: &[u8]) -> Result<usize, Failed>
        ensures never_fails { IsOk result }
        ensures whole { IfOk result (λ n. n ≡ length piece.now) }
    {
        Ok(piece.len())
    }
}
