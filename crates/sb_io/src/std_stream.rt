ghost use Rattle.std.specs.Prelude.{ℕ, None, ◌≡◌, ◌<◌, ◌≤◌, IfOk, OnOk, OnErr, length, take};
ghost use Rattle.std.specs.Io.KnownBytes.{Appends, Keeps};
ghost use Rattle.sb_io.specs.Faults.{last_count, next_count, Rose};

use crate::trying::{read_uninterrupted, write_uninterrupted};
use crate::{Failed, Sink, Source};
use std::marker::Model;

/// Standard input. It tells no octets, and counts each read that fails. A read that a signal interrupts is made again.
#[derive(Drop)]
pub struct StdSource<R: Input> {
    reader: R::Reader,
    faults: u64,
}

impl<R: Input> Model for StdSource<R> {
    ghost use Rattle.std.specs.Prelude.{ℕ};

    ghost Value = { ℕ };

    ghost view = { λ s. s.faults };
}

impl<R: Input> StdSource<R> {
    /// Standard input, with no failure counted yet.
    pub fn new(rt: &R) -> StdSource<R>
        ensures { result ≡ 0 }
    {
        StdSource {
            reader: rt.reader(),
            faults: 0,
        }
    }
}

impl<R: Input> Source for StdSource<R> {
    ghost left = { λ _. None };

    ghost faults = { λ s. s };

    fn read(&mut self, into: &mut [u8]) -> Result<usize, Failed>
        ensures fits { IfOk result (λ n. n ≤ length into.new) }
        ensures never_falls { self.old ≤ self.new }
        ensures in_range { self.new ≤ last_count }
        ensures fault { OnErr result (self.new ≡ next_count self.old) }
        ensures no_fault { OnOk result (self.new ≡ self.old) }
    {
        let faults = self.faults;
        match read_uninterrupted(&mut self.reader, into) {
            Ok(count) => Ok(count),
            Err(_) => {
                self.faults = faults.saturating_add(1);
                Err(Failed)
            }
        }
    }
}

/// Standard output. It tells no octets, and counts each write that fails or takes nothing of a piece. A write that a
/// signal interrupts is made again.
#[derive(Drop)]
pub struct StdSink<'a, P: Print> {
    to: &'a P,
    faults: u64,
}

impl<'a, P: Print> Model for StdSink<'a, P> {
    ghost use Rattle.std.specs.Prelude.{ℕ};

    ghost Value = { ℕ };

    ghost view = { λ s. s.faults };
}

impl<'a, P: Print> StdSink<'a, P> {
    /// Standard output, with no failure counted yet.
    pub fn new(rt: &'a P) -> StdSink<'a, P>
        ensures { result ≡ 0 }
    {
        StdSink { to: rt, faults: 0 }
    }
}

impl<'a, P: Print> Sink for StdSink<'a, P> {
    ghost held = { λ _. None };

    ghost faults = { λ s. s };

    fn write(&mut self, piece: &[u8]) -> Result<usize, Failed>
        ensures fits { IfOk result (λ n. n ≤ length piece.now) }
        ensures moves { IfOk result (λ n. 0 < length piece.now → 0 < n) }
        ensures taken { IfOk result (λ n. Appends None None (take n piece.now)) }
        ensures failed { OnErr result (Rose self.old self.new) }
        ensures kept { OnErr result (Keeps None None) }
        ensures never_falls { self.old ≤ self.new }
        ensures in_range { self.new ≤ last_count }
        ensures fault { OnErr result (self.new ≡ next_count self.old) }
        ensures no_fault { OnOk result (self.new ≡ self.old) }
    {
        let faults = self.faults;
        match write_uninterrupted(self.to, piece) {
            Ok(count) if count > 0 || piece.is_empty() => Ok(count),
            _ => {
                self.faults = faults.saturating_add(1);
                Err(Failed)
            }
        }
    }
}
