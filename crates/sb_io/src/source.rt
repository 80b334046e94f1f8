ghost use Rattle.std.specs.Prelude.{ℕ, List, Option, ◌≡◌, ◌<◌, ◌≤◌, length, take, IfOk, OnErr};
ghost use Rattle.std.specs.Io.KnownBytes.{Consumes, IsAtEnd, Keeps};
ghost use Rattle.sb_io.specs.Faults.{last_count, Rose};

use crate::Failed;

/// Where octets are read from.
pub trait Source {
    /// The octets that are left, or `None`, which tells nothing.
    ghost left: { Self → Option (List ℕ) };

    /// How often a read has failed. At its last value the count stands still.
    ghost faults: { Self → ℕ };

    /// Reads the next octets into the start of a slice, and answers how many. None, where the slice isn't empty, is
    /// the end.
    fn read(&mut self, into: &mut [u8]) -> Result<usize, Failed>
        ensures fits { IfOk result (λ n. n ≤ length into.new) }
        ensures given { IfOk result (λ n. Consumes (left self.old) (left self.new) (take n into.new)) }
        ensures end { IfOk result (λ n. n ≡ 0 → 0 < length into.new → IsAtEnd (left self.new)) }

        ensures failed { OnErr result (Rose (faults self.old) (faults self.new)) }
        ensures kept { OnErr result (Keeps (left self.old) (left self.new)) }

        ensures never_falls { faults self.old ≤ faults self.new }
        ensures in_range { faults self.new ≤ last_count };
}
