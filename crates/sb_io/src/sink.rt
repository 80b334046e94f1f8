ghost use Rattle.std.specs.Prelude.{ℕ, List, Option, ◌<◌, ◌≤◌, length, take, IfOk, OnErr};
ghost use Rattle.std.specs.Io.KnownBytes.{Appends, Keeps};
ghost use Rattle.sb_io.specs.Faults.{last_count, Rose};

use crate::Failed;

/// Where octets are written to.
pub trait Sink {
    /// The octets that it holds, or `None`, which tells nothing.
    ghost held: { Self → Option (List ℕ) };

    /// How often a write has failed. At its last value the count stands still.
    ghost faults: { Self → ℕ };

    /// Appends octets from the start of a piece, and answers how many: at least one, where the piece isn't empty.
    fn write(&mut self, piece: &[u8]) -> Result<usize, Failed>
        ensures fits { IfOk result (λ n. n ≤ length piece.now) }
        ensures moves { IfOk result (λ n. 0 < length piece.now → 0 < n) }
        ensures taken { IfOk result (λ n. Appends (held self.old) (held self.new) (take n piece.now)) }

        ensures failed { OnErr result (Rose (faults self.old) (faults self.new)) }
        ensures kept { OnErr result (Keeps (held self.old) (held self.new)) }

        ensures never_falls { faults self.old ≤ faults self.new }
        ensures in_range { faults self.new ≤ last_count };
}
