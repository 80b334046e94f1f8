ghost use Rattle.std.specs.Prelude.{List, ℕ, ◌≡◌, ◌++◌, IfOk, length, take, min};

use out_of_memory::OutOfMemory;
use std::alloc::Global;
use std::marker::Model;

/// Octets in memory that are given from their start. A contract sees those that are left.
#[derive(Debug, Drop)]
pub(crate) struct Octets {
    content: Vec<u8>,
    given: usize,
}

impl Model for Octets {
    ghost use Rattle.std.specs.Prelude.{List, ℕ, ◌≤◌, drop, length};

    ghost Value = { List ℕ };

    ghost view = { λ o. drop o.given o.content.items };

    ghost invariant = { λ o. o.given ≤ length o.content.items };
}

impl Octets {
    /// A copy of these octets, all of them left.
    pub(crate) fn new(alloc: Global, content: &[u8]) -> Result<Octets, OutOfMemory>
        ensures { IfOk result (λ octets. octets ≡ content.now) }
    {
        let content = Vec::from_slice(alloc, content)?;
        Ok(Octets { content, given: 0 })
    }

    /// Copies as many as both have to the start of a slice.
    pub(crate) fn give(&mut self, into: &mut [u8]) -> usize
        ensures most { result ≡ min (length into.old) (length self.old) }
        ensures given { self.old ≡ take result into.new ++ self.new }
    {
        let count = copy_start(&self.content[self.given..], into);
        self.given += count;
        count
    }
}

/// Copies as many octets as both have from the start of one slice to that of the other.
fn copy_start(from: &[u8], into: &mut [u8]) -> usize
    ensures most { result ≡ min (length into.old) (length from.now) }
    ensures copied { take result into.new ≡ take result from.now }
{
    let count = into.len().min(from.len());
    into[..count].copy_from_slice(&from[..count]);
    count
}
