ghost use Rattle.std.specs.Prelude.{◌≡◌, ◌≤◌, IfOk};
ghost use Rattle.setsep_build.specs.Cut.{IsCut};
ghost use Rattle.setsep_build.specs.Placing.{has_block};
ghost use Rattle.setsep_build.specs.Workers.{worthy_runs};

use block_layout::GROUPS;
use std::alloc::{AllocError, Global};

/// Neighbouring blocks, whose images one worker makes.
#[derive(Clone, Copy, Debug, PartialEq, Eq)]
pub struct Run {
    /// The first block.
    pub first: u16,
    /// How many blocks there are.
    pub count: u16,
}

impl Run {
    /// Whether the block is one of the run's.
    pub fn has(self, block: u16) -> bool
        ensures { result ≡ has_block self block }
    {
        self.first <= block && u32::from(block) < u32::from(self.first) + u32::from(self.count)
    }
}

/// How many searches, of a group or of a flow's place in one, make it worth to start a worker. They take some ten times as
/// long as to start a thread.
pub const WORTH_A_WORKER: usize = 1_024;

/// The blocks of a table, cut into this number of runs of neighbours.
pub fn cut(alloc: Global, blocks: u16, runs: u16) -> Result<Vec<Run>, AllocError>
    requires { 1 ≤ runs }
    ensures { IfOk result (λ cut. IsCut blocks runs cut.items) }
{
    let mut cut = Vec::with_capacity(alloc, runs as usize)?;
    let least = blocks / runs;
    let longer = blocks % runs;
    let mut first = 0;
    'runs: for run in 0..runs {
        let count = least + u16::from(run < longer);
        cut.push(Run { first, count })?;
        first += count;
    }
    Ok(cut)
}

/// Into how many runs of neighbours it pays to cut the blocks of a table: at most one for each worker and for each block,
/// and fewer where flows and blocks are few.
pub fn runs_for(flows: usize, blocks: u16, workers: u8) -> u16
    requires some_worker { 1 ≤ workers }
    requires some_block { 1 ≤ blocks }
    ensures value { result ≡ worthy_runs flows blocks workers }
    ensures some { 1 ≤ result }
    ensures few { result ≤ workers }
{
    let groups = usize::from(blocks) * usize::from(GROUPS);
    let worth = flows.saturating_add(groups) / WORTH_A_WORKER;
    blocks.min(worth.clamp(1, usize::from(workers)) as u16)
}
