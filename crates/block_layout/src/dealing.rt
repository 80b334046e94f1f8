ghost use Rattle.std.specs.Prelude.{◌≡◌, ℕ, ◌+◌, ◌^◌, ◌≤◌, ◌<◌, sum};
ghost use Rattle.std.specs.List.{All};
ghost use Rattle.block_layout.specs.Dealing as dealing;
ghost use Rattle.block_layout.specs.Limits.{candidate_count, most_keys};

use crate::candidates::candidate;
use crate::choices::Choices;
use crate::limits::{BUCKETS, CANDIDATES, GROUPS};
use crate::ranking::{bucket_of, ranks_in_order};

/// The choices that fill the groups of a block evenly, from the numbers of keys of its buckets. The buckets are taken
/// by falling number of keys, of two alike the lower first. Each goes to the candidate whose group has the fewest keys
/// so far, of two alike the lower candidate.
pub fn choose(sizes: &[u16; BUCKETS]) -> Choices
    requires { sum sizes.now ≤ most_keys }
    ensures { result ≡ dealing.choices_of sizes.now }
{
    let mut dealt = Dealt::none();
    'ranks: for rank in &ranks_in_order(sizes) {
        dealt.deal(sizes, bucket_of(*rank));
    }
    dealt.choices
}

/// The buckets that are dealt out so far: the keys that each group has, and the choices.
#[derive(Drop)]
struct Dealt {
    loads: [u32; GROUPS as usize],
    choices: Choices,
}

impl Dealt {
    fn none() -> Dealt
        ensures { result ≡ dealing.none_dealt }
    {
        Dealt {
            loads: [0; GROUPS as usize],
            choices: Choices::none(),
        }
    }

    /// Deals out one more bucket.
    fn deal(&mut self, sizes: &[u16; BUCKETS], bucket: u8)
        requires { All (λ load. load < 2 ^ 31) self.old.loads }
        ensures dealt { self.new ≡ dealing.deal sizes.now self.old bucket }
        ensures bounded { (most : ℕ) → All (λ load. load ≤ most) self.old.loads →
            All (λ load. load ≤ most + 2 ^ 16) self.new.loads }
    {
        let choice = least_loaded(&self.loads, bucket);
        let group = candidate(bucket, choice);
        self.loads[group as usize] += u32::from(sizes[bucket as usize]);
        self.choices.set(bucket, choice);
    }
}

/// The candidate of a bucket whose group has the fewest keys, the lower of two alike.
fn least_loaded(loads: &[u32; GROUPS as usize], bucket: u8) -> u8
    ensures value { result ≡ dealing.least_loaded loads.now bucket }
    ensures below { result < candidate_count }
{
    let mut least = 0;
    'choices: for choice in 1..CANDIDATES {
        let load = loads[candidate(bucket, choice) as usize];
        if load < loads[candidate(bucket, least) as usize] {
            least = choice;
        }
    }
    least
}
