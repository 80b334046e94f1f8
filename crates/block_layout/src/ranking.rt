ghost use Rattle.std.specs.Prelude.{◌≡◌, ◌≤◌, ◌%◌, map, sum};
ghost use Rattle.block_layout.specs.Dealing.{rank, buckets, order_of};
ghost use Rattle.block_layout.specs.Limits.{bucket_count, most_keys};

use crate::limits::{BUCKETS, MOST_KEYS};

/// The ranks of the buckets in the order in which they are dealt out. A bucket with more keys has the lower rank, and
/// of two with as many keys the lower bucket has it.
pub(crate) fn ranks_in_order(sizes: &[u16; BUCKETS]) -> [u32; BUCKETS]
    requires { sum sizes.now ≤ most_keys }
    ensures { result ≡ map (rank sizes.now) (order_of sizes.now) }
{
    let mut ranks = ranks_of(sizes);
    ranks.sort_unstable();
    ranks
}

fn ranks_of(sizes: &[u16; BUCKETS]) -> [u32; BUCKETS]
    requires { sum sizes.now ≤ most_keys }
    ensures { result ≡ map (rank sizes.now) buckets }
{
    let mut ranks = [0; BUCKETS];
    'buckets: for (bucket, rank) in ranks.iter_mut().enumerate() {
        *rank = u32::from(MOST_KEYS - sizes[bucket]) * BUCKETS as u32 + bucket as u32;
    }
    ranks
}

/// The bucket of a rank.
pub(crate) fn bucket_of(rank: u32) -> u8
    ensures { result ≡ rank % bucket_count }
{
    (rank % BUCKETS as u32) as u8
}
