ghost use Rattle.std.specs.Prelude.{◌≤◌, All};

use crate::keys::draw;
use block_layout::choose;

/// The choices of so many blocks, their octets added up.
pub fn choices(seed: u64, blocks: u64) -> u64 {
    let mut sum = 0u64;
    'blocks: for block in 0..blocks {
        sum = sum.wrapping_add(octets_of(&sizes(draw(seed, block))));
    }
    sum
}

fn octets_of(sizes: &[u16; 256]) -> u64
    requires { All (λ size. size ≤ 6) sizes.now }
{
    let mut sum = 0u64;
    'octets: for octet in choose(sizes).bytes() {
        sum = sum.wrapping_mul(31).wrapping_add(u64::from(*octet));
    }
    sum
}

/// The numbers of keys of a block's buckets, each drawn from 0 to 6.
fn sizes(seed: u64) -> [u16; 256]
    ensures { All (λ size. size ≤ 6) result }
{
    let mut sizes = [0; 256];
    'buckets: for bucket in 0..256 {
        sizes[bucket] = (draw(seed, bucket as u64) % 7) as u16;
    }
    sizes
}
