ghost use Rattle.std.specs.Prelude.{◌≡◌};
ghost use Rattle.grind_rows.specs.Draws.{draw};

use hash_family::mix;

/// What each draw adds to the state: 2^64 divided by the golden ratio, to the nearest odd number.
const DRAW_STEP: u64 = 0x9E37_79B9_7F4A_7C15;

/// The draw of this number, from 0: a random number of 64 bits.
pub fn draw(seed: u32, number: u32) -> u64
    ensures { result ≡ draw seed number }
{
    let steps = (u64::from(number) + 1).wrapping_mul(DRAW_STEP);
    mix(u64::from(seed).wrapping_add(steps))
}
