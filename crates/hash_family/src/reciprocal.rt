ghost use Rattle.std.specs.Prelude.{◌≡◌, ◌%◌, ◌<◌};

use flow_types::Shape;
use flow_types::laws::numbers_of_a_shape;
use std::marker::Model;

/// Remainders by a shape's number of blocks, each by two products in the place of a division. A contract sees the number of
/// blocks.
#[derive(Drop)]
pub struct Reciprocal {
    // 2^64 divided by the number of blocks, rounded up, modulo 2^64.
    factor: u64,
    blocks: u16,
}

impl Model for Reciprocal {
    ghost use Rattle.std.specs.Prelude.{ℕ};
    ghost use Rattle.hash_family.specs.Reciprocal.{IsReciprocal};

    ghost Value = { ℕ };

    ghost view = { λ r. r.blocks };

    ghost invariant = { λ r. IsReciprocal r.factor r.blocks };
}

impl Reciprocal {
    /// The reciprocal of the shape's number of blocks.
    pub fn of(shape: Shape) -> Reciprocal
        ensures { result ≡ shape.blocks }
    {
        numbers_of_a_shape(shape);
        let blocks = shape.blocks();
        Reciprocal {
            factor: (u64::MAX / u64::from(blocks)).wrapping_add(1),
            blocks,
        }
    }

    /// The remainder of a number by the number of blocks.
    #[inline(always)]
    pub fn remainder(&self, number: u32) -> u16
        ensures value { result ≡ number % self.now }
        ensures below { result < self.now }
    {
        // The fraction of the quotient, in parts of 2^64.
        let fraction = self.factor.wrapping_mul(u64::from(number));
        ((u128::from(fraction) * u128::from(self.blocks)) >> 64) as u16
    }
}
