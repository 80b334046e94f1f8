ghost use Rattle.std.specs.Prelude.{◌≡◌, ◌<◌, ◌/◌, ◌%◌, ◌^◌};
ghost use Rattle.block_layout.specs.Limits.{bucket_count};
ghost use Rattle.hash_family.specs.Hash as hash;

use crate::bucket::Place;
use crate::mixing::base;
use flow_types::{FlowKey, Shape};

/// The block and bucket of a key at a shape.
#[tactic(auto, unfolding(crate::specs::Hash::place))]
pub fn place(shape: Shape, key: FlowKey) -> Place
    ensures value { result ≡ hash.place shape.blocks key }
    ensures in_range { result.block < shape.blocks }
{
    placed(base(1, key), shape)
}

/// The block and bucket of a key whose first base this is, at a shape.
#[inline(always)]
pub(crate) fn placed(first: u64, shape: Shape) -> Place
    ensures value { result ≡ record { block = first / 2 ^ 32 % shape.blocks; bucket = first % bucket_count } }
    ensures in_range { result.block < shape.blocks }
{
    Place {
        block: ((first >> 32) % u64::from(shape.blocks())) as u16,
        bucket: (first & 0xFF) as u8,
    }
}
