ghost use Rattle.std.specs.Prelude.{◌≡◌, ◌<◌, ◌/◌, ◌^◌, bit_or};
ghost use Rattle.hash_family.specs.Hash as hash;

use crate::mixing::base;
use flow_types::FlowKey;

/// The two numbers of a key from which each member of the hash family takes the key's position.
#[derive(Clone, Copy, Debug, PartialEq, Eq, Hash)]
pub struct HashPair {
    /// The hash at index 0.
    pub g1: u32,
    /// What each further index adds, modulo 2^32. It is odd for a key's pair.
    pub g2: u32,
}

/// The hash pair of a key.
#[tactic(auto, unfolding(crate::specs::Hash::pair))]
pub fn pair(key: FlowKey) -> HashPair
    ensures { result ≡ hash.pair key }
{
    pair_of(base(2, key), base(3, key))
}

/// The hash pair of a key whose second and third bases these are.
#[inline(always)]
pub(crate) fn pair_of(second: u64, third: u64) -> HashPair
    ensures { result ≡ record { g1 = second / 2 ^ 32; g2 = bit_or (third / 2 ^ 32) 1 } }
{
    HashPair {
        g1: (second >> 32) as u32,
        g2: (third >> 32) as u32 | 1,
    }
}

/// The position, 0..=7, of a key with this pair under the member `index` of the family.
#[inline(always)]
#[tactic(auto, unfolding(crate::specs::Hash::position))]
pub fn position(pair: HashPair, index: u16) -> u8
    ensures value { result ≡ hash.position pair index }
    ensures below { result < 8 }
{
    let hash = pair.g1.wrapping_add(pair.g2.wrapping_mul(u32::from(index)));
    (hash >> 29) as u8
}
