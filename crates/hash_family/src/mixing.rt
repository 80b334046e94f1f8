ghost use Rattle.std.specs.Prelude.{◌≡◌, ◌≤◌, ◌<◌, ◌+◌, ◌*◌, ◌^◌};
ghost use Rattle.flow_types.specs.Key.{number};
ghost use Rattle.hash_family.specs.Hash as hash;

use flow_types::FlowKey;

/// 2^64 divided by the golden ratio, to the nearest odd number: the step between the seeds of the bases.
pub const SEED_STEP: u64 = 0x9E37_79B9_7F4A_7C15;
/// The first factor of `mix`.
pub const FIRST_FACTOR: u64 = 0xBF58_476D_1CE4_E5B9;
/// The second factor of `mix`.
pub const SECOND_FACTOR: u64 = 0x94D0_49BB_1331_11EB;

/// The finalizer of SplitMix64: a permutation of the 64-bit numbers that spreads each bit over all.
#[tactic(auto, unfolding(crate::specs::Hash::mix, crate::specs::Hash::stir))]
pub fn mix(z: u64) -> u64
    ensures { result ≡ hash.mix z }
{
    let z = (z ^ (z >> 30)).wrapping_mul(FIRST_FACTOR);
    let z = (z ^ (z >> 27)).wrapping_mul(SECOND_FACTOR);
    z ^ (z >> 31)
}

/// The `j`-th base of a key, from which its place (1) and its hash pair (2 and 3) come.
pub fn base(j: u8, key: FlowKey) -> u64
    requires least { 1 ≤ j }
    requires most { j ≤ 3 }
    ensures { result ≡ hash.base j (number key) }
{
    let (low, high) = words_of(&key);
    base_of(j, low, high)
}

/// The lower 64 bits and the upper 40 of a key's number.
#[inline(always)]
pub(crate) fn words_of(key: &FlowKey) -> (u64, u64)
    ensures number { result.1 * 2 ^ 64 + result.0 ≡ number key.now }
    ensures upper { result.1 < 2 ^ 40 }
{
    let number = key.number();
    let low = (number & 0xFFFF_FFFF_FFFF_FFFF) as u64;
    let high = (number >> 64) as u64;
    (low, high)
}

/// The `j`-th base of a key whose number has these lower 64 bits and these upper 40.
#[inline(always)]
#[tactic(auto, unfolding(crate::specs::Hash::base))]
pub(crate) fn base_of(j: u8, low: u64, high: u64) -> u64
    requires { high < 2 ^ 40 }
    ensures { result ≡ hash.base j (high * 2 ^ 64 + low) }
{
    let seed = SEED_STEP.wrapping_mul(u64::from(j));
    mix(mix(low ^ seed).wrapping_add(high))
}
