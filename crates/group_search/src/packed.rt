ghost use Rattle.std.specs.Prelude.{◌≡◌, ◌≤◌, ◌<◌, ◌/◌, ◌^◌, ◌∷◌, [], List, slice_index};
ghost use Rattle.std.specs.Int.{bit_at};
ghost use Rattle.hash_family.specs.Hash.{position};
ghost use Rattle.group_search.specs.declared.entry.Pair.{Pair};
ghost use Rattle.group_search.specs.declared.record.GroupRecord.TheVariants.{Served};
ghost use Rattle.group_search.specs.Decoding.{decode, value_of};
ghost use Rattle.group_search.specs.Words.{AreServedWords, pair_in, pairs_in};

use hash_family::{HashPair, HashedKey};

/// The node that the pairs in these words give a key, in a cluster of `nodes`: what `decode` answers of the served
/// record of so many value bits that packs to them.
///
/// There are at most 4 value bits. Where no served record packs to the words, the answer is arbitrary.
#[inline(always)]
#[tactic(auto, unfolding(crate::specs::Decoding::decode))]
pub fn served_node(words: [u64; 2], bits: u8, nodes: u16, key: &HashedKey) -> Option<u8>
    requires { bits ≤ 4 }
    ensures { (pairs : List Pair) → AreServedWords bits pairs words → result ≡ decode (Served pairs) nodes key.now }
{
    let value = value_in(words, key.pair());
    (u16::from(value) < nodes).then_some(value)
}

/// The value of the four pairs in these words. Where the second word is zero its pairs add nothing.
#[inline(always)]
fn value_in(words: [u64; 2], hashes: HashPair) -> u8
    ensures { result ≡ value_of hashes (pairs_in (slice_index words 0) (slice_index words 1)) }
{
    let [first, second] = words;
    let low = value_of_two(first, hashes);
    if second == 0 {
        return low;
    }
    low + 4 * value_of_two(second, hashes)
}

/// The value of the two pairs in a word.
#[inline(always)]
#[tactic(auto, unfolding(crate::specs::Decoding::value_of))]
fn value_of_two(word: u64, hashes: HashPair) -> u8
    ensures value { result ≡ value_of hashes (pair_in word ∷ pair_in (word / 2 ^ 24) ∷ []) }
    ensures below { result < 4 }
{
    bit_of(word, hashes) + 2 * bit_of(word >> 24, hashes)
}

/// The bit of the pair in the lower 24 bits.
#[inline(always)]
fn bit_of(bits: u64, hashes: HashPair) -> u8
    ensures value { result ≡ bit_at (pair_in bits).array (position hashes (pair_in bits).index) }
    ensures below { result < 2 }
{
    let at = hash_family::position(hashes, (bits & 0xFFFF) as u16);
    ((((bits >> 16) & 0xFF) as u8) >> at) & 1
}
