ghost use Rattle.std.specs.Prelude.{◌≡◌, ◌<◌, ◌^◌, ◌↔◌, ℕ, List, IsNone, IsTrue, Some, All, slice_index};
ghost use Rattle.group_search.specs.Served.{zero_pair};
ghost use Rattle.group_search.specs.declared.entry.Pair.{Pair};
ghost use Rattle.group_search.specs.declared.words.Packed.{Packed};
ghost use Rattle.group_search.specs.Words.{AreFallbackWords, AreServedWords, HasBits, IsPair, PacksTo, packed_of, words_of};
ghost use Rattle.group_search.specs.Words as layout;

use crate::entry::Pair;
use crate::limits::{FEWEST_ROWS, MOST_BITS, MOST_ROWS};
use crate::record::GroupRecord;
use crate::served::Served;

/// How far the array of a pair stands above its index.
const ARRAY_SHIFT: u32 = 16;
/// How far the second pair of a word stands above the first.
const PAIR_SHIFT: u32 = 24;
/// The first word of a fallback record with no rows.
const FALLBACK: u64 = 1 << 48;

/// What the words of a group keep of its record.
#[derive(Clone, Copy, Debug, PartialEq, Eq, Hash)]
pub enum Packed {
    /// The record's pairs.
    Served(Served),
    /// How many rows the record has. They stand elsewhere.
    Fallback {
        /// Their number, 2..=64.
        rows: u8,
    },
}

/// The two data words of a record.
///
/// Served: two pairs in each word, the lower value bit first. Fallback: 2^48 and the number of rows, and 0.
pub fn pack(content: &GroupRecord) -> [u64; 2]
    ensures value { result ≡ words_of content.now }
    ensures kept { (bits : ℕ) → HasBits bits content.now → PacksTo bits (packed_of content.now) result }
{
    match content {
        GroupRecord::Served(served) => served_words(&served.pairs),
        GroupRecord::Fallback(rows) => [FALLBACK + rows.as_slice().len() as u64, 0],
    }
}

/// What these words keep of a record of `bits` value bits, or `None` where no record of that many packs to them.
pub fn unpack(words: [u64; 2], bits: u8) -> Option<Packed>
    ensures value { (packed : Packed) → (result ≡ Some packed) ↔ PacksTo bits packed words }
    ensures none { IsNone result ↔ ((packed : Packed) → ¬ PacksTo bits packed words) }
{
    if let Some(rows) = rows_of(words) {
        return Some(Packed::Fallback { rows });
    }
    let served = served_of(words, bits)?;
    Some(Packed::Served(served))
}

/// The number of rows of the fallback record that packs to these words.
fn rows_of(words: [u64; 2]) -> Option<u8>
    ensures { (rows : ℕ) → (result ≡ Some rows) ↔ AreFallbackWords rows words }
{
    let [first, second] = words;
    let rows = first.checked_sub(FALLBACK)?;
    if second != 0 || rows < FEWEST_ROWS as u64 || rows > MOST_ROWS as u64 {
        return None;
    }
    Some(rows as u8)
}

/// The pairs of the served record of `bits` bits that packs to these words.
fn served_of(words: [u64; 2], bits: u8) -> Option<Served>
    ensures { (pairs : List Pair) → (result ≡ Some pairs) ↔ AreServedWords bits pairs words }
{
    if bits == 0 || usize::from(bits) > MOST_BITS {
        return None;
    }
    let pairs = pairs_of(words);
    if !are_zero(&pairs[usize::from(bits)..]) {
        return None;
    }
    // A bit that stands in no pair.
    if served_words(&pairs) != words {
        return None;
    }
    Some(Served { bits, pairs })
}

/// Two words with the pairs.
fn served_words(pairs: &[Pair; MOST_BITS]) -> [u64; 2]
    ensures value { result ≡ layout.served_words pairs.now }
    ensures sized { All IsPair pairs.now }
{
    [pair_word(pairs[0], pairs[1]), pair_word(pairs[2], pairs[3])]
}

/// The pairs in two words.
pub(crate) fn pairs_of(words: [u64; 2]) -> [Pair; MOST_BITS]
    ensures { result ≡ layout.pairs_in (slice_index words 0) (slice_index words 1) }
{
    let [first, second] = words;
    [
        pair_in(first),
        pair_in(first >> PAIR_SHIFT),
        pair_in(second),
        pair_in(second >> PAIR_SHIFT),
    ]
}

/// A word with two pairs.
fn pair_word(first: Pair, second: Pair) -> u64
    ensures value { result ≡ layout.pair_word first second }
    ensures first { IsPair first }
    ensures second { IsPair second }
{
    pair_bits(first) + (pair_bits(second) << PAIR_SHIFT)
}

/// A pair in 24 bits.
fn pair_bits(pair: Pair) -> u64
    ensures value { result ≡ layout.pair_bits pair }
    ensures small { result < 2 ^ 24 }
    ensures sized { IsPair pair }
{
    u64::from(pair.index) + (u64::from(pair.array) << ARRAY_SHIFT)
}

/// The pair in the lower 24 bits.
fn pair_in(bits: u64) -> Pair
    ensures { result ≡ layout.pair_in bits }
{
    Pair {
        index: (bits & 0xFFFF) as u16,
        array: ((bits >> ARRAY_SHIFT) & 0xFF) as u8,
    }
}

/// Whether each pair is zero.
fn are_zero(pairs: &[Pair]) -> bool
    ensures { IsTrue result ↔ All (λ p. p ≡ zero_pair) pairs.now }
{
    pairs.iter().all(|pair| *pair == Pair::default())
}
