//! Where the words of a table stand.
ghost use Rattle.std.specs.Prelude.{◌≡◌, ◌<◌};
ghost use Rattle.group_cell.specs.Layout as layout;

use crate::view::Address;
use block_layout::GROUPS;
use group_search::MOST_ROWS;

/// The number of row places of a block, of two words each.
pub const PLACES: usize = MOST_ROWS;
/// The number of data words of a group.
pub const DATA_WORDS: usize = 2;
/// The number of words of a block: those of its places, and then a sequence word and the data words for each group.
pub const BLOCK_WORDS: usize = 2 * PLACES + GROUPS as usize * (1 + DATA_WORDS);

/// The first word of a place.
pub fn low_word(block: u16, place: usize) -> usize
    requires { place < 64 }
    ensures { result ≡ layout.low_word block place }
{
    BLOCK_WORDS * usize::from(block) + 2 * place
}

/// The second word of a place.
pub fn high_word(block: u16, place: usize) -> usize
    requires { place < 64 }
    ensures { result ≡ layout.high_word block place }
{
    low_word(block, place) + 1
}

/// The sequence word of a group.
pub fn sequence_word(at: Address) -> usize
    ensures { result ≡ layout.sequence_word (layout.home_of at) }
{
    BLOCK_WORDS * usize::from(at.block) + 2 * PLACES + (1 + DATA_WORDS) * usize::from(at.group)
}

/// A data word of a group.
pub fn data_word(at: Address, number: usize) -> usize
    requires { number < layout.data_words }
    ensures { result ≡ layout.data_word (layout.home_of at) number }
{
    sequence_word(at) + 1 + number
}

/// The tag in the second word of a place: 0 where the place is free, and else one more than its group.
pub fn tag(word: u64) -> u64
    ensures { result ≡ layout.tag word }
{
    (word >> 48) % 128
}
