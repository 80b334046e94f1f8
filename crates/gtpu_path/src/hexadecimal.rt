ghost use Rattle.std.specs.Prelude.{◌≡◌, ◌↔◌, ◌%◌, ◌*◌, ◌<◌, ℕ, length, IfOk, IfSome, IsErrOf, IsTrue, Ok, OnErr, Some};
ghost use Rattle.hex.specs.Hex.{decode_of, hex_digit_value};
ghost use Rattle.out_of_memory.specs.Answer.{Answers};
ghost use Rattle.gtpu_path.specs.declared.hexadecimal.HexRefused.TheVariants.{Digit, Odd};
ghost use Rattle.gtpu_path.specs.Hex.{IsFirstOther, hex_in, hex_text, in_small_letters, named_refusal};

use crate::octets::Octets;
use hex::FromHexError;
use out_of_memory::OutOfMemory;
use std::alloc::Global;
use std::error::Error;
use std::fmt;

/// The value of each octet as a digit, or 255. A look here is no branch: of figures and letters in any order, a processor
/// guesses many wrong.
const VALUES: [u8; 256] = [
    255, 255, 255, 255, 255, 255, 255, 255, 255, 255, 255, 255, 255, 255, 255, 255, 255, 255, 255,
    255, 255, 255, 255, 255, 255, 255, 255, 255, 255, 255, 255, 255, 255, 255, 255, 255, 255, 255,
    255, 255, 255, 255, 255, 255, 255, 255, 255, 255, 0, 1, 2, 3, 4, 5, 6, 7, 8, 9, 255, 255, 255,
    255, 255, 255, 255, 10, 11, 12, 13, 14, 15, 255, 255, 255, 255, 255, 255, 255, 255, 255, 255,
    255, 255, 255, 255, 255, 255, 255, 255, 255, 255, 255, 255, 255, 255, 255, 255, 10, 11, 12, 13,
    14, 15, 255, 255, 255, 255, 255, 255, 255, 255, 255, 255, 255, 255, 255, 255, 255, 255, 255,
    255, 255, 255, 255, 255, 255, 255, 255, 255, 255, 255, 255, 255, 255, 255, 255, 255, 255, 255,
    255, 255, 255, 255, 255, 255, 255, 255, 255, 255, 255, 255, 255, 255, 255, 255, 255, 255, 255,
    255, 255, 255, 255, 255, 255, 255, 255, 255, 255, 255, 255, 255, 255, 255, 255, 255, 255, 255,
    255, 255, 255, 255, 255, 255, 255, 255, 255, 255, 255, 255, 255, 255, 255, 255, 255, 255, 255,
    255, 255, 255, 255, 255, 255, 255, 255, 255, 255, 255, 255, 255, 255, 255, 255, 255, 255, 255,
    255, 255, 255, 255, 255, 255, 255, 255, 255, 255, 255, 255, 255, 255, 255, 255, 255, 255, 255,
    255, 255, 255, 255, 255, 255, 255, 255, 255, 255, 255, 255, 255, 255, 255, 255, 255, 255, 255,
    255, 255, 255,
];

/// Why a text isn't read as octets.
#[derive(Clone, Copy, Debug, PartialEq, Eq, Hash)]
pub enum HexRefused {
    /// It has an odd number of octets.
    Odd,
    /// It has an even number of octets, and one of them is no hexadecimal digit.
    Digit {
        /// The place of the first such octet, counted from 0.
        at: usize,
    },
    /// Memory that the call asked for was not there.
    OutOfMemory,
}

impl fmt::Display for HexRefused {
    ghost use Rattle.std.specs.Prelude.{Some};
    ghost use Rattle.gtpu_path.specs.Hex.{refusal_text};

    ghost output = { λ refusal. Some (refusal_text refusal) };

    fn fmt<W: fmt::Write>(&self, f: &mut fmt::Formatter<W>) -> fmt::Result {
        match self {
            HexRefused::Odd => f.write_str("an odd number of digits"),
            HexRefused::Digit { at } => write!(f, "no digit at place {at}"),
            HexRefused::OutOfMemory => f.write_str("out of memory"),
        }
    }
}

impl Error for HexRefused {}

impl From<FromHexError> for HexRefused {
    ghost use Rattle.gtpu_path.specs.Hex.{refusal_of};

    ghost from_gives = { λ error refused. refused ≡ refusal_of error };

    fn from(error: FromHexError) -> HexRefused {
        match error {
            FromHexError::OddLength => HexRefused::Odd,
            FromHexError::InvalidHexCharacter { index, .. } => HexRefused::Digit { at: index },
            // No text is refused for its length: the room is made to fit it.
            FromHexError::InvalidStringLength => HexRefused::OutOfMemory,
            FromHexError::OutOfMemory => HexRefused::OutOfMemory,
        }
    }
}

/// The octets that a text writes, each by two hexadecimal digits, the upper four bits first. Small and capital letters are
/// read. A text of even length may be refused for want of memory though one of its octets is no digit.
#[tactic(auto, using(crate::proofs::Digits::small_again), unfolding(crate::specs::Hex::hex_in))]
pub fn read_hex(alloc: Global, text: &[u8]) -> Result<Octets, HexRefused>
    ensures answers { Answers (λ octets. octets) named_refusal (hex_in text.now) result }

    // What that makes of a text.
    ensures odd { IsErrOf result Odd ↔ (length text.now % 2 ≡ 1) }
    ensures digit { (at : ℕ) → IsErrOf result (Digit at) → (length text.now % 2 ≡ 0) × IsFirstOther text.now at }
    ensures spelled { IfOk result (λ octets. in_small_letters text.now ≡ hex_text octets) }
{
    match read_digits(alloc, text) {
        Ok(Some(octets)) => Ok(octets),
        // Read once more, to name the first octet that is no digit.
        Ok(None) => decode(alloc, text),
        Err(OutOfMemory) => Err(HexRefused::OutOfMemory),
    }
}

/// The same, by the crate `hex`, which tells the first octet that is no digit.
#[tactic(auto, unfolding(crate::specs::Hex::hex_in))]
fn decode(alloc: Global, text: &[u8]) -> Result<Octets, HexRefused>
    ensures answers { Answers (λ octets. octets) named_refusal (hex_in text.now) result }
    ensures odd { IsErrOf result Odd ↔ (length text.now % 2 ≡ 1) }
    ensures digit { (at : ℕ) → IsErrOf result (Digit at) → (length text.now % 2 ≡ 0) × IsFirstOther text.now at }
    ensures spelled { IfOk result (λ octets. in_small_letters text.now ≡ hex_text octets) }
{
    match hex::decode(alloc, text) {
        Ok(octets) => Ok(Octets::from_vec(octets)),
        Err(error) => Err(HexRefused::from(error)),
    }
}

/// The octets of a text of digits alone. `None` may come for any other text, and does for one of odd length.
fn read_digits(alloc: Global, text: &[u8]) -> Result<Option<Octets>, OutOfMemory>
    ensures read { IfOk result (λ found. IfSome found (λ octets. decode_of text.now ≡ Ok octets)) }
    ensures even { OnErr result (length text.now % 2 ≡ 0) }
{
    if text.len() % 2 != 0 {
        return Ok(None);
    }
    let mut octets = vec![in alloc; 0u8; text.len() / 2]?;
    if !put_digits(text, octets.as_mut_slice()) {
        return Ok(None);
    }
    Ok(Some(Octets::from_vec(octets)))
}

/// Puts the octets of a text into their places, and says whether it has digits alone. If not, the octets are any.
fn put_digits(text: &[u8], octets: &mut [u8]) -> bool
    requires { length text.now ≡ 2 * length octets.old }
    ensures { IsTrue result → decode_of text.now ≡ Ok octets.new }
{
    'places: for place in 0..octets.len() {
        let high = value(text[2 * place]);
        let low = value(text[2 * place + 1]);
        if high > 15 || low > 15 {
            return false;
        }
        octets[place] = high * 16 + low;
    }
    true
}

/// The value of a digit, and more than 15 for what is none.
fn value(digit: u8) -> u8
    ensures { result < 16 → hex_digit_value digit ≡ Some result }
{
    VALUES[digit as usize]
}

/// The text that writes octets: two hexadecimal digits each, the upper four bits first, with small letters.
pub fn write_hex(alloc: Global, octets: &[u8]) -> Result<Vec<u8>, OutOfMemory>
    ensures text { IfOk result (λ text. text.items ≡ hex_text octets.now) }
    ensures reads { IfOk result (λ text. hex_in text.items ≡ Ok octets.now) }
{
    let text = hex::encode(alloc, octets)?;
    Ok(text.into_bytes())
}
