ghost use Rattle.std.specs.Prelude.{◌≡◌, ◌+◌, ◌≤◌, [], ◌∷◌, ◌++◌, OnOk, length};
ghost use Rattle.std.specs.List.{concat};
ghost use Rattle.std.specs.Fmt.{decimal};

use itoa::Buffer;
use std::alloc::AllocError;

/// Appends words and a number.
pub fn write_count(text: &mut Vec<u8>, words: &[u8], number: u64) -> Result<(), AllocError>
    ensures { OnOk result (text.new.items ≡ text.old.items ++ concat (words.now ∷ decimal number ∷ [])) }
{
    let mut digits = Buffer::new();
    write_words(text, words)?;
    write_words(text, digits.format(number).as_bytes())
}

/// Appends words.
pub fn write_words(text: &mut Vec<u8>, words: &[u8]) -> Result<(), AllocError>
    ensures { OnOk result (text.new.items ≡ text.old.items ++ concat (words.now ∷ [])) }
{
    text.extend_from_slice(words)
}
