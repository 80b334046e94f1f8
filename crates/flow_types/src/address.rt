ghost use Rattle.std.specs.Prelude.{◌≡◌, ℕ, ◌+◌, ◌≤◌, ◌∷◌, ◌++◌, List, MatchOption, None};
ghost use Rattle.std.specs.Fmt.{decimal};
ghost use Rattle.arrayvec.specs.ArrayVec.{array_vec_len};
ghost use Rattle.flow_types.specs.Octet.{octet_with};
ghost use Rattle.flow_types.specs.Text.{address_value, address_text};

use arrayvec::ArrayVec;

/// The IPv4 address that a dotted text writes: four numbers of 0..=255 joined by three dots, none with a leading zero.
/// The first number is the greatest octet.
pub fn read_address(text: &[u8]) -> Option<u32>
    ensures { result ≡ address_value text.now }
{
    let mut upper = 0u32;
    let mut octet = None;
    let mut dots_left = 3u8;
    'octets: for c in text {
        if *c == b'.' {
            dots_left = dots_left.checked_sub(1)?;
            upper = upper * 256 + u32::from(octet?);
            octet = None;
        } else {
            octet = Some(with_digit(octet, *c)?);
        }
    }
    if dots_left == 0 {
        Some(upper * 256 + u32::from(octet?))
    } else {
        None
    }
}

/// An octet with one more digit at its end, where that is one. A first digit 0 has no digit after it.
#[tactic(auto, using(crate::proofs::Digits::digits))]
fn with_digit(octet: Option<u8>, c: u8) -> Option<u8>
    ensures { MatchOption result ((cs : List ℕ) → octet_with octet (c ∷ cs) ≡ None)
        (λ more. (cs : List ℕ) → octet_with octet (c ∷ cs) ≡ octet_with (Some more) cs) }
{
    if !c.is_ascii_digit() {
        return None;
    }
    let digit = c - b'0';
    match octet {
        None => Some(digit),
        Some(0) => None,
        Some(octet) => octet.checked_mul(10)?.checked_add(digit),
    }
}

/// The dotted text of an address, the greatest octet first.
#[tactic(auto, unfolding(crate::specs::Text::address_text))]
pub fn write_address(address: u32) -> ArrayVec<u8, 15>
    ensures { result.items ≡ address_text address }
{
    let [first, second, third, fourth] = address.to_be_bytes();
    let mut text = ArrayVec::new();
    push_number(&mut text, first);
    text.push(b'.');
    push_number(&mut text, second);
    text.push(b'.');
    push_number(&mut text, third);
    text.push(b'.');
    push_number(&mut text, fourth);
    text
}

/// Appends a number's digits.
fn push_number(text: &mut ArrayVec<u8, 15>, number: u8)
    requires { array_vec_len text.old ≤ 12 }
    ensures items { text.new.items ≡ text.old.items ++ decimal number }
    ensures room { array_vec_len text.new ≤ array_vec_len text.old + 3 }
{
    if number >= 100 {
        text.push(b'0' + number / 100);
    }
    if number >= 10 {
        text.push(b'0' + number / 10 % 10);
    }
    text.push(b'0' + number % 10);
}
