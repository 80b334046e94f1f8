ghost use Rattle.std.specs.Prelude.{◌≡◌, ◌≤◌, IfSome, None, if◌then◌else◌};
ghost use Rattle.std.specs.Str.{all_ascii_digits};
ghost use Rattle.std.specs.Str.Parse.{digits_value};
ghost use Rattle.flow_types.specs.Text.{number_value, up_to};

/// The number that a text of decimal digits writes: one or more digits, no leading zero (`0` itself is allowed), and a
/// value of at most `max`.
#[tactic(auto, unfolding(crate::specs::Text::number_value))]
pub fn read_number(text: &[u8], max: u64) -> Option<u64>
    ensures value { result ≡ number_value max text.now }
    ensures most { IfSome result (λ number. number ≤ max) }
{
    match text {
        [] => None,
        [b'0', _, ..] => None,
        _ => digits_up_to(text, max),
    }
}

/// The value of a text of digits alone, where it is at most `max`.
#[tactic(auto, using(crate::proofs::Reading::reading))]
fn digits_up_to(text: &[u8], max: u64) -> Option<u64>
    ensures value { result ≡ (if all_ascii_digits text.now then up_to max (digits_value 10 text.now) else None) }
    ensures most { IfSome result (λ number. number ≤ max) }
{
    let mut value = 0u64;
    'digits: for c in text {
        if !c.is_ascii_digit() {
            return None;
        }
        let digit = u64::from(*c - b'0');
        value = value.checked_mul(10)?.checked_add(digit)?;
    }
    if value <= max { Some(value) } else { None }
}
