//! The octets, numbers and keys that stand at a place.

ghost use Rattle.std.specs.Prelude.{◌≡◌, ◌+◌, ◌≤◌, [], ◌∷◌, IfOk, length, take, drop};
ghost use Rattle.std.specs.Result.{result_err};
ghost use Rattle.flow_types.specs.Key.{number, octets};
ghost use Rattle.delta_codec.specs.Spelling.{Stand, octets_of_word, two_octets};
ghost use Rattle.delta_codec.specs.Fields.{key_number_at, missing, byte_at, two_at};
ghost use Rattle.flow_types.specs.Key.{IsKeyValue};

use crate::refused::DecodeRefused;
use flow_types::FlowKey;

/// So many octets from a place on.
fn take_octets<const N: usize>(bytes: &[u8], at: usize) -> Result<&[u8; N], DecodeRefused>
    requires { at ≤ length bytes.now }
    ensures found { IfOk result (λ taken. (taken.now ≡ take N (drop at bytes.now)) × (at + N ≤ length bytes.now)) }
    ensures fault { result_err result ≡ missing bytes.now at N }
{
    bytes[at..].first_chunk().ok_or(DecodeRefused::Short)
}

/// The octet at a place.
pub(crate) fn take_octet(bytes: &[u8], at: usize) -> Result<u8, DecodeRefused>
    requires { at ≤ length bytes.now }
    ensures value { IfOk result (λ octet. octet ≡ byte_at bytes.now at) }
    ensures stands { IfOk result (λ octet. Stand bytes.now at (octet ∷ [])) }
    ensures fault { result_err result ≡ missing bytes.now at 1 }
{
    bytes.get(at).copied().ok_or(DecodeRefused::Short)
}

/// The number in two octets.
pub(crate) fn take_two(bytes: &[u8], at: usize) -> Result<u16, DecodeRefused>
    requires { at ≤ length bytes.now }
    ensures value { IfOk result (λ number. number ≡ two_at bytes.now at) }
    ensures stands { IfOk result (λ number. Stand bytes.now at (two_octets number)) }
    ensures fault { result_err result ≡ missing bytes.now at 2 }
{
    let octets = take_octets(bytes, at)?;
    Ok(u16::from_be_bytes(*octets))
}

/// The number in four octets.
pub(crate) fn take_four(bytes: &[u8], at: usize) -> Result<u32, DecodeRefused>
    requires { at ≤ length bytes.now }
    ensures stands { IfOk result (λ number. Stand bytes.now at (octets_of_word number)) }
    ensures fault { result_err result ≡ missing bytes.now at 4 }
{
    let octets = take_octets(bytes, at)?;
    Ok(u32::from_be_bytes(*octets))
}

/// The key in 13 octets.
pub(crate) fn take_key(bytes: &[u8], at: usize) -> Result<FlowKey, DecodeRefused>
    requires { at ≤ length bytes.now }
    ensures value { IfOk result (λ key. number key ≡ key_number_at bytes.now at) }
    ensures stands { IfOk result (λ key. Stand bytes.now at (octets key)) }
    ensures sized { IfOk result IsKeyValue }
    ensures fault { result_err result ≡ missing bytes.now at 13 }
{
    let octets = take_octets(bytes, at)?;
    Ok(FlowKey::from_bytes(octets))
}
