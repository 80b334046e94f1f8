//! What the definitions mean together. Each law is a function that does nothing, whose contract says it.

ghost use Rattle.std.specs.Prelude.{◌≡◌, ◌≢◌, ◌↔◌, ◌%◌, ◌^◌, ◌<◌, ◌≤◌, ℕ, List, Ok, Err, length};
ghost use Rattle.gtpu_path.specs.declared.hexadecimal.HexRefused.TheVariants.{Digit, Odd, OutOfMemory};
ghost use Rattle.gtpu_path.specs.Hex.{IsFirstOther, hex_in, hex_text, in_small_letters};
ghost use Rattle.gtpu_path.specs.Octets.{AreOctets};
ghost use Rattle.gtpu_path.specs.Tunnel.{carried_in, gpdu_octets, tunnel_in};

/// A G-PDU is read as its TEID, and carries its packet.
pub fn gpdus_read_back()
    ensures teid { (teid : ℕ) (packet : List ℕ) → teid < 2 ^ 32 → length packet ≤ 65535 →
        tunnel_in (gpdu_octets teid packet) ≡ Ok teid }
    ensures packet { (teid : ℕ) (packet : List ℕ) → carried_in (gpdu_octets teid packet) ≡ packet }
{}

/// Octets that are read as a TEID are the G-PDU of this TEID and of the packet that they carry.
pub fn what_is_read_is_a_gpdu()
    ensures { (teid : ℕ) (octets : List ℕ) → AreOctets octets → tunnel_in octets ≡ Ok teid →
        octets ≡ gpdu_octets teid (carried_in octets) }
{}

/// A text is read as octets exactly where, in small letters, it is their digits.
pub fn texts_of_octets()
    ensures { (text octets : List ℕ) → AreOctets octets →
        (hex_in text ≡ Ok octets) ↔ (in_small_letters text ≡ hex_text octets) }
{}

/// A text is refused as odd exactly where its length is odd, for an octet exactly where its length is even and this octet is
/// the first that is no hexadecimal digit, and for no other cause.
pub fn refused_texts()
    ensures odd { (text : List ℕ) → (hex_in text ≡ Err Odd) ↔ (length text % 2 ≡ 1) }
    ensures digit { (text : List ℕ) (at : ℕ) →
        (hex_in text ≡ Err (Digit at)) ↔ ((length text % 2 ≡ 0) × IsFirstOther text at) }
    ensures no_other { (text : List ℕ) → hex_in text ≢ Err OutOfMemory }
{}
