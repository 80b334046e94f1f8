ghost use Rattle.std.specs.Prelude.{◌≡◌, ◌↔◌, ◌≤◌, ◌+◌, length, IsErrOf, IsOk, IfOk, Ok};
ghost use Rattle.gtpu_path.specs.declared.tunnel.GpduRefused.{GpduRefused};
ghost use Rattle.gtpu_path.specs.Rules.{AreMet, IsFirstBroken};
ghost use Rattle.gtpu_path.specs.Tunnel.{carried_in, gpdu_octets, gpdu_rules, teid_in, tunnel_in};

use crate::octets::Octets;
use byteorder::{BigEndian, ByteOrder};
use out_of_memory::OutOfMemory;
use std::alloc::Global;
use std::error::Error;
use std::fmt;

/// The octets of the header without optional fields (TS 29.281, section 5.1).
const HEADER: usize = 8;

/// Version 1, protocol type GTP, and no optional field (TS 29.281, section 5.1).
const FLAGS: u8 = 0x30;

/// The message type of a G-PDU (TS 29.281, section 6.1).
const G_PDU: u8 = 255;

/// Why octets are no G-PDU without optional fields, in the order in which the rules are looked at.
#[derive(Clone, Copy, Debug, PartialEq, Eq, Hash)]
pub enum GpduRefused {
    /// There are fewer than eight octets, the length of the header (TS 29.281, section 5.1).
    Short,
    /// Octet 0 isn't that of version 1, protocol type GTP and no optional field (TS 29.281, section 5.1).
    Flags {
        /// Octet 0.
        octet: u8,
    },
    /// The message type isn't that of a G-PDU (TS 29.281, section 6.1).
    MessageType {
        /// Octet 1.
        octet: u8,
    },
    /// The length isn't the number of octets after the header (TS 29.281, section 5.1, "Length").
    Length {
        /// The length that the header tells, in octets.
        length: u16,
    },
}

impl fmt::Display for GpduRefused {
    ghost use Rattle.std.specs.Prelude.{Some};
    ghost use Rattle.gtpu_path.specs.Tunnel.{refusal_text};

    ghost output = { λ refusal. Some (refusal_text refusal) };

    fn fmt<W: fmt::Write>(&self, f: &mut fmt::Formatter<W>) -> fmt::Result {
        match self {
            GpduRefused::Short => f.write_str("fewer octets than the header"),
            GpduRefused::Flags { octet } => write!(f, "flags {octet}"),
            GpduRefused::MessageType { octet } => write!(f, "message type {octet}"),
            GpduRefused::Length { length } => write!(f, "a length of {length} octets"),
        }
    }
}

impl Error for GpduRefused {}

/// The G-PDU without optional fields that carries a packet through the tunnel of this TEID (TS 29.281, sections 5.1 and
/// 6.1).
pub fn gpdu(alloc: Global, teid: u32, packet: &[u8]) -> Result<Octets, OutOfMemory>
    requires { length packet.now ≤ 65535 }
    ensures spelled { IfOk result (λ octets. octets ≡ gpdu_octets teid packet.now) }

    // It is read as this TEID, and the packet follows the header.
    ensures reads { IfOk result (λ octets. tunnel_in octets ≡ Ok teid) }
    ensures carries { IfOk result (λ octets. carried_in octets ≡ packet.now) }
    ensures long { IfOk result (λ octets. length octets ≡ 8 + length packet.now) }
{
    spell_gpdu(alloc, teid, packet)
}

#[tactic(auto, unfolding(crate::specs::Tunnel::gpdu_octets))]
fn spell_gpdu(alloc: Global, teid: u32, packet: &[u8]) -> Result<Octets, OutOfMemory>
    requires { length packet.now ≤ 65535 }
    ensures { IfOk result (λ octets. octets ≡ gpdu_octets teid packet.now) }
{
    let mut header = [FLAGS, G_PDU, 0, 0, 0, 0, 0, 0];
    BigEndian::write_u16(&mut header[2..], packet.len() as u16);
    BigEndian::write_u32(&mut header[4..], teid);
    let mut octets = Vec::with_capacity(alloc, HEADER + packet.len())?;
    octets.extend_from_slice(&header)?;
    octets.extend_from_slice(packet)?;
    Ok(Octets::from_vec(octets))
}

/// The TEID of a G-PDU without optional fields. The carried packet is what follows octet 7.
pub fn read_gpdu(octets: &[u8]) -> Result<u32, GpduRefused>
    ensures value { result ≡ tunnel_in octets.now }

    // What that makes of the octets.
    ensures taken { IsOk result ↔ AreMet (gpdu_rules octets.now) }
    ensures refused { (why : GpduRefused) → IsErrOf result why ↔ IsFirstBroken (gpdu_rules octets.now) why }
    ensures teid { IfOk result (λ teid. teid ≡ teid_in octets.now) }

    // All octets that are taken are those that `gpdu` gives for this TEID and the carried packet.
    ensures long { IfOk result (λ _. 8 ≤ length octets.now) }
    ensures spelled { IfOk result (λ teid. octets.now ≡ gpdu_octets teid (carried_in octets.now)) }
    ensures few { IfOk result (λ _. length (carried_in octets.now) ≤ 65535) }
{
    read_header(octets)
}

#[tactic(auto, unfolding(crate::specs::Tunnel::tunnel_in))]
fn read_header(octets: &[u8]) -> Result<u32, GpduRefused>
    ensures { result ≡ tunnel_in octets.now }
{
    if octets.len() < HEADER {
        return Err(GpduRefused::Short);
    }
    if octets[0] != FLAGS {
        return Err(GpduRefused::Flags { octet: octets[0] });
    }
    if octets[1] != G_PDU {
        return Err(GpduRefused::MessageType { octet: octets[1] });
    }
    let length = BigEndian::read_u16(&octets[2..]);
    if HEADER + usize::from(length) != octets.len() {
        return Err(GpduRefused::Length { length });
    }
    Ok(BigEndian::read_u32(&octets[4..]))
}
