ghost use Rattle.std.specs.Prelude.{◌≡◌, ◌↔◌, ◌≤◌, ◌<◌, ◌+◌, ◌||◌, nat_lt, true, length, IsErrOf, IsOk, IfOk};
ghost use Rattle.gtpu_path.specs.declared.packet.PacketRefused.{PacketRefused};
ghost use Rattle.gtpu_path.specs.Octets.{two_at};
ghost use Rattle.gtpu_path.specs.Packet.{fragment_offset_in, head_in, header_length_in, header_words_in, key_in, packet_in, packet_rules, protocol_in, total_length_in, version_in};
ghost use Rattle.gtpu_path.specs.Packet as packet;
ghost use Rattle.gtpu_path.specs.Rules.{AreMet, IsFirstBroken};

use byteorder::{BigEndian, ByteOrder};
use flow_types::FlowKey;
use std::error::Error;
use std::fmt;

/// The octets of the shortest header (RFC 791, section 3.1).
const SHORTEST_HEADER: usize = 20;

/// The version of IPv4 (RFC 791, section 3.1).
const VERSION: u8 = 4;

/// The fewest words of a header (RFC 791, section 3.1).
const FEWEST_WORDS: u8 = 5;

/// The bits of the fragment offset, below the three flags (RFC 791, section 3.1).
const OFFSET_BITS: u16 = 0x1FFF;

/// The protocol number of TCP (RFC 9293, section 3.1).
const TCP: u8 = 6;

/// The protocol number of UDP (RFC 768, "Protocol Application").
const UDP: u8 = 17;

/// What the headers of a packet say.
#[derive(Clone, Copy, Debug, PartialEq, Eq, Hash)]
pub struct PacketHead {
    /// The addresses and the protocol of the IPv4 header (RFC 791, section 3.1), and the ports of the TCP header (RFC
    /// 9293, section 3.1) or the UDP header (RFC 768, "Format"). Of any other protocol the ports are 0.
    pub key: FlowKey,
    /// The packet's length in octets, with its header (RFC 791, section 3.1, "Total Length"). What follows is padding.
    pub total: u16,
}

/// Why octets are no packet, in the order in which the rules are looked at.
#[derive(Clone, Copy, Debug, PartialEq, Eq, Hash)]
pub enum PacketRefused {
    /// There are fewer than 20 octets, the length of the shortest header (RFC 791, section 3.1).
    Short,
    /// The version isn't 4 (RFC 791, section 3.1, "Version").
    Version {
        /// The version.
        version: u8,
    },
    /// The header has fewer than five words of four octets (RFC 791, section 3.1, "IHL").
    HeaderLength {
        /// Its words.
        words: u8,
    },
    /// The packet ends before its header does, or after the octets (RFC 791, section 3.1, "Total Length").
    TotalLength {
        /// The length that the header tells, in octets.
        total: u16,
    },
    /// The packet is a fragment, and not the first (RFC 791, section 3.1, "Fragment Offset").
    Fragment {
        /// Its offset, in units of eight octets.
        offset: u16,
    },
    /// A packet of TCP or UDP ends before its ports do (RFC 9293, section 3.1; RFC 768, "Format").
    NoPorts,
}

impl fmt::Display for PacketRefused {
    ghost use Rattle.std.specs.Prelude.{Some};
    ghost use Rattle.gtpu_path.specs.Packet.{refusal_text};

    ghost output = { λ refusal. Some (refusal_text refusal) };

    fn fmt<W: fmt::Write>(&self, f: &mut fmt::Formatter<W>) -> fmt::Result {
        match self {
            PacketRefused::Short => f.write_str("fewer octets than the shortest header"),
            PacketRefused::Version { version } => write!(f, "version {version}"),
            PacketRefused::HeaderLength { words } => write!(f, "a header of {words} words"),
            PacketRefused::TotalLength { total } => write!(f, "a length of {total} octets"),
            PacketRefused::Fragment { offset } => write!(f, "a fragment from {offset} on"),
            PacketRefused::NoPorts => f.write_str("no ports"),
        }
    }
}

impl Error for PacketRefused {}

/// The headers of the packet that the octets begin with. Octets past its total length are padding; a first fragment is
/// read like a whole packet. The header's checksum isn't looked at.
pub fn read_packet(octets: &[u8]) -> Result<PacketHead, PacketRefused>
    ensures value { result ≡ packet_in octets.now }

    // What that makes of the octets.
    ensures taken { IsOk result ↔ AreMet (packet_rules octets.now) }
    ensures refused { (why : PacketRefused) → IsErrOf result why ↔ IsFirstBroken (packet_rules octets.now) why }
    ensures head { IfOk result (λ head. head ≡ head_in octets.now) }
    ensures within { IfOk result (λ head. head.total ≤ length octets.now) }
{
    read_headers(octets)
}

#[tactic(auto, unfolding(crate::specs::Packet::packet_in))]
fn read_headers(octets: &[u8]) -> Result<PacketHead, PacketRefused>
    ensures { result ≡ packet_in octets.now }
{
    if octets.len() < SHORTEST_HEADER {
        return Err(PacketRefused::Short);
    }
    let version = version(octets);
    if version != VERSION {
        return Err(PacketRefused::Version { version });
    }
    let words = header_words(octets);
    if words < FEWEST_WORDS {
        return Err(PacketRefused::HeaderLength { words });
    }
    let header = 4 * usize::from(words);
    let total = total_length(octets);
    if ends_wrongly(usize::from(total), header, octets.len()) {
        return Err(PacketRefused::TotalLength { total });
    }
    let offset = fragment_offset(octets);
    if offset != 0 {
        return Err(PacketRefused::Fragment { offset });
    }
    if has_ports(protocol(octets)) && usize::from(total) < header + 4 {
        return Err(PacketRefused::NoPorts);
    }
    let key = key(octets, header);
    Ok(PacketHead { key, total })
}

/// The version (RFC 791, section 3.1, "Version").
fn version(octets: &[u8]) -> u8
    requires { 20 ≤ length octets.now }
    ensures { result ≡ version_in octets.now }
{
    octets[0] >> 4
}

/// The header's length in words of four octets (RFC 791, section 3.1, "IHL").
fn header_words(octets: &[u8]) -> u8
    requires { 20 ≤ length octets.now }
    ensures value { result ≡ header_words_in octets.now }
    ensures few { result < 16 }
{
    octets[0] & 0x0F
}

/// The packet's length in octets (RFC 791, section 3.1, "Total Length").
fn total_length(octets: &[u8]) -> u16
    requires { 20 ≤ length octets.now }
    ensures { result ≡ total_length_in octets.now }
{
    BigEndian::read_u16(&octets[2..])
}

/// Where the fragment begins in its packet, in units of eight octets (RFC 791, section 3.1, "Fragment Offset").
fn fragment_offset(octets: &[u8]) -> u16
    requires { 20 ≤ length octets.now }
    ensures { result ≡ fragment_offset_in octets.now }
{
    BigEndian::read_u16(&octets[6..]) & OFFSET_BITS
}

/// The protocol of what the packet carries (RFC 791, section 3.1, "Protocol").
fn protocol(octets: &[u8]) -> u8
    requires { 20 ≤ length octets.now }
    ensures { result ≡ protocol_in octets.now }
{
    octets[9]
}

/// Whether a packet ends within its header or beyond the octets.
fn ends_wrongly(total: usize, header: usize, there: usize) -> bool
    ensures { result ≡ (nat_lt total header || nat_lt there total) }
{
    total < header || total > there
}

/// Whether the headers of a protocol begin with two ports.
fn has_ports(protocol: u8) -> bool
    ensures { result ≡ packet.has_ports protocol }
{
    protocol == TCP || protocol == UDP
}

/// The addresses (RFC 791, section 3.1, "Source Address" and "Destination Address") and the protocol, and the ports after a
/// header of `header` octets. Of a protocol without ports they are 0.
fn key(octets: &[u8], header: usize) -> FlowKey
    requires header { header ≡ header_length_in octets.now }
    requires whole { 20 ≤ length octets.now }
    requires ports { packet.has_ports (protocol_in octets.now) ≡ true → header + 4 ≤ length octets.now }
    ensures { result ≡ key_in octets.now }
{
    let protocol = protocol(octets);
    let (source_port, destination_port) = if has_ports(protocol) {
        ports(octets, header)
    } else {
        (0, 0)
    };
    FlowKey {
        source: BigEndian::read_u32(&octets[12..]),
        destination: BigEndian::read_u32(&octets[16..]),
        source_port,
        destination_port,
        protocol,
    }
}

/// The source and the destination port after a header of `header` octets (RFC 9293, section 3.1; RFC 768, "Format").
fn ports(octets: &[u8], header: usize) -> (u16, u16)
    requires { header + 4 ≤ length octets.now }
    ensures source { result.0 ≡ two_at header octets.now }
    ensures destination { result.1 ≡ two_at (header + 2) octets.now }
{
    (
        BigEndian::read_u16(&octets[header..]),
        BigEndian::read_u16(&octets[header + 2..]),
    )
}
