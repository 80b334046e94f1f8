ghost use Rattle.std.specs.Prelude.{◌≡◌, ◌^◌, ◌<◌, ◌↔◌, IsSome, IfSome};
ghost use Rattle.flow_types.specs.Key as key;

/// What names a flow: the addresses, ports and protocol of its packets.
///
/// Keys are ordered by their numbers.
#[derive(Clone, Copy, Debug, PartialEq, Eq, PartialOrd, Ord, Hash)]
pub struct FlowKey {
    /// The IPv4 source address, its first octet as the greatest.
    pub source: u32,
    /// The IPv4 destination address, its first octet as the greatest.
    pub destination: u32,
    /// The source port.
    pub source_port: u16,
    /// The destination port.
    pub destination_port: u16,
    /// The protocol's number in the IPv4 header: 6 is TCP, 17 is UDP.
    pub protocol: u8,
}

impl FlowKey {
    /// The key as one number of 104 bits: source, destination, source port, destination port and protocol, from the
    /// greatest bits down.
    pub fn number(&self) -> u128
        ensures value { result ≡ key.number self.now }
        ensures below { result < 2 ^ 104 }
    {
        ((self.source as u128) << 72)
            + ((self.destination as u128) << 40)
            + ((self.source_port as u128) << 24)
            + ((self.destination_port as u128) << 8)
            + self.protocol as u128
    }
    /// The key of a number, or `None` where the number is 2^104 or more.
    pub fn from_number(number: u128) -> Option<FlowKey>
        ensures valid { IsSome result ↔ (number < 2 ^ 104) }
        ensures value { IfSome result (λ found. found ≡ key.key_of number) }
        ensures inverse { IfSome result (λ found. key.number found ≡ number) }
    {
        if number >> 104 != 0 {
            return None;
        }
        Some(FlowKey {
            source: (number >> 72) as u32,
            destination: (number >> 40 & 0xFFFF_FFFF) as u32,
            source_port: (number >> 24 & 0xFFFF) as u16,
            destination_port: (number >> 8 & 0xFFFF) as u16,
            protocol: (number & 0xFF) as u8,
        })
    }

    /// The octets of the key's number, the greatest first.
    pub fn to_bytes(&self) -> [u8; 13]
        ensures { result ≡ key.octets self.now }
    {
        let FlowKey {
            source,
            destination,
            source_port,
            destination_port,
            protocol,
        } = *self;
        let [s0, s1, s2, s3] = source.to_be_bytes();
        let [d0, d1, d2, d3] = destination.to_be_bytes();
        let [sp0, sp1] = source_port.to_be_bytes();
        let [dp0, dp1] = destination_port.to_be_bytes();
        let [protocol] = protocol.to_be_bytes();
        [s0, s1, s2, s3, d0, d1, d2, d3, sp0, sp1, dp0, dp1, protocol]
    }

    /// The key of these octets, which are its number with the greatest first.
    pub fn from_bytes(bytes: &[u8; 13]) -> FlowKey
        ensures { key.octets result ≡ bytes.now }
    {
        let [s0, s1, s2, s3, d0, d1, d2, d3, sp0, sp1, dp0, dp1, protocol] = *bytes;
        FlowKey {
            source: u32::from_be_bytes([s0, s1, s2, s3]),
            destination: u32::from_be_bytes([d0, d1, d2, d3]),
            source_port: u16::from_be_bytes([sp0, sp1]),
            destination_port: u16::from_be_bytes([dp0, dp1]),
            protocol,
        }
    }
}
