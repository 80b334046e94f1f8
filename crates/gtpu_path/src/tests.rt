use super::*;
use flow_types::FlowKey;
use std::test::Fail;

/// From 10.0.0.1 to 192.0.2.7.
const KEY: FlowKey = FlowKey {
    source: 0x0A00_0001,
    destination: 0xC000_0207,
    source_port: 1000,
    destination_port: 443,
    protocol: 17,
};

/// A packet of UDP without payload, from port 1000 to port 443.
const DATAGRAM: &[u8] = b"4500001c00000000401100000a000001c000020703e801bb00080000";

/// The octets of this packet.
const OCTETS: [u8; 28] = [
    0x45, 0, 0, 0x1C, 0, 0, 0, 0, 0x40, 0x11, 0, 0, 0x0A, 0, 0, 1, 0xC0, 0, 2, 7, 0x03, 0xE8, 0x01,
    0xBB, 0, 8, 0, 0,
];

#[test]
fn packets(rt: HostRuntime) -> Result<(), Fail> {
    let whole = Ok(PacketHead {
        key: KEY,
        total: 28,
    });
    let tcp = FlowKey { protocol: 6, ..KEY };
    let echo = FlowKey {
        source_port: 0,
        destination_port: 0,
        protocol: 1,
        ..KEY
    };
    let cases: [(&[u8], Result<PacketHead, PacketRefused>); 17] = [
        (DATAGRAM, whole),
        // Padding after the packet.
        (
            b"4500001c00000000401100000a000001c000020703e801bb000800000000",
            whole,
        ),
        // One word of options between the addresses and the ports, and TCP.
        (
            b"4600001c00000000400600000a000001c00002070101010103e801bb",
            Ok(PacketHead {
                key: tcp,
                total: 28,
            }),
        ),
        // ICMP has no ports, and a packet may be its header alone.
        (
            b"4500001400000000400100000a000001c0000207",
            Ok(PacketHead {
                key: echo,
                total: 20,
            }),
        ),
        // A first fragment, and one that must not be broken up.
        (
            b"4500001c00002000401100000a000001c000020703e801bb00080000",
            whole,
        ),
        (
            b"4500001c00004000401100000a000001c000020703e801bb00080000",
            whole,
        ),
        (b"", Err(PacketRefused::Short)),
        (
            b"6500001c000000004011000000000000000000",
            Err(PacketRefused::Short),
        ),
        (
            b"6500001c00000000401100000a000001c000020703e801bb00080000",
            Err(PacketRefused::Version { version: 6 }),
        ),
        (
            b"4400001c00000000401100000a000001c000020703e801bb00080000",
            Err(PacketRefused::HeaderLength { words: 4 }),
        ),
        // Shorter than the header, and longer than the octets.
        (
            b"4600001700000001401100000a000001c000020703e801bb00080000",
            Err(PacketRefused::TotalLength { total: 23 }),
        ),
        (
            b"4500001d00000001401100000a000001c000020703e801bb00080000",
            Err(PacketRefused::TotalLength { total: 29 }),
        ),
        (
            b"4500001c00000001401100000a000001c000020703e801bb00080000",
            Err(PacketRefused::Fragment { offset: 1 }),
        ),
        (
            b"450000140000ffff401100000a000001c0000207",
            Err(PacketRefused::Fragment { offset: 8191 }),
        ),
        (
            b"4500001700000000401100000a000001c000020703e801bb00080000",
            Err(PacketRefused::NoPorts),
        ),
        (
            b"4500001700000000400600000a000001c000020703e801bb00080000",
            Err(PacketRefused::NoPorts),
        ),
        (
            b"4500001800000000401100000a000001c000020703e801bb",
            Ok(PacketHead {
                key: KEY,
                total: 24,
            }),
        ),
    ];
    for (text, want) in cases {
        let octets = read_hex(rt.alloc(), text).ok().ok_or("octets")?;
        assert_eq!(rt; read_packet(octets.as_slice()), want, "{text:?}");
    }
    Ok(())
}

#[test]
fn tunnels(rt: HostRuntime) -> Result<(), Fail> {
    let made = gpdu(rt.alloc(), 77, &OCTETS)?;
    let text = write_hex(rt.alloc(), made.as_slice())?;
    assert!(rt; text.as_slice().starts_with(b"30ff001c0000004d4500001c"));
    assert!(rt; text.as_slice().ends_with(DATAGRAM));
    assert_eq!(rt; read_gpdu(made.as_slice()), Ok(77));
    assert_eq!(rt; &made.as_slice()[8..], OCTETS.as_slice());

    let cases: [(&[u8], Result<u32, GpduRefused>); 9] = [
        (b"30ff000012345678", Ok(305_419_896)),
        (b"30ff0001ffffffffab", Ok(4_294_967_295)),
        (b"30ff0000000000", Err(GpduRefused::Short)),
        // A sequence number would follow, and it is no G-PDU.
        (b"3201000000000001", Err(GpduRefused::Flags { octet: 0x32 })),
        (
            b"3001000500000001",
            Err(GpduRefused::MessageType { octet: 1 }),
        ),
        (
            b"30fe000000000001",
            Err(GpduRefused::MessageType { octet: 254 }),
        ),
        // The length with the header's octets, and one octet too many and too few.
        (b"30ff000800000001", Err(GpduRefused::Length { length: 8 })),
        (
            b"30ff000000000001ab",
            Err(GpduRefused::Length { length: 0 }),
        ),
        (
            b"30ff000200000001ab",
            Err(GpduRefused::Length { length: 2 }),
        ),
    ];
    for (text, want) in cases {
        let octets = read_hex(rt.alloc(), text).ok().ok_or("octets")?;
        assert_eq!(rt; read_gpdu(octets.as_slice()), want, "{text:?}");
    }
    Ok(())
}

#[test]
fn texts(rt: HostRuntime) -> Result<(), Fail> {
    let octets = read_hex(rt.alloc(), b"00aBfF09").ok().ok_or("octets")?;
    assert_eq!(rt; octets.as_slice(), [0, 0xAB, 0xFF, 9].as_slice());
    let text = write_hex(rt.alloc(), octets.as_slice())?;
    assert_eq!(rt; text.as_slice(), b"00abff09".as_slice());

    let cases: [(&[u8], HexRefused); 6] = [
        (b"0", HexRefused::Odd),
        (b"0g0", HexRefused::Odd),
        (b"0g", HexRefused::Digit { at: 1 }),
        (b"g0", HexRefused::Digit { at: 0 }),
        (b"00 1:/", HexRefused::Digit { at: 2 }),
        (b"00@G`g", HexRefused::Digit { at: 2 }),
    ];
    for (text, want) in cases {
        assert_eq!(rt; read_hex(rt.alloc(), text).err(), Some(want), "{text:?}");
    }
    laws::gpdus_read_back();
    laws::what_is_read_is_a_gpdu();
    laws::texts_of_octets();
    laws::refused_texts();
    Ok(())
}
