use super::*;

const KEY: FlowKey = FlowKey {
    source: 0x0A00_0001,
    destination: 0xC000_0207,
    source_port: 1000,
    destination_port: 443,
    protocol: 6,
};

#[test]
fn keys_and_octets(rt: HostRuntime) {
    let octets = [0x0A, 0, 0, 1, 0xC0, 0, 2, 7, 0x03, 0xE8, 0x01, 0xBB, 0x06];
    assert_eq!(rt; KEY.to_bytes(), octets);
    assert_eq!(rt; FlowKey::from_bytes(&octets), KEY);
    let number = 0x0A_0000_01C0_0002_0703_E801_BB06;
    assert_eq!(rt; KEY.number(), number);
    assert_eq!(rt; FlowKey::from_number(number), Some(KEY));
    assert_eq!(rt; FlowKey::from_number(1 << 104), None);
    assert!(rt; FlowKey::from_number((1 << 104) - 1).is_some());
}

#[test]
fn shapes(rt: HostRuntime) {
    for (nodes, bits) in [(2, 1), (3, 2), (4, 2), (5, 3), (8, 3), (9, 4), (16, 4)] {
        let Some(shape) = Shape::new(nodes, 256) else {
            assert!(rt; false, "{nodes} nodes");
            return;
        };
        assert_eq!(rt; shape.value_bits(), bits, "{nodes} nodes");
        assert_eq!(rt; u16::from(shape.owner(255)), 255 % nodes, "{nodes} nodes");
        assert_eq!(rt; (shape.nodes(), shape.blocks()), (nodes, 256));
    }
    for (nodes, blocks) in [(1, 1), (17, 1), (2, 0), (2, 257)] {
        assert_eq!(rt;
            Shape::new(nodes, blocks),
            None,
            "{nodes} nodes, {blocks} blocks"
        );
    }
}

#[test]
fn address_texts(rt: HostRuntime) {
    for (text, address) in [
        ("0.0.0.0", Some(0)),
        ("10.0.0.1", Some(0x0A00_0001)),
        ("192.168.0.9", Some(0xC0A8_0009)),
        ("255.255.255.255", Some(0xFFFF_FFFF)),
        ("", None),
        ("1.2.3", None),
        ("1.2.3.", None),
        (".1.2.3", None),
        ("1..2.3", None),
        ("1.2.3.4.", None),
        ("1.2.3.4.5", None),
        ("01.2.3.4", None),
        ("1.2.3.256", None),
        ("1.2.3.1000", None),
        ("1.2.3.-4", None),
        ("1.2.3.+4", None),
        (" 1.2.3.4", None),
        ("1.2.3.4a", None),
    ] {
        assert_eq!(rt; read_address(text.as_bytes()), address, "{text}");
        if let Some(address) = address {
            assert_eq!(rt;
                write_address(address).as_slice(),
                text.as_bytes(),
                "{text}"
            );
        }
    }
}

#[test]
fn number_texts(rt: HostRuntime) {
    for (text, max, number) in [
        ("0", 0, Some(0)),
        ("1", 0, None),
        ("255", 255, Some(255)),
        ("256", 255, None),
        ("65535", 65_535, Some(65_535)),
        ("18446744073709551615", u64::MAX, Some(u64::MAX)),
        ("18446744073709551616", u64::MAX, None),
        ("99999999999999999999999999", u64::MAX, None),
        ("", 9, None),
        ("00", 9, None),
        ("07", 9, None),
        ("+7", 9, None),
        ("-0", 9, None),
        ("7 ", 9, None),
        ("0x7", 9, None),
    ] {
        assert_eq!(rt;
            read_number(text.as_bytes(), max),
            number,
            "{text} up to {max}"
        );
    }
}

/// The laws do nothing but be there; the order of keys is a call.
#[test]
fn laws_can_be_called(rt: HostRuntime) {
    laws::number_texts();
    laws::address_texts();
    laws::addresses_have_32_bits();
    laws::key_of_its_number(KEY);
    laws::number_of_its_key();
    laws::octets_tell_keys_apart(KEY, KEY);
    if let Some(shape) = Shape::new(2, 1) {
        laws::numbers_of_a_shape(shape);
    }
    let later = FlowKey {
        destination_port: 444,
        protocol: 0,
        ..KEY
    };
    assert_eq!(rt; laws::order_of_keys(KEY, later), std::cmp::Ordering::Less);
}
