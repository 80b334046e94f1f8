use super::*;
use flow_types::{FlowKey, Shape};

/// The key of a source of 0, an address, two ports and a protocol.
fn key(destination: [u8; 4], source_port: u16, destination_port: u16, protocol: u8) -> FlowKey {
    FlowKey {
        source: 0,
        destination: u32::from_be_bytes(destination),
        source_port,
        destination_port,
        protocol,
    }
}

#[test]
fn mixes(rt: HostRuntime) {
    for (z, mixed) in [
        (0, 0),
        (0x9E37_79B9_7F4A_7C15, 0xE220_A839_7B1D_CDAF),
        (0x3C6E_F372_FE94_F82A, 0x6E78_9E6A_A1B9_65F4),
        (0xDAA6_6D2C_7DDF_743F, 0x06C4_5D18_8009_454F),
    ] {
        assert_eq!(rt; mix(z), mixed, "{z:x}");
    }
}

/// The keys whose numbers are the seeds: the base under that seed is 0.
#[test]
fn keys_of_the_seeds(rt: HostRuntime) {
    let first = key([0, 158, 55, 121], 47_487, 19_068, 21);
    let second = key([0, 60, 110, 243], 29_438, 38_136, 42);
    let third = key([0, 218, 166, 109], 11_389, 57_204, 63);
    for (j, key, number) in [
        (1, first, 0x9E37_79B9_7F4A_7C15),
        (2, second, 0x3C6E_F372_FE94_F82A),
        (3, third, 0xDAA6_6D2C_7DDF_743F),
    ] {
        assert_eq!(rt; key.number(), number, "the {j}-th key");
        assert!(rt; 1 <= j && j <= 3);
        assert_eq!(rt; base(j, key), 0, "the {j}-th key");
    }
    for blocks in 1..=256 {
        let Some(shape) = Shape::new(2, blocks) else {
            assert!(rt; false, "{blocks} blocks");
            return;
        };
        let origin = Place {
            block: 0,
            bucket: 0,
        };
        assert_eq!(rt; place(shape, first), origin, "{blocks} blocks");
        let hashed = HashedKey::of(&second);
        assert_eq!(rt;
            hashed.place(shape),
            place(shape, second),
            "{blocks} blocks"
        );
        let by = Reciprocal::of(shape);
        assert_eq!(rt;
            hashed.place_by(&by),
            place(shape, second),
            "{blocks} blocks"
        );
    }
    let hashed = HashedKey::of(&third);
    assert_eq!(rt; hashed.key(), third);
    assert_eq!(rt; hashed.pair(), pair(third));
    assert_eq!(rt; pair(second).g1, 0);
    assert_eq!(rt; pair(third).g2, 1);
}

#[test]
fn positions(rt: HostRuntime) {
    let pair = HashPair {
        g1: 0xFFFF_FFFF,
        g2: 3,
    };
    for (index, at) in [(0, 7), (2, 0)] {
        assert_eq!(rt; position(pair, index), at, "index {index}");
    }
}
