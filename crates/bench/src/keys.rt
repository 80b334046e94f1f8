use flow_types::FlowKey;
use hash_family::mix;

/// What parts the seeds of two draws.
const STEP: u64 = 0x9E37_79B9_7F4A_7C15;

/// The draw of this number: the same for one seed and number.
pub fn draw(seed: u64, number: u64) -> u64 {
    mix(seed.wrapping_add(number.wrapping_mul(STEP)))
}

/// A key whose addresses and source port are drawn.
pub fn key(seed: u64, number: u64) -> FlowKey {
    let addresses = draw(seed, number);
    FlowKey {
        source: (addresses >> 32) as u32,
        destination: (addresses & 0xFFFF_FFFF) as u32,
        source_port: (draw(seed, addresses) & 0xFFFF) as u16,
        destination_port: 443,
        protocol: 6,
    }
}
