//! The flows and the events of a grind.

ghost use Rattle.std.specs.Prelude.{◌≡◌, ◌+◌, ◌<◌, ◌≤◌, ◌^◌};
ghost use Rattle.grind_rows.specs.Made as made;

use crate::drawing::draw;
use flow_types::{Flow, FlowKey, Record};

/// How many flows the cluster opens with.
pub const FLOWS: u32 = 16_384;
/// How many updates the script has.
pub const UPDATES: u32 = 1_000;
/// How many packets follow each update.
pub const PACKETS: u32 = 20;
/// How many keys packets have, those of the flows and some that no flow ever has.
const PACKET_KEYS: u64 = 16_640;

/// The flow of this number, from 0, of those that the cluster opens with.
#[tactic(auto, unfolding(crate::specs::Made::flow))]
pub fn flow(seed: u32, number: u32) -> Flow
    requires { number < 16384 }
    ensures { result ≡ made.flow seed number }
{
    drawn_flow(seed, 4 * number, 0x0A00_0000 + number, number + 1)
}

/// A flow of this source and TEID: four draws, the first of this number, give its destination, its source port, its node and
/// its base.
#[tactic(auto, unfolding(crate::specs::Made::drawn_flow))]
fn drawn_flow(seed: u32, first: u32, source: u32, teid: u32) -> Flow
    requires { first + 3 < 2 ^ 32 }
    ensures { result ≡ made.drawn_flow seed first source teid }
{
    let key = FlowKey {
        source,
        destination: (draw(seed, first) % 0x1_0000_0000) as u32,
        source_port: 1024 + (draw(seed, first + 1) % 60_000) as u16,
        destination_port: 443,
        protocol: 6,
    };
    let node = (draw(seed, first + 2) % 4) as u8;
    let base = 0xC0A8_0000 + (draw(seed, first + 3) % 256) as u32;
    Flow {
        key,
        node,
        info: Record { teid, base },
    }
}

/// The flow that this update changes, as it is before: every sixteenth is changed.
#[tactic(auto, unfolding(crate::specs::Made::changed_flow))]
pub fn changed_flow(seed: u32, update: u32) -> Flow
    requires { update < 1000 }
    ensures { result ≡ made.changed_flow seed update }
{
    flow(seed, 16 * update)
}

/// The flow that this update moves to the next node, as it is then.
#[tactic(auto, unfolding(crate::specs::Made::moved_flow))]
pub fn moved_flow(seed: u32, update: u32) -> Flow
    requires { update < 1000 }
    ensures { result ≡ made.moved_flow seed update }
{
    let before = changed_flow(seed, update);
    Flow {
        key: before.key,
        node: ((u32::from(before.node) + 1) % 4) as u8,
        info: Record {
            teid: 20_001 + update,
            base: before.info.base,
        },
    }
}

/// The flow that this update sets anew.
#[tactic(auto, unfolding(crate::specs::Made::new_flow))]
pub fn new_flow(seed: u32, update: u32) -> Flow
    requires { update < 1000 }
    ensures { result ≡ made.new_flow seed update }
{
    let first = 4 * FLOWS + 2 * PACKETS * update + 4 * (update / 4);
    drawn_flow(seed, first, 0x0A01_0000 + update, 40_001 + update)
}

/// The number of the first draw for the packets after this update.
#[tactic(auto, unfolding(crate::specs::Made::packets_draw))]
pub fn packets_draw(update: u32) -> u32
    requires { update < 1000 }
    ensures value { result ≡ made.packets_draw update }
    ensures few { result < 2 ^ 30 }
{
    4 * FLOWS + 2 * PACKETS * update + 4 * ((update + 1) / 4)
}

/// The node at which a packet enters, by the draw of this number.
#[tactic(auto, unfolding(crate::specs::Made::ingress))]
pub fn ingress(seed: u32, number: u32) -> u8
    ensures { result ≡ made.ingress seed number }
{
    (draw(seed, number) % 4) as u8
}

/// The key of a packet, by the draw of this number: that of a flow, or one that no flow ever has.
#[tactic(auto, unfolding(crate::specs::Made::packet_key))]
pub fn packet_key(seed: u32, number: u32) -> FlowKey
    ensures { result ≡ made.packet_key seed number }
{
    let chosen = (draw(seed, number) % PACKET_KEYS) as u32;
    if chosen < FLOWS {
        flow(seed, chosen).key
    } else {
        strange_key(chosen - FLOWS)
    }
}

/// The key of this number, from 0, of those that no flow ever has.
fn strange_key(number: u32) -> FlowKey
    requires { number ≤ 255 }
    ensures { result ≡ made.strange_key number }
{
    FlowKey {
        source: 0x0A02_0000 + number,
        destination: 0xC000_0201,
        source_port: 1,
        destination_port: 443,
        protocol: 6,
    }
}
