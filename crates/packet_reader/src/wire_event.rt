use crate::event::Event;
use gtpu_path::Octets;

/// One thing that happens in a run of raw packets, in the order of the script.
#[derive(Debug, Drop)]
pub enum WireEvent {
    /// An event of a replay.
    Plain(Event),
    /// An IPv4 packet enters the cluster, as it comes from the wire.
    Wire {
        /// The node at which it enters.
        ingress: u8,
        /// The packet's octets, and what padding follows them.
        octets: Octets,
    },
    /// A G-PDU comes out of a tunnel.
    Tunnel {
        /// The octets of its header and of the packet that it carries.
        octets: Octets,
    },
}
