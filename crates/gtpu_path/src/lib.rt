//! The headers of IPv4 packets and of the G-PDUs that carry them through a tunnel, and octets as hexadecimal text.
//!
//! A contract sees octets as a list of numbers (`specs/Octets.antt`). `specs/Packet.antt` and `specs/Tunnel.antt` say what
//! is read in them and by which rules, in their order, they are refused (`specs/Rules.antt`), `specs/Hex.antt` what a text
//! is read as. Left out: outer headers, header checksums, and G-PDUs with optional fields, which are refused.
//! Proved: each call computes its definition; a refusal is that of the first broken rule; `gpdu` and `read_gpdu` are each
//! other's inverse, and so are `write_hex` and `read_hex` but for the case of letters. Only tested: that the definitions
//! meet vectors from outside, and that memory suffices.
#![tactic(auto)]

mod hexadecimal;
pub mod laws;
mod octets;
mod packet;
#[cfg(test)]
mod tests;
mod tunnel;

pub use hexadecimal::{HexRefused, read_hex, write_hex};
pub use octets::Octets;
pub use packet::{PacketHead, PacketRefused, read_packet};
pub use tunnel::{GpduRefused, gpdu, read_gpdu};
