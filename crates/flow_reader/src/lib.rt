//! The rows of input up to `begin`: the shape of a cluster, and its flows. Or flows from anywhere, as a `FlowMap`.
//!
//! A contract sees what the rows up to `begin` say as a function of the rows of the bytes (`specs/Opening.antt`): an
//! opening, or the first bad row and why it is bad. What their fields say is in the crate `row_fields`.
//! `specs/FirstBad.antt` says the same row by row, as a law of that function.
//! Proved: `read_opening` and `read_opening_from` answer that, `FlowMap::of` takes exactly the lists with distinct keys and
//! nodes of the cluster, or names the first fault (`specs/FlowMap.antt`); or want of memory. Only tested: that memory
//! suffices.
#![tactic(auto)]

mod flow_map;
mod known;
mod law;
mod opening;
mod refused;
mod row;
mod rows;

pub use flow_map::FlowMap;
pub use law::{first_bad_row_law, openings_fit, the_limits_are};
pub use opening::{Flows, MOST_OCTETS, Opening};
pub use refused::FlowsRefused;
pub use row_fields::RowRefused;
pub use rows::{read_opening, read_opening_from};

#[cfg(test)]
mod tests;
