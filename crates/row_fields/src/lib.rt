//! What the fields of a row of input say: numbers, addresses, nodes, keys and flows, or why they say none; and why rows are
//! refused.
//!
//! The readers of rows stand on it, those up to `begin` and those after it. A contract sees what fields say as a function
//! of the row (`specs/Fields.antt`), and a refusal as the bad row that it names (`specs/Refused.antt`).
//! Proved: each call answers that. What is read is in its range (`specs/Ranges.antt`).
#![tactic(auto)]

mod fields;
mod law;
mod refused;

pub use fields::{address_field, flow_of, is_kind, key_at, node_field, number_field};
pub use law::readings_are_in_range;
pub use refused::{RowRefused, refusal};

#[cfg(test)]
mod tests;
