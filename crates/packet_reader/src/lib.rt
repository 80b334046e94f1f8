//! The rows of input after `begin`: a script of events, in the two modes of a run, or with raw packets among them.
//!
//! A contract sees what the rows after `begin` say as a function of them (`specs/Script.antt`): the events, or the first
//! bad row and why it is bad. What a row means by itself is an argument of it (`specs/Meaning.antt`): in a replay and a
//! storm that of `specs/Events.antt`, over the kinds of rows (`specs/Kind.antt`), what the modes allow (`specs/Mode.antt`)
//! and what the fields say (`specs/Fields.antt`), and with raw packets that of `specs/Wire.antt`. `specs/FirstBad.antt`
//! says the same row by row, as a law of that function, and `specs/Form.antt` which form the events have.
//! Proved: `read_script`, `read_script_from` and `read_wire` answer that, or want of memory. Only tested: that memory
//! suffices.
#![tactic(auto)]

mod event;
mod kind;
mod law;
mod meaning;
mod mode;
mod reading;
mod row;
mod rows;
mod wire;
mod wire_event;

pub use event::{Event, Part};
pub use law::{first_bad_row_law, first_bad_wire_row_law, scripts_are_formed};
pub use mode::Mode;
pub use rows::{read_script, read_script_from, read_wire};
pub use wire_event::WireEvent;

#[cfg(test)]
mod tests;
