//! The rows of a script with raw packets: those of a replay, `wire` and `tunnel`.

ghost use Rattle.std.specs.Prelude.{◌≡◌, IfOk};
ghost use Rattle.csv_rows.specs.Rows.{fields_of};
ghost use Rattle.packet_reader.specs.Wire.{hex_field, plain, tunnel_fields, wire_fields, wire_row};

use crate::event::Event;
use crate::meaning::RowMeaning;
use crate::mode::Mode;
use crate::row::script_row;
use crate::wire_event::WireEvent;
use csv_rows::{ByteRecord, field};
use flow_types::{Shape, Why};
use gtpu_path::{HexRefused, Octets, read_hex};
use out_of_memory::OutOfMemory;
use row_fields::{is_kind, node_field};
use std::alloc::Global;

/// The rows of a script with raw packets, in a cluster of this shape.
#[derive(Drop)]
pub(crate) struct WireRows {
    pub(crate) shape: Shape,
}

impl RowMeaning for WireRows {
    ghost use Rattle.packet_reader.specs.Wire.{wire_events_in};

    type Said = WireEvent;

    ghost meaning = { λ rows. wire_events_in rows.shape };

    fn say(
        &self,
        alloc: Global,
        row: &ByteRecord,
    ) -> Result<Result<Option<WireEvent>, Why>, OutOfMemory> {
        wire_row(alloc, row, self.shape)
    }

    fn is_sync(&self, event: &WireEvent) -> bool {
        match event {
            WireEvent::Plain(event) => *event == Event::Sync,
            WireEvent::Wire { .. } | WireEvent::Tunnel { .. } => false,
        }
    }

    fn has_phases(&self) -> bool {
        false
    }
}

/// What a row says by itself: an event, or by `None` that the script ends.
#[tactic(auto, unfolding(crate::specs::Wire::wire_row))]
fn wire_row(
    alloc: Global,
    row: &ByteRecord,
    shape: Shape,
) -> Result<Result<Option<WireEvent>, Why>, OutOfMemory>
    ensures { IfOk result (λ said. said ≡ wire_row shape (fields_of row.now)) }
{
    if is_kind(row, b"wire") {
        if row.len() != 3 {
            return Ok(Err(Why::Fields));
        }
        wire_fields(alloc, row, shape)
    } else if is_kind(row, b"tunnel") {
        if row.len() != 2 {
            return Ok(Err(Why::Fields));
        }
        tunnel_fields(alloc, row)
    } else {
        Ok(plain(script_row(row, shape, Mode::Replay)))
    }
}

/// What a row of a replay says here.
fn plain(said: Result<Option<Event>, Why>) -> Result<Option<WireEvent>, Why>
    ensures { result ≡ plain said }
{
    match said? {
        Some(event) => Ok(Some(WireEvent::Plain(event))),
        None => Ok(None),
    }
}

fn wire_fields(
    alloc: Global,
    row: &ByteRecord,
    shape: Shape,
) -> Result<Result<Option<WireEvent>, Why>, OutOfMemory>
    ensures { IfOk result (λ said. said ≡ wire_fields shape.nodes (fields_of row.now)) }
{
    let ingress = match node_field(field(row, 1), shape.nodes()) {
        Ok(ingress) => ingress,
        Err(why) => return Ok(Err(why)),
    };
    match hex_field(alloc, field(row, 2))? {
        Ok(octets) => Ok(Ok(Some(WireEvent::Wire { ingress, octets }))),
        Err(why) => Ok(Err(why)),
    }
}

fn tunnel_fields(
    alloc: Global,
    row: &ByteRecord,
) -> Result<Result<Option<WireEvent>, Why>, OutOfMemory>
    ensures { IfOk result (λ said. said ≡ tunnel_fields (fields_of row.now)) }
{
    match hex_field(alloc, field(row, 1))? {
        Ok(octets) => Ok(Ok(Some(WireEvent::Tunnel { octets }))),
        Err(why) => Ok(Err(why)),
    }
}

/// The octets that a field writes in hexadecimal.
fn hex_field(alloc: Global, text: &[u8]) -> Result<Result<Octets, Why>, OutOfMemory>
    ensures { IfOk result (λ said. said ≡ hex_field text.now) }
{
    match read_hex(alloc, text) {
        Ok(octets) => Ok(Ok(octets)),
        Err(HexRefused::OutOfMemory) => Err(OutOfMemory),
        Err(HexRefused::Odd | HexRefused::Digit { .. }) => Ok(Err(Why::Number)),
    }
}
