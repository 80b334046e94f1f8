ghost use Rattle.std.specs.Prelude.{◌≡◌, ◌+◌, ◌<◌, ◌≤◌, ◌^◌, All, length, drop, IfOk};
ghost use Rattle.out_of_memory.specs.Answer.{Answers};
ghost use Rattle.flow_types.specs.Input.{most_octets};
ghost use Rattle.csv_rows.specs.Reading.{IsReading, rows_left};
ghost use Rattle.csv_rows.specs.Rows.{rows};
ghost use Rattle.row_fields.specs.Refused.{named_row};
ghost use Rattle.packet_reader.specs.Events.{events_in};
ghost use Rattle.packet_reader.specs.FirstBad.{IsScript};
ghost use Rattle.packet_reader.specs.Form.{IsFormed};
ghost use Rattle.packet_reader.specs.Meaning.{HasFewPhases};
ghost use Rattle.packet_reader.specs.Script.{events_of, script_of};
ghost use Rattle.packet_reader.specs.Wire.{wire_events_in};

use crate::event::Event;
use crate::meaning::EventRows;
use crate::mode::Mode;
use crate::reading::{read_rows, skip_rows};
use crate::wire::WireRows;
use crate::wire_event::WireEvent;
use csv_rows::RowReader;
use flow_types::Shape;
use row_fields::RowRefused;
use std::alloc::Global;

/// Reads the rows of the bytes after `begin`, which stands in the row of this number, to the end of the input: rows of
/// the kinds `set`, `del`, `packet`, `carry` and `sync`, then `end`, which is the last row.
///
/// `Bad` is the first row that breaks a rule; where the rows end before `end`, it is the row after the last. What is
/// looked at first in a row: whether it follows the `end`, its kind, whether the mode allows that, its number of fields,
/// its fields from left to right, and whether it is one `sync` too many. `OutOfMemory` may come at any row.
pub fn read_script(
    alloc: Global,
    bytes: &[u8],
    begin_row: u32,
    shape: Shape,
    mode: Mode,
) -> Result<Vec<Event>, RowRefused>
    requires limit { length bytes.now ≤ most_octets }
    requires begun { begin_row ≤ length (rows bytes.now) }
    ensures answers { Answers events_of named_row (script_of (events_in mode shape) begin_row (drop begin_row (rows bytes.now))) result }

    // What that makes of the events and of their rows.
    ensures script { IfOk result (λ events. IsScript (events_in mode shape) (drop begin_row (rows bytes.now)) events.items) }
    ensures formed { IfOk result (λ events. All (IsFormed mode shape) events.items) }
    ensures phases { IfOk result (λ events. HasFewPhases (events_in mode shape) events.items) }
{
    let mut reader = RowReader::new(alloc, bytes);
    skip_rows(alloc, &mut reader, begin_row)?;
    read_script_from(alloc, &mut reader, begin_row, shape, mode)
}

/// Reads the rows that a reader has left as `read_script` reads those after `begin`, which stands in the row of this
/// number and is the last that was taken from the reader. A reader with which it answered an error isn't asked again.
pub fn read_script_from(
    alloc: Global,
    reader: &mut RowReader<'_>,
    begin_row: u32,
    shape: Shape,
    mode: Mode,
) -> Result<Vec<Event>, RowRefused>
    requires reading { IsReading reader.old }
    requires few { begin_row + length (rows_left reader.old) + 1 < 2 ^ 32 }
    ensures answers { Answers events_of named_row (script_of (events_in mode shape) begin_row (rows_left reader.old)) result }

    // What that makes of the events and of their rows.
    ensures script { IfOk result (λ events. IsScript (events_in mode shape) (rows_left reader.old) events.items) }
    ensures formed { IfOk result (λ events. All (IsFormed mode shape) events.items) }
    ensures phases { IfOk result (λ events. HasFewPhases (events_in mode shape) events.items) }
{
    read_rows(alloc, reader, begin_row, &EventRows { shape, mode })
}

/// Reads the rows of the bytes after `begin` as `read_script` reads those of a replay, and rows of the kinds `wire`, with an
/// ingress and a packet, and `tunnel`, with a G-PDU. Octets are written in hexadecimal; a text that writes none is refused as
/// `Number`.
pub fn read_wire(
    alloc: Global,
    bytes: &[u8],
    begin_row: u32,
    shape: Shape,
) -> Result<Vec<WireEvent>, RowRefused>
    requires limit { length bytes.now ≤ most_octets }
    requires begun { begin_row ≤ length (rows bytes.now) }
    ensures answers { Answers events_of named_row (script_of (wire_events_in shape) begin_row (drop begin_row (rows bytes.now))) result }
    ensures script { IfOk result (λ events. IsScript (wire_events_in shape) (drop begin_row (rows bytes.now)) events.items) }
{
    let mut reader = RowReader::new(alloc, bytes);
    skip_rows(alloc, &mut reader, begin_row)?;
    read_rows(alloc, &mut reader, begin_row, &WireRows { shape })
}
