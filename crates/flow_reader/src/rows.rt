ghost use Rattle.std.specs.Prelude.{◌≡◌, ◌+◌, ◌-◌, ◌<◌, ◌≤◌, ◌^◌, ◌∷◌, drop, length, IfOk, OnOk};
ghost use Rattle.out_of_memory.specs.Answer.{Answers};
ghost use Rattle.flow_types.specs.Input.{most_octets};
ghost use Rattle.csv_rows.specs.Reading.{IsReading, rows_left};
ghost use Rattle.csv_rows.specs.Rows.{fields_of, rows};
ghost use Rattle.row_fields.specs.Refused.{named_row};
ghost use Rattle.flow_reader.specs.FirstBad.{IsOpening};
ghost use Rattle.flow_reader.specs.Fit.{IsFit};
ghost use Rattle.flow_reader.specs.Opening.{opening_from, opening_of, row_after_flows};
ghost use Rattle.flow_reader.specs.Steps.{BeginsAt, SaysShape, TakesIn};

use crate::known::KnownFlows;
use crate::opening::Opening;
use crate::row::{later_row, shape_of};
use csv_rows::{ByteRecord, RowReader};
use flow_types::{Shape, Why};
use row_fields::{RowRefused, refusal};
use std::alloc::Global;

/// Reads the rows of the bytes up to `begin`: a `cluster` row, then `flow` rows, then `begin`. What comes after `begin`
/// isn't looked at.
///
/// `Bad` is the first row that breaks a rule; where the rows end before `begin`, it is the row after the last. A row's
/// kind is looked at first, then its number of fields, then its fields from left to right, then whether an earlier flow
/// has its key. `OutOfMemory` may come at any row.
pub fn read_opening(alloc: Global, bytes: &[u8]) -> Result<Opening, RowRefused>
    requires { length bytes.now ≤ most_octets }
    ensures answers { Answers (λ opening. opening) named_row (opening_of (rows bytes.now)) result }

    // What that makes of an opening and of its rows.
    ensures opening { IfOk result (IsOpening (rows bytes.now)) }
    ensures fit { IfOk result (IsFit (rows bytes.now)) }
{
    let mut reader = RowReader::new(alloc, bytes);
    read_opening_from(alloc, &mut reader)
}

/// Reads the rows that a reader has left as `read_opening` reads those of the bytes. After `Ok` the reader has left the
/// rows after `begin`; one with which this answered an error isn't asked again.
pub fn read_opening_from(alloc: Global, reader: &mut RowReader<'_>) -> Result<Opening, RowRefused>
    requires reading { IsReading reader.old }
    requires few { length (rows_left reader.old) + 1 < 2 ^ 32 }
    ensures answers { Answers (λ opening. opening) named_row (opening_of (rows_left reader.old)) result }
    ensures reading { OnOk result (IsReading reader.new) }
    ensures left { IfOk result (λ opening. rows_left reader.new ≡ drop opening.begin_row (rows_left reader.old)) }

    // What that makes of an opening and of its rows.
    ensures opening { IfOk result (IsOpening (rows_left reader.old)) }
    ensures fit { IfOk result (IsFit (rows_left reader.old)) }
{
    let mut row = ByteRecord::new(alloc);
    let shape = read_shape(reader, &mut row)?;
    let mut known = KnownFlows::new(alloc);
    let begin_row = read_flows(reader, &mut row, shape, &mut known)?;
    Ok(Opening {
        shape,
        flows: known.into_flows(),
        begin_row,
    })
}

/// Reads the first row.
fn read_shape(reader: &mut RowReader<'_>, row: &mut ByteRecord) -> Result<Shape, RowRefused>
    requires { IsReading reader.old }
    ensures reading { OnOk result (IsReading reader.new) }
    ensures says { SaysShape (rows_left reader.old) (rows_left reader.new) result }
    ensures takes { OnOk result (rows_left reader.old ≡ fields_of row.new ∷ rows_left reader.new) }
{
    if !reader.next_row(row)? {
        return Err(refusal(1, Why::NoBegin));
    }
    match shape_of(row) {
        Ok(shape) => Ok(shape),
        Err(why) => Err(refusal(1, why)),
    }
}

/// Reads the rows after the first, and gives the number of the row `begin`.
fn read_flows(
    reader: &mut RowReader<'_>,
    row: &mut ByteRecord,
    shape: Shape,
    known: &mut KnownFlows,
) -> Result<u32, RowRefused>
    requires reading { IsReading reader.old }
    requires few { length (rows_left reader.old) + 2 < 2 ^ 32 }
    ensures begins { BeginsAt shape (opening_from shape (rows_left reader.old) known.old 2) known.new result }
    ensures reading { OnOk result (IsReading reader.new) }
    ensures left { IfOk result (λ number. rows_left reader.new ≡ drop (number - 1) (rows_left reader.old)) }
{
    let mut number = 2u32;
    'rows: while reader.next_row(row)? {
        match take_row(row, number, shape.nodes(), known) {
            Ok(true) => number += 1,
            Ok(false) => return Ok(number),
            Err(refused) => return Err(refused),
        }
    }
    Err(refusal(number, Why::NoBegin))
}

/// Adds the flow that a row after the first says, or answers false where the row is `begin`.
fn take_row(
    row: &ByteRecord,
    number: u32,
    nodes: u16,
    known: &mut KnownFlows,
) -> Result<bool, RowRefused>
    ensures { TakesIn number (row_after_flows nodes known.old (fields_of row.now)) known.old known.new result }
{
    match later_row(row, nodes) {
        Ok(None) => Ok(false),
        Ok(Some(flow)) => {
            if known.add(flow)? {
                Ok(true)
            } else {
                Err(refusal(number, Why::Duplicate))
            }
        }
        Err(why) => Err(refusal(number, why)),
    }
}
