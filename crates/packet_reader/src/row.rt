ghost use Rattle.std.specs.Prelude.{◌≡◌};
ghost use Rattle.csv_rows.specs.Rows.{fields_of};
ghost use Rattle.packet_reader.specs.Events.{script_row};
ghost use Rattle.packet_reader.specs.Fields.{carry_fields, del_fields, fields_say, packet_fields, part_field, set_fields, turn_field};

use crate::event::{Event, Part};
use crate::kind::Kind;
use crate::mode::Mode;
use csv_rows::{ByteRecord, field};
use flow_types::{MOST_TURNS, Shape, Why};
use row_fields::{flow_of, key_at, node_field, number_field};

/// What a row says by itself: an event, or by `None` that the script ends.
#[tactic(auto, unfolding(crate::specs::Events::script_row))]
pub(crate) fn script_row(row: &ByteRecord, shape: Shape, mode: Mode) -> Result<Option<Event>, Why>
    ensures { result ≡ script_row mode shape (fields_of row.now) }
{
    let kind = Kind::of(row)?;
    if !mode.allows(kind) {
        return Err(Why::CarryInStorm);
    }
    if row.len() != kind.width() {
        return Err(Why::Fields);
    }
    fields_say(row, kind, shape)
}

/// What the fields of a row of this kind say.
fn fields_say(row: &ByteRecord, kind: Kind, shape: Shape) -> Result<Option<Event>, Why>
    ensures { result ≡ fields_say kind shape.nodes (fields_of row.now) }
{
    let event = match kind {
        Kind::Set => set_fields(row, shape)?,
        Kind::Del => del_fields(row)?,
        Kind::Packet => packet_fields(row, shape)?,
        Kind::Carry => carry_fields(row, shape)?,
        Kind::Sync => Event::Sync,
        Kind::End => return Ok(None),
    };
    Ok(Some(event))
}

fn set_fields(row: &ByteRecord, shape: Shape) -> Result<Event, Why>
    ensures { result ≡ set_fields shape.nodes (fields_of row.now) }
{
    let flow = flow_of(row, shape.nodes())?;
    Ok(Event::Set(flow))
}

fn del_fields(row: &ByteRecord) -> Result<Event, Why>
    ensures { result ≡ del_fields (fields_of row.now) }
{
    let key = key_at(row, 1)?;
    Ok(Event::Del(key))
}

fn packet_fields(row: &ByteRecord, shape: Shape) -> Result<Event, Why>
    ensures { result ≡ packet_fields shape.nodes (fields_of row.now) }
{
    let ingress = node_field(field(row, 1), shape.nodes())?;
    let key = key_at(row, 2)?;
    Ok(Event::Packet { ingress, key })
}

fn carry_fields(row: &ByteRecord, shape: Shape) -> Result<Event, Why>
    ensures { result ≡ carry_fields shape.nodes (fields_of row.now) }
{
    let node = node_field(field(row, 1), shape.nodes())?;
    let owner = node_field(field(row, 2), shape.nodes())?;
    let turn = turn_field(field(row, 3))?;
    let part = part_field(field(row, 4))?;
    Ok(Event::Carry {
        node,
        owner,
        turn,
        part,
    })
}

fn turn_field(text: &[u8]) -> Result<u32, Why>
    ensures { result ≡ turn_field text.now }
{
    let turn = number_field(text, u64::from(MOST_TURNS))?;
    if turn == 0 {
        return Err(Why::Number);
    }
    Ok(turn as u32)
}

fn part_field(text: &[u8]) -> Result<Part, Why>
    ensures { result ≡ part_field text.now }
{
    if text == b"table".as_slice() {
        Ok(Part::Table)
    } else if text == b"fib".as_slice() {
        Ok(Part::Fib)
    } else {
        Err(Why::Kind)
    }
}
