ghost use Rattle.std.specs.Prelude.{◌≡◌};
ghost use Rattle.csv_rows.specs.Rows.{fields_of};
ghost use Rattle.flow_reader.specs.Opening.{later_row, shape_of};

use csv_rows::{ByteRecord, field};
use flow_types::{Flow, Shape, Why};
use row_fields::{flow_of, is_kind, number_field};

/// The shape that the first row says.
#[tactic(auto, unfolding(crate::specs::Opening::shape_of))]
pub(crate) fn shape_of(row: &ByteRecord) -> Result<Shape, Why>
    ensures { result ≡ shape_of (fields_of row.now) }
{
    if !is_kind(row, b"cluster") {
        return Err(Why::Kind);
    }
    if row.len() != 3 {
        return Err(Why::Fields);
    }
    let nodes = number_field(field(row, 1), 65535)?;
    let blocks = number_field(field(row, 2), 65535)?;
    Shape::new(nodes as u16, blocks as u16).ok_or(Why::Number)
}

/// What a row after the first says by itself: a flow, or by `None` that the flows end.
#[tactic(auto, unfolding(crate::specs::Opening::later_row))]
pub(crate) fn later_row(row: &ByteRecord, nodes: u16) -> Result<Option<Flow>, Why>
    ensures { result ≡ later_row nodes (fields_of row.now) }
{
    if is_kind(row, b"flow") {
        if row.len() != 9 {
            return Err(Why::Fields);
        }
        let flow = flow_of(row, nodes)?;
        return Ok(Some(flow));
    }
    if !is_kind(row, b"begin") {
        return Err(Why::Kind);
    }
    if row.len() != 1 {
        return Err(Why::Fields);
    }
    Ok(None)
}
