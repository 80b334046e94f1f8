ghost use Rattle.std.specs.Prelude.{◌≡◌, ◌<◌, ◌≤◌, IfOk};
ghost use Rattle.csv_rows.specs.Rows.{fields_of};
ghost use Rattle.row_fields.specs.Fields.{address_field, flow_of, is_kind, key_at, node_field, number_field};

use csv_rows::{ByteRecord, field};
use flow_types::{Flow, FlowKey, Record, Why, read_address, read_number};

/// Whether a row is of this kind: its first field is the kind's name.
pub fn is_kind(row: &ByteRecord, kind: &[u8]) -> bool
    ensures { result ≡ is_kind kind.now (fields_of row.now) }
{
    field(row, 0) == kind
}

/// The number of at most `max` that a field writes in decimal digits, without a sign or a leading zero.
pub fn number_field(text: &[u8], max: u64) -> Result<u64, Why>
    ensures value { result ≡ number_field max text.now }
    ensures most { IfOk result (λ number. number ≤ max) }
{
    read_number(text, max).ok_or(Why::Number)
}

/// The address that a field writes in dotted form, its first octet as the greatest.
pub fn address_field(text: &[u8]) -> Result<u32, Why>
    ensures value { result ≡ address_field text.now }
{
    read_address(text).ok_or(Why::Address)
}

/// The node that a field writes, one of `nodes`. A field that is no number up to 255 is refused as `Number`, and a
/// greater node as `Node`.
pub fn node_field(text: &[u8], nodes: u16) -> Result<u8, Why>
    ensures value { result ≡ node_field nodes text.now }
    ensures below { IfOk result (λ node. node < nodes) }
{
    let node = number_field(text, 255)?;
    if node < u64::from(nodes) {
        Ok(node as u8)
    } else {
        Err(Why::Node)
    }
}

/// The key that five fields of a row write, from the one of the number `first` on.
#[tactic(auto, unfolding(crate::specs::Fields::key_at))]
pub fn key_at(row: &ByteRecord, first: u8) -> Result<FlowKey, Why>
    ensures { result ≡ key_at first (fields_of row.now) }
{
    let first = usize::from(first);
    let source = address_field(field(row, first))?;
    let destination = address_field(field(row, first + 1))?;
    let source_port = port_field(field(row, first + 2))?;
    let destination_port = port_field(field(row, first + 3))?;
    let protocol = number_field(field(row, first + 4), 255)?;
    Ok(FlowKey {
        source,
        destination,
        source_port,
        destination_port,
        protocol: protocol as u8,
    })
}

fn port_field(text: &[u8]) -> Result<u16, Why>
    ensures { result ≡ number_field 65535 text.now }
{
    let port = number_field(text, 65535)?;
    Ok(port as u16)
}

/// The flow that a `flow` or `set` row of nine fields writes, at one of `nodes` nodes.
#[tactic(auto, unfolding(crate::specs::Fields::flow_of))]
pub fn flow_of(row: &ByteRecord, nodes: u16) -> Result<Flow, Why>
    ensures value { result ≡ flow_of nodes (fields_of row.now) }
    ensures below { IfOk result (λ flow. flow.node < nodes) }
{
    let key = key_at(row, 1)?;
    let node = node_field(field(row, 6), nodes)?;
    let teid = number_field(field(row, 7), 4294967295)?;
    let base = address_field(field(row, 8))?;
    Ok(Flow {
        key,
        node,
        info: Record {
            teid: teid as u32,
            base,
        },
    })
}
