//! The parts of the body of a table message: pairs, and rows after their number.

ghost use Rattle.std.specs.Prelude.{◌≡◌, ◌+◌, ◌*◌, ◌≤◌, [], ◌∷◌, All, IfOk, None, length, option_map};
ghost use Rattle.std.specs.List.{flat_map};
ghost use Rattle.std.specs.Result.{result_err};
ghost use Rattle.flow_types.specs.Key.{number};
ghost use Rattle.flow_types.specs.Size.{value_bits};
ghost use Rattle.group_search.specs.Limits.{fewest_rows, most_rows};
ghost use Rattle.group_search.specs.Words.{IsPair};
ghost use Rattle.flow_types.specs.Key.{IsKeyValue};
ghost use Rattle.delta_codec.specs.Fits.{RowsFit};
ghost use Rattle.delta_codec.specs.Spelling.{Stand, pair_octets, row_octets};
ghost use Rattle.delta_codec.specs.Fields.{count_field, field_fault, first_fault, key_number_at, byte_at, pair_fields, row_fields};
ghost use Rattle.delta_codec.specs.Fields as fields;

use crate::reading::{take_key, take_octet, take_two};
use crate::refused::{BadField, DecodeRefused};
use arrayvec::ArrayVec;
use flow_types::{FlowKey, Shape};
use group_search::{FEWEST_ROWS, MOST_BITS, MOST_ROWS, Pair, Row, Rows, Served};

/// A pair for each value bit of the shape.
pub(crate) fn read_pairs(
    shape: Shape,
    bytes: &[u8],
    at: usize,
) -> Result<(Served, usize), DecodeRefused>
    requires { at ≤ length bytes.now }
    ensures stands { IfOk result (λ read. Stand bytes.now at (flat_map pair_octets read.0)) }
    ensures end { IfOk result (λ read. read.1 ≡ at + 3 * length read.0) }
    ensures one_each { IfOk result (λ read. length read.0 ≡ value_bits shape.nodes) }
    ensures sized { IfOk result (λ read. All IsPair read.0) }
    ensures fault { result_err result ≡ first_fault bytes.now (pair_fields (value_bits shape.nodes) at) }
{
    let bits = shape.value_bits();
    let mut pairs = [Pair::default(); MOST_BITS];
    let mut place = at;
    'pairs: for bit in 0..usize::from(bits) {
        pairs[bit] = read_pair(bytes, place)?;
        place += 3;
    }
    Ok((Served { bits, pairs }, place))
}

fn read_pair(bytes: &[u8], at: usize) -> Result<Pair, DecodeRefused>
    requires { at ≤ length bytes.now }
    ensures stands { IfOk result (λ pair. Stand bytes.now at (pair_octets pair)) }
    ensures sized { IfOk result IsPair }
    ensures fault { result_err result ≡ first_fault bytes.now (pair_fields 1 at) }
{
    let index = take_two(bytes, at)?;
    let array = take_octet(bytes, at + 2)?;
    Ok(Pair { index, array })
}

/// The number of rows.
pub(crate) fn read_count(bytes: &[u8], at: usize) -> Result<u8, DecodeRefused>
    requires { at ≤ length bytes.now }
    ensures value { IfOk result (λ count. count ≡ byte_at bytes.now at) }
    ensures stands { IfOk result (λ count. Stand bytes.now at (count ∷ [])) }
    ensures enough { IfOk result (λ count. fewest_rows ≤ count) }
    ensures few { IfOk result (λ count. count ≤ most_rows) }
    ensures fault { result_err result ≡ field_fault bytes.now (count_field bytes.now at) }
{
    let count = take_octet(bytes, at)?;
    if usize::from(count) < FEWEST_ROWS || usize::from(count) > MOST_ROWS {
        return Err(DecodeRefused::Bad {
            at,
            why: BadField::Count,
        });
    }
    Ok(count)
}

/// So many rows, and the place after them.
pub(crate) fn read_rows(
    shape: Shape,
    count: u8,
    bytes: &[u8],
    at: usize,
) -> Result<(Rows, usize), DecodeRefused>
    requires there { at ≤ length bytes.now }
    requires enough { fewest_rows ≤ count }
    requires few { count ≤ most_rows }
    ensures stands { IfOk result (λ read. Stand bytes.now at (flat_map row_octets read.0)) }
    ensures end { IfOk result (λ read. read.1 ≡ at + 14 * length read.0) }
    ensures counted { IfOk result (λ read. length read.0 ≡ count) }
    ensures fits { IfOk result (λ read. RowsFit shape.nodes read.0) }
    ensures sized { IfOk result (λ read. All (λ row. IsKeyValue row.key) read.0) }
    ensures fault { result_err result ≡ first_fault bytes.now (row_fields shape.nodes bytes.now count None at) }
{
    let (rows, end) = gather_rows(shape, count, bytes, at)?;
    match Rows::of(rows.as_slice()) {
        Some(rows) => Ok((rows, end)),
        None => unreachable!(),
    }
}

/// So many rows in their order, and the place after them.
fn gather_rows(
    shape: Shape,
    count: u8,
    bytes: &[u8],
    at: usize,
) -> Result<(ArrayVec<Row, MOST_ROWS>, usize), DecodeRefused>
    requires there { at ≤ length bytes.now }
    requires few { count ≤ most_rows }
    ensures stands { IfOk result (λ read. Stand bytes.now at (flat_map row_octets read.0.items)) }
    ensures end { IfOk result (λ read. read.1 ≡ at + 14 * length read.0.items) }
    ensures counted { IfOk result (λ read. length read.0.items ≡ count) }
    ensures sized { IfOk result (λ read. All (λ row. IsKeyValue row.key) read.0.items) }
    ensures fault { result_err result ≡ first_fault bytes.now (row_fields shape.nodes bytes.now count None at) }
{
    let mut rows = ArrayVec::new();
    let mut before = None;
    let mut place = at;
    'rows: for _ in 0..count {
        let row = read_row(shape, before, bytes, place)?;
        rows.push(row);
        before = Some(row.key);
        place += 14;
    }
    Ok((rows, place))
}

/// A row after the row with the key `before`, if there is one.
fn read_row(
    shape: Shape,
    before: Option<FlowKey>,
    bytes: &[u8],
    at: usize,
) -> Result<Row, DecodeRefused>
    requires { at ≤ length bytes.now }
    ensures value { IfOk result (λ row. number row.key ≡ key_number_at bytes.now at) }
    ensures stands { IfOk result (λ row. Stand bytes.now at (row_octets row)) }
    ensures sized { IfOk result (λ row. IsKeyValue row.key) }
    ensures fault { result_err result ≡ first_fault bytes.now (row_fields shape.nodes bytes.now 1 (option_map number before) at) }
{
    let key = take_key(bytes, at)?;
    if !is_above(before, key) {
        return Err(DecodeRefused::Bad {
            at,
            why: BadField::Order,
        });
    }
    let node = take_octet(bytes, at + 13)?;
    if u16::from(node) >= shape.nodes() {
        return Err(DecodeRefused::Bad {
            at: at + 13,
            why: BadField::Node,
        });
    }
    Ok(Row { key, node })
}

/// Whether the key is greater than the one before, if there is one.
fn is_above(before: Option<FlowKey>, key: FlowKey) -> bool
    ensures { result ≡ fields.is_above (option_map number before) (number key) }
{
    match before {
        Some(before) => before.number() < key.number(),
        None => true,
    }
}
