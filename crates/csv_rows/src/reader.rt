ghost use Rattle.std.specs.Prelude.{◌≡◌, ◌≤◌, IsTrue, length, OnOk, IfOk};
ghost use Rattle.csv.specs.Reading.{error_kind, stops_reader};
ghost use Rattle.csv_rows.specs.Rows.{TakesRow, field_at, fields_of, rows};
ghost use Rattle.csv_rows.specs.Reading.{IsReading, rows_left};

use csv::{ByteRecord, Error, Reader, ReaderBuilder};
use out_of_memory::OutOfMemory;
use std::alloc::Global;

/// Reads the rows of a slice of bytes, one after the other.
///
/// A reader that answered an error isn't asked again.
#[derive(Drop)]
pub struct RowReader<'a> {
    reader: Reader<&'a [u8]>,
}

impl<'a> RowReader<'a> {
    /// A reader of all rows of the bytes.
    pub fn new(alloc: Global, bytes: &'a [u8]) -> RowReader<'a>
        ensures reading { IsReading result }
        ensures all { rows_left result ≡ rows bytes.now }

        // Each row has at least one byte.
        ensures few { length (rows bytes.now) ≤ length bytes.now }
    {
        let reader = ReaderBuilder::new()
            .has_headers(false)
            .flexible(true)
            .from_reader(alloc, bytes);
        RowReader { reader }
    }

    /// Puts the next row's fields into `row`, and says whether there was a row. It takes memory only where a row is
    /// longer than those that `row` has held.
    pub fn next_row(&mut self, row: &mut ByteRecord) -> Result<bool, OutOfMemory>
        requires { IsReading self.old }
        ensures reading { OnOk result (IsReading self.new) }
        ensures takes { IfOk result (λ found. TakesRow found (rows_left self.old) (fields_of row.new) (rows_left self.new)) }
    {
        match self.reader.read_byte_record(row) {
            Ok(found) => Ok(found),
            Err(error) => Err(want_of_memory(error)),
        }
    }
}

// Over memory, and with rows of any length, the crate `csv` refuses no bytes: what is left is want of memory.
fn want_of_memory(error: Error) -> OutOfMemory
    requires { IsTrue (stops_reader (error_kind error)) }
{
    drop(error);
    OutOfMemory
}

/// The field of this number of a row, counted from 0. Past the row's last field it is empty.
pub fn field(row: &ByteRecord, number: usize) -> &[u8]
    ensures { result.now ≡ field_at (fields_of row.now) number }
{
    match row.get(number) {
        Some(field) => field,
        None => &[],
    }
}
