use csv_rows::{ByteRecord, RowReader};
use out_of_memory::OutOfMemory;
use std::alloc::Global;
use std::io;
use std::io::Read;

/// Reads standard input to its end and prints how many rows it has.
pub fn count(rt: &(impl Input + Print + AllocGlobal)) -> io::Result<()> {
    let mut bytes = Vec::new(rt.alloc());
    rt.reader().read_to_end(&mut bytes)?;
    match rows(rt.alloc(), bytes.as_slice()) {
        Ok(rows) => println!(rt; "{rows}"),
        Err(error) => println!(rt; "{error}"),
    }
}

fn rows(alloc: Global, bytes: &[u8]) -> Result<u64, OutOfMemory> {
    let mut reader = RowReader::new(alloc, bytes);
    let mut row = ByteRecord::new(alloc);
    let mut rows = 0u64;
    'rows: for _ in 0..bytes.len() {
        if !reader.next_row(&mut row)? {
            break 'rows;
        }
        rows = rows.wrapping_add(1);
    }
    Ok(rows)
}
