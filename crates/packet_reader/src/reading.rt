//! How the rows of a script are read, whatever they mean.

ghost use Rattle.std.specs.Prelude.{◌≡◌, ◌+◌, ◌++◌, ◌<◌, ◌≤◌, ◌^◌, List, length, drop, IfOk, OnOk, option_to_list};
ghost use Rattle.out_of_memory.specs.Answer.{Answers};
ghost use Rattle.csv_rows.specs.Reading.{IsReading, rows_left};
ghost use Rattle.csv_rows.specs.Rows.{fields_of};
ghost use Rattle.row_fields.specs.Refused.{named_row};
ghost use Rattle.packet_reader.specs.FirstBad.{IsScript};
ghost use Rattle.packet_reader.specs.Meaning.{syncs_of};
ghost use Rattle.packet_reader.specs.Script.{events_of, row_after, script_of};

use crate::meaning::RowMeaning;
use csv_rows::{ByteRecord, RowReader};
use flow_types::Why;
use out_of_memory::OutOfMemory;
use row_fields::{RowRefused, refusal};
use std::alloc::Global;

/// How many phases a script may have.
const MOST_PHASES: usize = 256;

/// Reads the rows that a reader has left: those of events, then `end`, which is the last. The row of this number is the last
/// that was taken from the reader.
#[tactic(auto, using(crate::proofs::Scripts::script_begins))]
pub(crate) fn read_rows<M: RowMeaning>(
    alloc: Global,
    reader: &mut RowReader<'_>,
    begin_row: u32,
    meaning: &M,
) -> Result<Vec<M::Said>, RowRefused>
    requires reading { IsReading reader.old }
    requires few { begin_row + length (rows_left reader.old) + 1 < 2 ^ 32 }
    ensures answers { Answers events_of named_row (script_of (M.meaning meaning.now) begin_row (rows_left reader.old)) result }
    ensures script { IfOk result (λ events. IsScript (M.meaning meaning.now) (rows_left reader.old) events.items) }
{
    let mut events = Vec::new(alloc);
    let mut syncs = 0;
    let mut ended = false;
    let mut row = ByteRecord::new(alloc);
    let mut number = begin_row + 1;
    'rows: while reader.next_row(&mut row)? {
        match row_after(alloc, meaning, ended, syncs, &row)? {
            Ok(said) => {
                ended = said.is_none();
                syncs = add(meaning, &mut events, syncs, said)?;
            }
            Err(why) => return Err(refusal(number, why)),
        }
        number += 1;
    }
    if ended {
        Ok(events)
    } else {
        Err(refusal(number, Why::NoEnd))
    }
}

/// What a row says after events of which so many are `sync`, and after `end`, where that came.
fn row_after<M: RowMeaning>(
    alloc: Global,
    meaning: &M,
    ended: bool,
    syncs: usize,
    row: &ByteRecord,
) -> Result<Result<Option<M::Said>, Why>, OutOfMemory>
    requires { syncs < 2 ^ 32 }
    ensures { (events : List M.Said) → syncs ≡ syncs_of (M.meaning meaning.now) events →
        IfOk result (λ said. said ≡ row_after (M.meaning meaning.now) record { events = events; ended = ended } (fields_of row.now)) }
{
    if ended {
        return Ok(Err(Why::AfterEnd));
    }
    let said = meaning.say(alloc, row)?;
    if let Ok(Some(event)) = &said {
        if meaning.has_phases() && meaning.is_sync(event) && syncs + 1 >= MOST_PHASES {
            return Ok(Err(Why::TooManyPhases));
        }
    }
    Ok(said)
}

/// Adds what a row says to events of which so many are `sync`, and tells how many then are.
fn add<M: RowMeaning>(
    meaning: &M,
    events: &mut Vec<M::Said>,
    syncs: usize,
    said: Option<M::Said>,
) -> Result<usize, OutOfMemory>
    requires few { syncs < 2 ^ 32 }
    requires counted { syncs ≡ syncs_of (M.meaning meaning.now) events.old.items }
    ensures added { OnOk result (events.new.items ≡ events.old.items ++ option_to_list said) }
    ensures counted { IfOk result (λ syncs. syncs ≡ syncs_of (M.meaning meaning.now) events.new.items) }
    ensures one_more { IfOk result (λ more. more ≤ syncs + 1) }
{
    let Some(event) = said else { return Ok(syncs) };
    let one_more = usize::from(meaning.is_sync(&event));
    match events.push(event) {
        Ok(()) => Ok(syncs + one_more),
        Err(_) => Err(OutOfMemory),
    }
}

/// Takes the next `count` rows from the reader.
#[tactic(auto, using(crate::proofs::Scripts::row_skipped))]
pub(crate) fn skip_rows(
    alloc: Global,
    reader: &mut RowReader<'_>,
    count: u32,
) -> Result<(), OutOfMemory>
    requires reading { IsReading reader.old }
    requires enough { count ≤ length (rows_left reader.old) }
    ensures reading { OnOk result (IsReading reader.new) }
    ensures skipped { OnOk result (rows_left reader.new ≡ drop count (rows_left reader.old)) }
{
    let mut row = ByteRecord::new(alloc);
    'skipped: for _taken in 0..count {
        reader.next_row(&mut row)?;
    }
    Ok(())
}
