ghost use Rattle.std.specs.Prelude.{◌≡◌, ◌≤◌, ◌↔◌, IsSome, IfSome, IsTrue, length};
ghost use Rattle.flow_types.specs.Map.{HaveDistinctKeys};
ghost use Rattle.group_search.specs.Limits.{fewest_rows, most_rows};
ghost use Rattle.group_search.specs.Rows.{AreRows, IsRising, rows_of, entry_key};

use crate::entry::Entry;
use crate::limits::{FEWEST_ROWS, MOST_ROWS};
use arrayvec::ArrayVec;
use flow_types::FlowKey;
use std::marker::Model;

/// A fallback row: a key of a group that no indexes serve, with its handler.
#[derive(Clone, Copy, Debug, PartialEq, Eq, Hash)]
pub struct Row {
    /// The key.
    pub key: FlowKey,
    /// The key's handler.
    pub node: u8,
}

/// The fallback rows of a group that no indexes serve: 2 to 64, by strictly rising key.
#[derive(Clone, Debug, PartialEq, Eq, Drop)]
pub struct Rows {
    rows: ArrayVec<Row, MOST_ROWS>,
}

impl Model for Rows {
    ghost use Rattle.std.specs.Prelude.{List};
    ghost use Rattle.group_search.specs.declared.rows.Row.{Row};
    ghost use Rattle.group_search.specs.Rows.{AreRows};

    ghost Value = { List Row };

    ghost view = { λ r. r.rows.items };

    ghost invariant = { λ r. AreRows r.rows.items };

    ghost inverse = { λ rows. record { rows = record { items = rows } } };
}

impl Rows {
    /// These rows, or `None` where they are fewer than 2 or more than 64 or their keys don't strictly rise.
    pub fn of(rows: &[Row]) -> Option<Rows>
        ensures valid { IsSome result ↔ AreRows rows.now }
        ensures value { IfSome result (λ r. r ≡ rows.now) }
    {
        if rows.len() < FEWEST_ROWS || rows.len() > MOST_ROWS || !are_rising(rows) {
            return None;
        }
        let mut kept = ArrayVec::new();
        kept.try_extend_from_slice(rows).ok()?;
        Some(Rows { rows: kept })
    }

    /// The entries' keys and nodes.
    pub(crate) fn by_key(entries: &[Entry]) -> Rows
        requires distinct { HaveDistinctKeys entry_key entries.now }
        requires enough { fewest_rows ≤ length entries.now }
        requires few { length entries.now ≤ most_rows }
        ensures { result ≡ rows_of entries.now }
    {
        let mut rows = ArrayVec::new();
        'entries: for entry in entries {
            rows.push(Row {
                key: entry.key,
                node: entry.node,
            });
        }
        rows.sort_unstable_by_key(|row| row.key.number());
        Rows { rows }
    }

    /// The rows, by rising key.
    pub fn as_slice(&self) -> &[Row]
        ensures value { result.now ≡ self.now }
        ensures valid { AreRows self.now }
    {
        self.rows.as_slice()
    }
}

impl Default for Row {
    fn default() -> Row {
        let key = FlowKey {
            source: 0,
            destination: 0,
            source_port: 0,
            destination_port: 0,
            protocol: 0,
        };
        Row { key, node: 0 }
    }
}

/// Whether each key is below the next.
fn are_rising(rows: &[Row]) -> bool
    ensures { IsTrue result ↔ IsRising rows.now }
{
    'rows: for next in 1..rows.len() {
        if rows[next - 1].key.number() >= rows[next].key.number() {
            return false;
        }
    }
    true
}
