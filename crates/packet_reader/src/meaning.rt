ghost use Rattle.std.specs.Prelude.{◌≡◌, IfOk};
ghost use Rattle.csv_rows.specs.Rows.{fields_of};
ghost use Rattle.packet_reader.specs.Meaning.{Meaning};

use crate::event::Event;
use crate::mode::Mode;
use crate::row::script_row;
use csv_rows::ByteRecord;
use flow_types::{Shape, Why};
use out_of_memory::OutOfMemory;
use std::alloc::Global;

/// What the rows of a script mean.
pub(crate) trait RowMeaning {
    /// What a row says.
    type Said: Drop;

    ghost meaning: { Self → Meaning Self.Said };

    /// What a row says by itself: an event, or by `None` that the script ends.
    fn say(
        &self,
        alloc: Global,
        row: &ByteRecord,
    ) -> Result<Result<Option<Self::Said>, Why>, OutOfMemory>
        ensures { IfOk result (λ said. said ≡ (meaning self.now).says (fields_of row.now)) };

    /// Whether an event is a `sync`.
    fn is_sync(&self, event: &Self::Said) -> bool
        ensures { result ≡ (meaning self.now).is_sync event.now };

    /// Whether `sync`s part the script into phases.
    fn has_phases(&self) -> bool
        ensures { result ≡ (meaning self.now).in_phases };
}

/// The rows of a script of this mode, in a cluster of this shape.
#[derive(Drop)]
pub(crate) struct EventRows {
    pub(crate) shape: Shape,
    pub(crate) mode: Mode,
}

impl RowMeaning for EventRows {
    ghost use Rattle.packet_reader.specs.Events.{events_in};

    type Said = Event;

    ghost meaning = { λ rows. events_in rows.mode rows.shape };

    fn say(
        &self,
        _alloc: Global,
        row: &ByteRecord,
    ) -> Result<Result<Option<Event>, Why>, OutOfMemory> {
        Ok(script_row(row, self.shape, self.mode))
    }

    fn is_sync(&self, event: &Event) -> bool {
        *event == Event::Sync
    }

    fn has_phases(&self) -> bool {
        self.mode == Mode::Storm
    }
}
