ghost use Rattle.usage_meter.specs.Seating.{IsMeterSeat};

use crate::plays::TableSeat;

/// A right to add octets up to a ration, and to read totals. It has no bytes.
///
/// A contract sees its ration, its adds and its readings. One that is dropped takes its ration along, and from then on
/// no seat is whole.
#[derive(Drop)]
pub struct MeterSeat {
    pub(crate) inner: TableSeat,
    ghost live: { IsMeterSeat inner },
}
