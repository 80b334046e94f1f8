ghost use Rattle.std.specs.Prelude.{◌≡◌, ◌<◌, ◌%◌, [], length, Some};
ghost use Rattle.block_layout.specs.Limits.{group_count};
ghost use Rattle.flow_types.specs.Key.{number};
ghost use Rattle.partial_fib.specs.declared.sharing.shown.Shown.{Shown};
ghost use Rattle.partial_fib.specs.Ends.{IsLater, shared_after};
ghost use Rattle.partial_fib.specs.History.{shared_fib};
ghost use Rattle.partial_fib.specs.Rule.{Sees};
ghost use Rattle.partial_fib.specs.Turns.{turn_count};

use crate::seen::FibSeen;
use crate::sharing::history::{Origin, Past};
use crate::sharing::shown::{InTurn, Looks, Seat, Shown, Sight};
use flow_types::FlowKey;
use left_right::reader::Reading;
use std::marker::Model;
use std::sync::Wait;

type Inside = Reading<Shown, Sight, InTurn>;

/// A reader of a shared FIB, for one thread at a time. A contract sees the turns that it has seen.
#[derive(Drop)]
pub struct FibReader {
    // A call has it while it reads.
    seat: Option<Seat>,
    origin: Origin,
    past: Past,
    taken: u32,
}

impl Model for FibReader {
    ghost use Rattle.std.specs.Prelude.{◌≡◌, length, Some};
    ghost use Rattle.partial_fib.specs.declared.sharing.shown.Shown.{Shown};
    ghost use Rattle.partial_fib.specs.Ends.{ReaderState, There};
    ghost use Rattle.partial_fib.specs.History.{shared_fib};

    ghost Value = { ReaderState };

    ghost view = { λ r. record { book = r.past.book; opening = shared_fib r.origin.log; turns = r.past.log } };

    ghost invariant = { λ r.
        There (λ seat. (known : Shown) × (seat.place.me.0.client ≡ Some known) × (known.origin ≡ r.origin) × (known.past ≡ r.past)) r.seat
        × (r.taken ≡ length r.past.log) };
}

/// Enters, and keeps what it has seen then. It enters until the writer lets it in.
fn entered<R: Wait>(rt: &R, seat: Seat, past: &mut Past, taken: &mut u32) -> Inside
    ensures seen { Sees seat.place.me.0.client result.part.value result.part.value result.place.me.0.client }
    ensures past { past.new ≡ result.part.value.past }
    ensures taken { taken.new ≡ result.part.value.fib.taken }
{
    let reading = inside(rt, seat);
    let shown = reading.get();
    *past = shown.past.again();
    *taken = shown.fib.taken();
    reading
}

/// Enters until the writer lets it in.
fn inside<R: Wait>(rt: &R, seat: Seat) -> Inside
    ensures { Sees seat.place.me.0.client result.part.value result.part.value result.place.me.0.client }
{
    let mut outside = seat;
    'tries: for _ in rt.forever() {
        match outside.enter_as::<Looks>() {
            Ok(reading) => return reading,
            Err(back) => outside = back,
        }
    }
    unreachable!()
}

impl FibReader {
    /// A reader that has seen no turn.
    pub(crate) fn new(seat: Seat, origin: Origin, past: Past) -> FibReader
        requires known { (known : Shown) × (seat.place.me.0.client ≡ Some known) × (known.origin ≡ origin) × (known.past ≡ past) }
        requires none { past.log ≡ [] }
        ensures { result ≡ record { book = past.book; opening = shared_fib origin.log; turns = [] } }
    {
        FibReader {
            seat: Some(seat),
            origin,
            past,
            taken: 0,
        }
    }

    /// The version of a group and the record of a key of it, after published turns: all that the reader had seen before, and
    /// perhaps more.
    ///
    /// The block belongs to the owner, and the group is below 64. It takes no memory. It waits for no other call, but enters
    /// again where the writer is just closing.
    pub fn find<R: Wait>(&mut self, rt: &R, block: u16, group: u8, key: FlowKey) -> FibSeen
        requires within { block < self.old.opening.size.blocks }
        requires owned { block % self.old.opening.size.nodes ≡ self.old.opening.owner }
        requires in_block { group < group_count }
        ensures later { IsLater self.old self.new }
        ensures count { result.version ≡ turn_count (record { block = block; group = group }) self.new.turns }
        ensures version { result.version ≡ (shared_after self.new.opening self.new.turns).versions (record { block = block; group = group }) }
        ensures answer { result.answer ≡ (shared_after self.new.opening self.new.turns).records (number key) }
    {
        let Some(seat) = self.seat.take() else {
            unreachable!()
        };
        let reading = entered(rt, seat, &mut self.past, &mut self.taken);
        let found = reading.get().fib.find(block, group, key);
        self.seat = Some(reading.leave());
        found
    }

    /// Sees all published turns that it had seen before, and perhaps more.
    pub(crate) fn look<R: Wait>(&mut self, rt: &R)
        ensures { IsLater self.old self.new }
    {
        let Some(seat) = self.seat.take() else {
            unreachable!()
        };
        let reading = entered(rt, seat, &mut self.past, &mut self.taken);
        self.seat = Some(reading.leave());
    }

    /// How many turns it has seen.
    pub(crate) fn taken(&self) -> u32
        ensures { result ≡ length self.now.turns }
    {
        self.taken
    }

    /// The turns that it has seen.
    pub(crate) fn past(&self) -> &Past
        ensures book { result.now.book ≡ self.now.book }
        ensures turns { result.now.log ≡ self.now.turns }
    {
        &self.past
    }
}
