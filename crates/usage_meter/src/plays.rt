//! What each step on a meter tells, and the rule that it keeps.
ghost use Rattle.std.specs.Prelude.{ℕ};
ghost use Rattle.usage_meter.specs.Plays.{Adds, Loads, gathered, given_by, kept_by};
ghost use Rattle.usage_meter.specs.declared.view.View.TheVariants.{Spent};

use crate::view::{Opening, View};
use atomic_table::{Join, Play, Seat, Shared, Split, Table, TableRule};
use std::alloc::Global;
use std::marker::{Brand, PhantomData};

/// A table's key is what the meter was opened with.
pub struct Law;

impl TableRule<u64, View, Opening> for Law {
    ghost use Rattle.usage_meter.specs.Rule.{Kept};
    ghost use Rattle.usage_meter.specs.Plays.{first_view};

    ghost holds = { Kept };

    ghost first = { first_view };
}

/// The table of a meter: a word for each node.
pub type Words = Table<u64, View, Opening, Law, Global>;

/// That table as its seats see it, with what the meter was opened with.
pub type Shelf = Shared<u64, View, Opening, Law>;

/// A seat at that table.
pub type TableSeat = Seat<u64, View>;

/// A fetch-and-add of octets to a node's total.
pub struct AddOctets;

impl Play<u64, View> for AddOctets {
    ghost then = { Adds };
}

/// A load of a node's total.
pub struct LoadTotal;

impl Play<u64, View> for LoadTotal {
    ghost then = { Loads };
}

/// The ration that a new seat gets. Each call picks it.
pub trait Naming {
    ghost ration: { ℕ };
}

impl Naming for Brand {
    ghost ration = { 0 };
}

/// The new seat gets the part of the ration that `N` names.
pub struct Share<N> {
    ration: PhantomData<N>,
}

impl<N: Naming> Split<View> for Share<N> {
    ghost left = { kept_by N.ration };

    ghost right = { given_by N.ration };
}

/// A seat's ration and its adds go to another.
pub struct Gather;

impl Join<View> for Gather {
    ghost both = { gathered };

    ghost spent = { Spent };
}
