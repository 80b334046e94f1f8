//! What each step on the table tells, and the rule that it keeps.
ghost use Rattle.group_search.specs.declared.record.GroupRecord.{GroupRecord};
ghost use Rattle.group_search.specs.declared.record.GroupRecord.TheVariants.{Served};
ghost use Rattle.std.specs.Prelude.{[]};
ghost use Rattle.group_cell.specs.Plays.{kept_by, given_by, met_by, Asks, Begins, Stores, Ends, StartsLook, Loads, EndsLook};
ghost use Rattle.group_cell.specs.declared.view.View.TheVariants.{Spent};

use crate::view::{Opening, View};
use atomic_table::{Join, Play, Seat, Shared, Split, Table, TableRule};
use std::alloc::Global;
use std::marker::{Brand, PhantomData};
use std::snapshot::Snapshot;

/// A table's key is what it was opened with.
pub struct Law;

impl TableRule<u64, View, Snapshot<Opening>> for Law {
    ghost use Rattle.group_cell.specs.Rule.{Kept};
    ghost use Rattle.group_cell.specs.Plays.{first_view};

    ghost holds = { λ key. Kept key.value };

    ghost first = { λ key. first_view key.value };
}

/// The table of a `CellTable`: words of 64 bits, each with an atomic of its own.
pub type Cells = Table<u64, View, Snapshot<Opening>, Law, Global>;

/// That table as its seats see it, with what it was opened with.
pub type Shelf = Shared<u64, View, Snapshot<Opening>, Law>;

/// A seat at that table: the one writer's, or a reader's.
pub type CellSeat = Seat<u64, View>;

/// The writer loads a word, and learns that it is what its seat says.
pub struct Ask;

impl Play<u64, View> for Ask {
    ghost then = { Asks };
}

/// The writer stores an odd sequence word: from here to the end the group's data may be torn.
pub struct Begin;

impl Play<u64, View> for Begin {
    ghost then = { Begins };
}

/// The writer stores a word of data, a row or a tag.
pub struct Store;

impl Play<u64, View> for Store {
    ghost then = { Stores };
}

/// The record that a call publishes. Each call picks it.
pub trait Naming {
    ghost content: { GroupRecord };
}

impl Naming for Brand {
    ghost content = { Served [] };
}

/// The writer stores the next even sequence word: the record that `C` names is published.
pub struct End<C> {
    content: PhantomData<C>,
}

impl<C: Naming> Play<u64, View> for End<C> {
    ghost then = { Ends C.content };
}

/// A reader loads a sequence word, and sees all that is published by then.
pub struct StartLook;

impl Play<u64, View> for StartLook {
    ghost then = { StartsLook };
}

/// A reader loads a word of data, a row or a tag.
pub struct Load;

impl Play<u64, View> for Load {
    ghost then = { Loads };
}

/// A reader loads the sequence word again: where it is the even one it began with, all that it loaded is of that version.
pub struct EndLook;

impl Play<u64, View> for EndLook {
    ghost then = { EndsLook };
}

/// The new seat is a reader that has seen as much.
pub struct Branch;

impl Split<View> for Branch {
    ghost left = { kept_by };

    ghost right = { given_by };
}

/// What a reader has seen goes to another seat.
pub struct Hear;

impl Join<View> for Hear {
    ghost both = { met_by };

    ghost spent = { Spent };
}
