//! Single steps on the words of a meter.
ghost use Rattle.std.specs.Prelude.{◌≡◌, ℕ, ◌-◌, ◌^◌, ◌<◌, ◌≤◌, []};
ghost use Rattle.usage_meter.specs.Plays.{Learns, added, has_gathered, loaded, new_account};
ghost use Rattle.usage_meter.specs.Seating.{Becomes, IsMeterSeat, account_of};
ghost use Rattle.usage_meter.specs.declared.view.View.TheVariants.{Live};

use crate::plays::{AddOctets, Gather, LoadTotal, Naming, Share, Shelf, TableSeat};

/// Cuts a part off a seat's ration, for a new seat.
pub fn share<N: Naming>(shelf: &Shelf, inner: &mut TableSeat, part: u64) -> TableSeat
    requires own { inner.old.table_id ≡ shelf.now.table_id }
    requires wide { 0 < shelf.now.table_id.words }
    requires live { IsMeterSeat inner.old }
    requires named { part ≡ N.ration }
    requires enough { part ≤ (account_of inner.old).ration }
    ensures left { Becomes inner.old inner.new (record (account_of inner.old) { ration = (account_of inner.old).ration - part }) }
    ensures given { Becomes inner.old result (new_account (account_of inner.old).opening part) }
{
    let _ = part;
    shelf.split_seat::<Share<N>>(inner)
}

/// Adds octets to a node's word.
pub fn add_octets(shelf: &Shelf, inner: &mut TableSeat, node: usize, octets: u64)
    requires own { inner.old.table_id ≡ shelf.now.table_id }
    requires wide { shelf.now.table_id.words ≡ shelf.now.key.nodes }
    requires fits { shelf.now.key.ration < 2 ^ 64 }
    requires inside { node < shelf.now.key.nodes }
    requires live { IsMeterSeat inner.old }
    requires enough { octets ≤ (account_of inner.old).ration }
    ensures { Becomes inner.old inner.new (added node octets (account_of inner.old)) }
{
    shelf.fetch_add::<AddOctets>(inner, node, octets);
}

/// A seat's ration and its adds go to another.
pub fn take_in(shelf: &Shelf, inner: &mut TableSeat, other: TableSeat)
    requires own { (inner.old.table_id ≡ shelf.now.table_id) × (other.table_id ≡ shelf.now.table_id) }
    requires wide { 0 < shelf.now.table_id.words }
    requires live { IsMeterSeat inner.old × IsMeterSeat other }
    ensures { Becomes inner.old inner.new (has_gathered (account_of other) (account_of inner.old)) }
{
    shelf.join_seat::<Gather>(inner, other);
}

/// Loads a node's word.
pub fn load_total(shelf: &Shelf, inner: &mut TableSeat, node: usize) -> u64
    requires own { inner.old.table_id ≡ shelf.now.table_id }
    requires wide { shelf.now.table_id.words ≡ shelf.now.key.nodes }
    requires inside { node < shelf.now.key.nodes }
    requires live { IsMeterSeat inner.old }
    ensures loaded { Becomes inner.old inner.new (loaded node result (account_of inner.old)) }
    ensures learns { Learns (account_of inner.old) node result }
{
    shelf.load::<LoadTotal>(inner, node)
}
