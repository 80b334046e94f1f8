//! The readers that a lane has of one owner's turns.
ghost use Rattle.std.specs.Prelude.{◌≡◌, ◌<◌, ◌∷◌, [], ◌++◌, OnErr, OnOk, length, Some};
ghost use Rattle.std.specs.List.{slice_get};
ghost use Rattle.group_search.specs.Owned.{IsOwned};
ghost use Rattle.packet_path.specs.Fibs.{IsFibOf, turns_at};
ghost use Rattle.storm_lane.specs.Readers.{AreOthersAsBefore, HaveSeenMore, owner_reply, records_at, seats_of};

use flow_types::Shape;
use hash_family::HashedKey;
use out_of_memory::OutOfMemory;
use packet_path::{TableSeat, ViewSeat};
use partial_fib::{FibReader, FibWriter, told};
use run_model::Reply;
use std::alloc::Global;
use std::marker::Model;
use std::sync::Wait;

/// The readers of one owner's turns, node by node: a view of each node's table, and a reader of each node's FIB.
///
/// They are put there in the order of the nodes, each of a table and a FIB of this owner.
#[derive(Drop)]
pub struct OwnerReaders {
    shape: Shape,
    owner: u8,
    views: Vec<ViewSeat>,
    fibs: Vec<FibReader>,
}

impl Model for OwnerReaders {
    ghost use Rattle.storm_lane.specs.Readers.{AreOwners, ReadersState, seats_of};

    ghost Value = { ReadersState };

    ghost view = { λ r. record { size = r.shape; owner = r.owner; views = r.views.items; fibs = r.fibs.items } };

    ghost invariant = { λ r. AreOwners (seats_of (record { size = r.shape; owner = r.owner; views = r.views.items; fibs = r.fibs.items })) };
}

impl OwnerReaders {
    /// No readers yet.
    pub fn new(alloc: Global, shape: Shape, owner: u8) -> OwnerReaders
        ensures { result ≡ record { size = shape; owner = owner; views = []; fibs = [] } }
    {
        OwnerReaders {
            shape,
            owner,
            views: Vec::new(alloc),
            fibs: Vec::new(alloc),
        }
    }

    /// Puts the readers of the next node behind those that are there. After an `Err` nothing has changed, and they are dropped.
    ///
    /// Both are this owner's, and the FIB is the next node's.
    pub fn push(&mut self, view: ViewSeat, fib: FibReader) -> Result<(), OutOfMemory>
        requires shape { view.shard.shape ≡ self.old.size }
        requires owner { view.shard.owner ≡ self.old.owner }
        requires fib { IsFibOf self.old.size self.old.owner (length self.old.views) fib.opening }
        ensures put { OnOk result (self.new ≡ record self.old { views = self.old.views ++ view ∷ []; fibs = self.old.fibs ++ fib ∷ [] }) }
        ensures kept { OnErr result (self.new ≡ self.old) }
    {
        self.views.reserve(1)?;
        self.fibs.reserve(1)?;
        self.views.push_reserved(view);
        self.fibs.push_reserved(fib);
        Ok(())
    }

    /// The path of a packet that enters at the node. The key's block is the owner's, and there are readers of each node.
    ///
    /// It takes no memory, and promises no return.
    pub fn path<R: Wait>(&mut self, rt: &R, ingress: usize, key: &HashedKey) -> Reply
        requires owned { IsOwned self.old.size self.old.owner key.now }
        requires whole { length self.old.views ≡ self.old.size.nodes }
        requires entered { ingress < self.old.size.nodes }
        ensures said { result ≡ owner_reply self.new ingress key.now }
        ensures seats { seats_of self.new ≡ seats_of self.old }
        ensures more { HaveSeenMore self.old self.new }
    {
        let view = &mut self.views[ingress];
        view.path(rt, key, self.fibs.as_mut_slice())
    }

    /// The readers of the node have then seen all that the table and the FIB have taken. Both stay as they are.
    ///
    /// There are readers of the node, of this table and of this FIB. It takes no memory, and looks at the FIB until all is
    /// seen.
    pub fn meet_node<R: Wait>(
        &mut self,
        rt: &R,
        node: usize,
        table: &mut TableSeat,
        fib: &mut FibWriter,
    )
        requires table { slice_get (seats_of self.old).shards node ≡ Some table.old.shard }
        requires fib { slice_get (seats_of self.old).books node ≡ Some fib.old.book }
        ensures table { table.new ≡ table.old }
        ensures fib { fib.new ≡ fib.old }
        ensures records { records_at self.new.views node ≡ table.old.list }
        ensures turns { turns_at self.new.fibs node ≡ fib.old.turns }
        ensures others { AreOthersAsBefore node self.old self.new }
        ensures seats { seats_of self.new ≡ seats_of self.old }
        ensures more { HaveSeenMore self.old self.new }
    {
        let view = &mut self.views[node];
        view.meet(table);
        told(rt, &mut self.fibs[node], fib);
    }
}
