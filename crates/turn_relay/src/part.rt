//! What a node's applier has of one owner.
ghost use Rattle.std.specs.Prelude.{◌≡◌, None};
ghost use Rattle.turn_relay.specs.declared.state.State.TheVariants.{Clear};
ghost use Rattle.turn_relay.specs.PartState.{PartState};

use crate::state::State;
use flow_types::Shape;
use node_link::TakeEnd;
use packet_path::TableSeat;
use partial_fib::FibWriter;
use std::marker::Model;
use std::sync::Wait;

/// A node's table and FIB of one owner, with the end of the link from the owner, where there is one.
///
/// It can't be dropped, since a FIB's writer can't: `close` ends it.
pub struct Part {
    pub(crate) shape: Shape,
    pub(crate) owner: u8,
    /// The node's table of the owner's blocks.
    pub table: TableSeat,
    /// The node's FIB of the owner.
    pub fib: FibWriter,
    pub(crate) end: Option<TakeEnd>,
    pub(crate) state: State,
}

impl Model for Part {
    ghost use Rattle.turn_relay.specs.PartState.{IsPart, PartState};

    ghost Value = { PartState };

    ghost view = { λ p. record { size = p.shape; owner = p.owner; table = p.table; fib = p.fib; end = p.end; state = p.state } };

    ghost invariant = { λ p. IsPart p.shape p.owner p.table p.fib p.end };
}

impl Part {
    /// A part without a link.
    pub fn new(shape: Shape, owner: u8, table: TableSeat, fib: FibWriter) -> Part
        requires table { (table.shard.shape ≡ shape) × (table.shard.owner ≡ owner) }
        requires fib { (fib.opening.size ≡ shape) × (fib.opening.owner ≡ owner) }
        ensures { result ≡ record {
          size = shape;
          owner = owner;
          table = table;
          fib = fib;
          end = None;
          state
              = Clear;
        } }
    {
        let part = Part {
            shape,
            owner,
            table,
            fib,
            end: None,
            state: State::Clear,
        };
        may_cross(&part);
        part
    }

    /// Ends the part. It waits for readers that are inside a `find`. It takes no memory.
    pub fn close<R: Wait>(self, rt: &R) {
        let Part {
            shape: _,
            owner: _,
            table: _table,
            fib,
            end: _end,
            state: _,
        } = self;
        fib.close(rt);
    }
}

/// It may go to another thread.
fn may_cross<T: Send>(_part: &T) {}
