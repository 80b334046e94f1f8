//! A lane with its readers.
ghost use Rattle.std.specs.Prelude.{◌≡◌, ◌+◌, ◌<◌, ◌^◌, [], All, Some, false, length};
ghost use Rattle.storm_lane.specs.Lane.{AreWhole, IsLane, all_seats, table_shard, fib_book};
ghost use Rattle.storm_lane.specs.Stepping.{Enters};
ghost use Rattle.storm_lane.specs.Work.{LaneDid, MeetsAt};

use crate::readers::OwnerReaders;
use crate::walking::walk;
use flow_types::Shape;
use packet_path::TableSeat;
use packet_reader::Event;
use partial_fib::FibWriter;
use run_model::Reply;
use sb_io::Gate;
use std::alloc::Global;
use std::marker::Model;
use std::mem;
use std::sync::Wait;

/// One of the lanes of a storm: it answers each packet whose number leaves its own when divided by the number of lanes.
#[derive(Drop)]
pub struct Lane {
    shape: Shape,
    number: u8,
    lanes: u8,
    readers: Vec<OwnerReaders>,
    replies: Vec<Reply>,
    failed: bool,
}

impl Model for Lane {
    ghost use Rattle.storm_lane.specs.Lane.{IsLane, LaneState};

    ghost Value = { LaneState };

    ghost view = { λ l. record { size = l.shape; number = l.number; lanes = l.lanes; readers = l.readers.items; replies = l.replies.items; failed = l.failed } };

    ghost invariant = { λ l. IsLane (record { size = l.shape; number = l.number; lanes = l.lanes; readers = l.readers.items; replies = l.replies.items; failed = l.failed }) };
}

impl Lane {
    /// The lane of this number among the lanes, with readers of each owner that has a block, in the order of the owners.
    ///
    /// Of each owner there are readers of each node.
    pub fn new(
        alloc: Global,
        shape: Shape,
        number: u8,
        lanes: u8,
        readers: Vec<OwnerReaders>,
    ) -> Lane
        requires one_of { number < lanes }
        requires readers { AreWhole shape (all_seats readers.items) }
        ensures { result ≡ record { size = shape; number = number; lanes = lanes; readers = readers.items; replies = []; failed = false } }
    {
        let lane = Lane {
            shape,
            number,
            lanes,
            readers,
            replies: Vec::new(alloc),
            failed: false,
        };
        may_cross(&lane);
        lane
    }

    /// Whether the lane met want of memory.
    pub fn failed(&self) -> bool
        ensures { result ≡ self.now.failed }
    {
        self.failed
    }

    /// The lane's replies of its last phase, if it didn't meet want of memory, which are then the caller's.
    pub fn take_replies(&mut self, alloc: Global) -> Vec<Reply>
        ensures replies { result.items ≡ self.old.replies }
        ensures taken { self.new ≡ record self.old { replies = [] } }
    {
        mem::replace(&mut self.replies, Vec::new(alloc))
    }

    /// Answers the lane's packets among the events of a phase, in their order. The first packet has this number.
    ///
    /// The packets enter at nodes of the cluster. At want of memory it stops, and says so from then on. It passes the gate before
    /// and after each of its packets, and promises no return.
    pub fn work<R: Wait, G: Gate>(&mut self, rt: &R, gate: &G, events: &[Event], first: u32)
        requires few { first + length events.now < 2 ^ 32 }
        requires enters { All (Enters self.old.size) events.now }
        ensures { LaneDid first events.now self.old self.new }
    {
        self.replies.clear();
        let walked = walk(
            rt,
            gate,
            self.shape,
            self.readers.as_mut_slice(),
            events,
            first,
            self.lanes,
            self.number,
            &mut self.replies,
        );
        if walked.is_err() {
            self.failed = true;
        }
    }

    /// The lane's readers of one owner at one node have then seen all that the table and the FIB have taken. Both stay as they
    /// are.
    ///
    /// The owner has a block, and the readers are of this table and of this FIB. It takes no memory, and looks at the FIB until
    /// all is seen.
    pub fn meet_node<R: Wait>(
        &mut self,
        rt: &R,
        owner: usize,
        node: usize,
        table: &mut TableSeat,
        fib: &mut FibWriter,
    )
        requires table { table_shard (all_seats self.old.readers) node owner ≡ Some table.old.shard }
        requires fib { fib_book (all_seats self.old.readers) node owner ≡ Some fib.old.book }
        ensures table { table.new ≡ table.old }
        ensures fib { fib.new ≡ fib.old }
        ensures met { MeetsAt node owner table.old.list fib.old.turns self.old self.new }
    {
        let readers = &mut self.readers[owner];
        readers.meet_node(rt, node, table, fib);
    }
}

/// A lane may go to another thread.
fn may_cross<T: Send>(_lane: &T) {}
