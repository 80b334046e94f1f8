//! An owner, with its ends of links.
ghost use Rattle.std.specs.Prelude.{◌≡◌, [], false};
ghost use Rattle.turn_relay.specs.OwnerState.{OwnerState};

use flow_types::Shape;
use node_link::SendEnd;
use run_model::Reply;
use std::alloc::Global;
use std::marker::Model;
use std::mem::replace;
use turn_log::Sender;

/// An owner of blocks, with its end of a link to each node, or of none.
///
/// An owner that has no update in the whole script needs no link.
#[derive(Drop)]
pub struct Owner {
    pub(crate) shape: Shape,
    pub(crate) number: u8,
    pub(crate) sender: Sender,
    pub(crate) ends: Vec<SendEnd>,
    pub(crate) replies: Vec<Reply>,
    pub(crate) failed: bool,
}

impl Model for Owner {
    ghost use Rattle.turn_relay.specs.OwnerState.{IsOwner, OwnerState};

    ghost Value = { OwnerState };

    ghost view = { λ o. record { size = o.shape; number = o.number; sender = o.sender; ends = o.ends.items; replies = o.replies.items; failed = o.failed } };

    ghost invariant = { λ o. IsOwner o.shape o.number o.sender o.ends.items };
}

impl Owner {
    /// The owner of a sender, without a link. It takes no memory.
    pub fn new(alloc: Global, shape: Shape, number: u8, sender: Sender) -> Owner
        requires sized { sender.rib.size ≡ shape }
        requires numbered { sender.rib.number ≡ number }
        ensures { result ≡ record {
          size = shape;
          number = number;
          sender = sender;
          ends = [];
          replies = [];
          failed = false;
        } }
    {
        let owner = Owner {
            shape,
            number,
            sender,
            ends: Vec::new(alloc),
            replies: Vec::new(alloc),
            failed: false,
        };
        may_cross(&owner);
        owner
    }

    /// The owner's number. It takes no memory.
    pub fn number(&self) -> u8
        ensures { result ≡ self.now.number }
    {
        self.number
    }

    /// Whether memory was wanting in its last work. It takes no memory.
    pub fn failed(&self) -> bool
        ensures { result ≡ self.now.failed }
    {
        self.failed
    }

    /// Gives away the replies of its last work. It takes no memory.
    pub fn take_replies(&mut self, alloc: Global) -> Vec<Reply>
        ensures given { result.items ≡ self.old.replies }
        ensures left { self.new ≡ record self.old { replies = [] } }
    {
        replace(&mut self.replies, Vec::new(alloc))
    }
}

/// It may go to another thread, with all that it has.
fn may_cross<T: Send>(_owner: &T) {}
