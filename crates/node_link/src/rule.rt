//! The queue between the ends, and the rule that it is under.

use crate::letter::Letter;
use crossbeam_queue::protocol::{Join, Lesson, Outcome, Protocol, Split};
use crossbeam_queue::{RuledSegQueue, SegPass};
use delta_codec::Message;
use flow_types::Shape;
use std::collections::LinkedList;

/// What a pass knows: the shape of the messages, whether it is the one that may send, whether it is the one that may take, and
/// all that it sent and took. No value of it is made.
pub struct Log {
    pub shape: Shape,
    pub sends: bool,
    pub takes: bool,
    pub sent: LinkedList<Message>,
    pub taken: LinkedList<Message>,
}

/// What was sent is what was taken and then what the queue holds.
pub struct InOrder;

impl Protocol<Letter, Log> for InOrder {
    ghost use Rattle.node_link.specs.Rule.{Carries, new_log};

    ghost holds = { Carries };

    ghost first = { new_log };
}

/// A pass that has both parts tells the rule of one more node of the shape.
pub struct OneMoreNode;

impl Split<Log> for OneMoreNode {
    ghost use Rattle.node_link.specs.Rule.{spent_log, with_one_more_node};

    ghost left = { with_one_more_node };

    ghost right = { λ log. spent_log };
}

/// A pass that has both parts tells the rule of one more block of the shape.
pub struct OneMoreBlock;

impl Split<Log> for OneMoreBlock {
    ghost use Rattle.node_link.specs.Rule.{spent_log, with_one_more_block};

    ghost left = { with_one_more_block };

    ghost right = { λ log. spent_log };
}

/// The taker's part and the sender's part of a pass that has both.
pub struct Parts;

impl Split<Log> for Parts {
    ghost use Rattle.node_link.specs.Rule.{sender_log, taker_log};

    ghost left = { λ log. taker_log log.shape log.taken };

    ghost right = { λ log. sender_log log.shape log.sent };
}

impl Join<Log> for Parts {
    ghost use Rattle.node_link.specs.Rule.{both_logs, spent_log};

    ghost both = { both_logs };

    ghost spent = { spent_log };
}

/// A message is sent.
pub struct Sends;

impl Outcome<Letter, Log> for Sends {
    ghost use Rattle.node_link.specs.Moves.{HasSent};

    ghost then = { HasSent };
}

/// A message is taken, or the queue is empty.
pub struct Takes;

impl Outcome<Letter, Log> for Takes {
    ghost use Rattle.node_link.specs.Moves.{HasTaken};

    ghost then = { HasTaken };
}

impl Lesson<Letter, Log> for Takes {
    ghost use Rattle.node_link.specs.Moves.{AllIsTaken};

    ghost fact = { AllIsTaken };
}

pub(crate) type Queue = RuledSegQueue<Letter, Log, InOrder>;

pub(crate) type Port = SegPass<Letter, Log>;

/// The queue of a link, freed at its drop with what it holds.
pub(crate) struct Line {
    pub(crate) queue: Queue,
}

impl Drop for Line {
    fn drop(self) {
        let Line { queue } = self;
        queue.destroy();
    }
}
