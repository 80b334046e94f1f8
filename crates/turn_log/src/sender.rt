ghost use Rattle.std.specs.Prelude.{◌≡◌, ◌<◌, ◌≤◌, ℕ, List, IfSome, OnErr, length};
ghost use Rattle.flow_types.specs.declared.record.Flow.{Flow};
ghost use Rattle.flow_types.specs.Size.{Size};
ghost use Rattle.group_search.specs.Owned.{IsOwned};
ghost use Rattle.group_history.specs.Acceptance.{updated_key};
ghost use Rattle.rib_owner.specs.Turn.{node_entered};
ghost use Rattle.delta_codec.specs.Messages.{IsTableMessageOf, TableMessageFits};
ghost use Rattle.delta_codec.specs.Messages.{FibMessageFits};
ghost use Rattle.turn_log.specs.Sender.{AnswersSender, IsSenderOf, changes_in};
ghost use Rattle.delta_codec.specs.Messages.{IsFibMessageOf};

use crate::octets::{fib_at, table_at};
use crate::sending::{MOST_OCTETS, put_turn};
use crate::sent::SentTurn;
use delta_codec::{FibMessage, TableMessage};
use flow_types::{Flow, Shape};
use rib_owner::{Owner, Update, UpdateRefused};
use std::marker::Model;

/// An owner, with the messages of its turns.
#[derive(Drop)]
pub struct Sender {
    pub(crate) shape: Shape,
    pub(crate) number: u8,
    pub(crate) owner: Owner,
    pub(crate) octets: Vec<u8>,
    pub(crate) turns: Vec<SentTurn>,
}

impl Model for Sender {
    ghost use Rattle.turn_log.specs.Sender.{IsSender, SenderState};

    ghost Value = { SenderState };

    ghost view = { λ s. record { rib = s.owner; octets = s.octets.items; sent = s.turns.items } };

    ghost invariant = { λ s. IsSender s.shape s.number (record { rib = s.owner; octets = s.octets.items; sent = s.turns.items }) };
}

impl Sender {
    /// Accepts an update of a key that the owner owns, and keeps its messages, or refuses it as `Owner::accept` does. It
    /// tells the turn's number.
    ///
    /// The flows are those with which the owner was opened, and are there for the clauses alone. The node of a key that is set
    /// is one of the cluster's. All memory is asked for once the update is known to be accepted, and before anything changes.
    pub fn accept(&mut self, flows: &[Flow], update: Update) -> Result<u32, UpdateRefused>
        requires stands { IsSenderOf self.old.rib.size self.old.rib.number flows.now self.old }
        requires owns { IsOwned self.old.rib.size self.old.rib.number (updated_key update) }
        requires node { IfSome (node_entered update) (λ node. node < self.old.rib.size.nodes) }
        ensures answer { AnswersSender self.old.rib.size flows.now (changes_in self.old) update (changes_in self.new) result }
        ensures stands { IsSenderOf self.old.rib.size self.old.rib.number flows.now self.new }
        ensures refused { OnErr result (self.new ≡ self.old) }
    {
        let _ = flows;
        let decision = self.owner.judge(update)?;
        self.octets.reserve(MOST_OCTETS)?;
        self.turns.reserve(1)?;
        let turn = self.owner.commit(decision)?;
        let number = turn.number;
        let sent = put_turn(&mut self.octets, self.shape, self.number, turn);
        let _ = self.turns.push(sent);
        Ok(number)
    }

    /// How many turns there were. It takes no memory.
    pub fn turns(&self) -> u32
        ensures { result ≡ length (changes_in self.now) }
    {
        self.owner.journal().len()
    }

    /// The message of a turn for the nodes' tables. It takes no memory.
    pub fn table_message(&self, turn: u32) -> TableMessage
        requires first { 1 ≤ turn }
        requires last { turn ≤ length (changes_in self.now) }
        ensures fits { TableMessageFits self.now.rib.size result }
        ensures of_turn { (size : Size) (number : ℕ) (flows : List Flow) → IsSenderOf size number flows self.now →
            IsTableMessageOf size number flows (changes_in self.now) turn result }
    {
        let sent = self.turns[turn as usize - 1];
        table_at(self.shape, self.octets.as_slice(), sent.table)
    }

    /// The message of a turn for the FIB of a node of the cluster. It takes no memory.
    pub fn fib_message(&self, turn: u32, node: u8) -> FibMessage
        requires first { 1 ≤ turn }
        requires last { turn ≤ length (changes_in self.now) }
        requires node { node < self.now.rib.size.nodes }
        ensures fits { FibMessageFits self.now.rib.size result }
        ensures of_turn { (size : Size) (number : ℕ) (flows : List Flow) → IsSenderOf size number flows self.now →
            IsFibMessageOf size node number flows (changes_in self.now) turn result }
    {
        let sent = self.turns[turn as usize - 1];
        fib_at(self.shape, self.octets.as_slice(), sent.fib(node))
    }
}
