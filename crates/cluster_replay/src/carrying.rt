//! How one message of a turn comes to a node.

ghost use Rattle.std.specs.Prelude.{◌≡◌, ◌<◌, ◌≤◌, IfOk, OnErr, OnOk, length};
ghost use Rattle.packet_reader.specs.declared.event.Part.TheVariants.{Fib as of_fib, Table as of_table};
ghost use Rattle.run_model.specs.Carrying.{after_carry, carry_reply, turns_taken};
ghost use Rattle.flow_types.specs.Size.{owners_in};
ghost use Rattle.run_model.specs.State.{journal_of};
ghost use Rattle.cluster_replay.specs.Cluster.{with_nodes};
ghost use Rattle.cluster_replay.specs.Turn.{IsTurnsTableMessage};

use crate::cluster::Cluster;
use delta_codec::TableMessage;
use out_of_memory::OutOfMemory;
use packet_reader::Part;
use run_model::Reply;

impl Cluster {
    /// Delivers one message of a turn, where there is such a turn.
    pub(crate) fn carry(
        &mut self,
        node: u8,
        owner: u8,
        turn: u32,
        part: Part,
    ) -> Result<Reply, OutOfMemory>
        requires node { node < self.old.cluster.opened.size.nodes }
        requires owner { owner < self.old.cluster.opened.size.nodes }
        requires first { 1 ≤ turn }
        ensures reply { IfOk result (λ reply. reply ≡ carry_reply
            (length (journal_of self.old.cluster.journals owner))
            (turns_taken part self.old.cluster.nodes node owner) turn) }
        ensures taken { OnOk result (self.new ≡ with_nodes self.old
            (after_carry self.old.cluster.journals self.old.cluster.nodes node owner turn part)) }
        ensures refused { OnErr result (self.new ≡ self.old) }
    {
        let Some(sender) = self.owners.get(usize::from(owner)) else {
            return Ok(Reply::Unsent);
        };
        if turn > sender.turns() {
            return Ok(Reply::Unsent);
        }
        self.deliver(node, owner, turn, part)
    }

    /// Delivers the message of a turn to a node's table or to its FIB.
    fn deliver(&mut self, node: u8, owner: u8, turn: u32, part: Part) -> Result<Reply, OutOfMemory>
        requires node { node < self.old.cluster.opened.size.nodes }
        requires owner { owner < owners_in self.old.cluster.opened.size }
        requires first { 1 ≤ turn }
        requires sent { turn ≤ length (journal_of self.old.cluster.journals owner) }
        ensures reply { IfOk result (λ reply. reply ≡ carry_reply
            (length (journal_of self.old.cluster.journals owner))
            (turns_taken part self.old.cluster.nodes node owner) turn) }
        ensures taken { OnOk result (self.new ≡ with_nodes self.old
            (after_carry self.old.cluster.journals self.old.cluster.nodes node owner turn part)) }
        ensures refused { OnErr result (self.new ≡ self.old) }
    {
        match part {
            Part::Table => Ok(self.carry_table(node, owner, turn)),
            Part::Fib => self.carry_fib(node, owner, turn),
        }
    }

    /// Delivers the message of a turn to a node's table.
    fn carry_table(&mut self, node: u8, owner: u8, turn: u32) -> Reply
        requires node { node < self.old.cluster.opened.size.nodes }
        requires owner { owner < owners_in self.old.cluster.opened.size }
        requires first { 1 ≤ turn }
        requires sent { turn ≤ length (journal_of self.old.cluster.journals owner) }
        ensures reply { result ≡ carry_reply (length (journal_of self.old.cluster.journals owner))
            (turns_taken of_table self.old.cluster.nodes node owner) turn }
        ensures taken { self.new ≡ with_nodes self.old
            (after_carry self.old.cluster.journals self.old.cluster.nodes node owner turn of_table) }
    {
        let message = self.table_message(owner, turn);
        self.tell_table(node, owner, turn, &message)
    }

    /// The message of an owner's turn for the nodes' tables.
    pub(crate) fn table_message(&self, owner: u8, turn: u32) -> TableMessage
        requires owner { owner < owners_in self.now.cluster.opened.size }
        requires first { 1 ≤ turn }
        requires sent { turn ≤ length (journal_of self.now.cluster.journals owner) }
        ensures { IsTurnsTableMessage self.now.cluster owner turn result }
    {
        self.owners[usize::from(owner)].table_message(turn)
    }

    /// Delivers a turn's message for tables to a node's.
    pub(crate) fn tell_table(
        &mut self,
        node: u8,
        owner: u8,
        turn: u32,
        message: &TableMessage,
    ) -> Reply
        requires node { node < self.old.cluster.opened.size.nodes }
        requires owner { owner < owners_in self.old.cluster.opened.size }
        requires sent { turn ≤ length (journal_of self.old.cluster.journals owner) }
        requires told { IsTurnsTableMessage self.old.cluster owner turn message.now }
        ensures reply { result ≡ carry_reply (length (journal_of self.old.cluster.journals owner))
            (turns_taken of_table self.old.cluster.nodes node owner) turn }
        ensures taken { self.new ≡ with_nodes self.old
            (after_carry self.old.cluster.journals self.old.cluster.nodes node owner turn of_table) }
    {
        self.nodes[usize::from(node)].take_table(message)
    }

    /// Delivers the message of a turn to a node's FIB.
    pub(crate) fn carry_fib(&mut self, node: u8, owner: u8, turn: u32) -> Result<Reply, OutOfMemory>
        requires node { node < self.old.cluster.opened.size.nodes }
        requires owner { owner < owners_in self.old.cluster.opened.size }
        requires first { 1 ≤ turn }
        requires sent { turn ≤ length (journal_of self.old.cluster.journals owner) }
        ensures reply { IfOk result (λ reply. reply ≡ carry_reply
            (length (journal_of self.old.cluster.journals owner))
            (turns_taken of_fib self.old.cluster.nodes node owner) turn) }
        ensures taken { OnOk result (self.new ≡ with_nodes self.old
            (after_carry self.old.cluster.journals self.old.cluster.nodes node owner turn of_fib)) }
        ensures refused { OnErr result (self.new ≡ self.old) }
    {
        let message = self.owners[usize::from(owner)].fib_message(turn, node);
        self.nodes[usize::from(node)].take_fib(&message)
    }
}
