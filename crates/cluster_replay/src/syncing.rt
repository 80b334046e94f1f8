//! How all nodes are told what they are missing: an owner's turns one after the other, each to every node.

ghost use Rattle.std.specs.Prelude.{◌≡◌, ◌+◌, ◌<◌, ◌≤◌, ℕ, OnErr, OnOk, length};
ghost use Rattle.packet_reader.specs.declared.event.Part.TheVariants.{Fib as of_fib, Table as of_table};
ghost use Rattle.run_model.specs.Carrying.{after_sync, turns_taken};
ghost use Rattle.flow_types.specs.Size.{owners_in};
ghost use Rattle.run_model.specs.State.{journal_of};
ghost use Rattle.cluster_replay.specs.Cluster.{IsSameButForNodes, IsSized, with_nodes};
ghost use Rattle.cluster_replay.specs.Turn.{with_turns};

use crate::cluster::Cluster;
use out_of_memory::OutOfMemory;
use packet_reader::Part;

impl Cluster {
    /// Delivers all messages that are missing, to every node.
    pub(crate) fn sync(&mut self) -> Result<(), OutOfMemory>
        ensures told { OnOk result (self.new ≡ with_nodes self.old
            (after_sync self.old.cluster.journals self.old.cluster.nodes)) }
        ensures stays { OnErr result (IsSameButForNodes self.old.cluster self.new.cluster) }
    {
        'owners: for owner in 0..self.owner_count() {
            self.bring_up(owner, Part::Table)?;
            self.bring_up(owner, Part::Fib)?;
        }
        Ok(())
    }

    /// Delivers an owner's messages that tables or FIBs are missing, turn by turn, to every node.
    fn bring_up(&mut self, owner: u8, part: Part) -> Result<(), OutOfMemory>
        requires { owner < owners_in self.old.cluster.opened.size }
        ensures told { OnOk result (self.new ≡ with_turns part owner
            (length (journal_of self.old.cluster.journals owner)) self.old) }
        ensures stays { OnErr result (IsSameButForNodes self.old.cluster self.new.cluster) }
    {
        let (taken, sent) = (self.least_taken(owner, part), self.sent_turns(owner));
        'turns: for turn in taken..sent {
            self.tell(owner, turn + 1, part)?;
        }
        Ok(())
    }

    /// The turns of an owner that each node's table or its FIB has taken.
    fn least_taken(&self, owner: u8, part: Part) -> u32
        requires { owner < owners_in self.now.cluster.opened.size }
        ensures taken { (node : ℕ) → node < self.now.cluster.opened.size.nodes →
            result ≤ turns_taken part self.now.cluster.nodes node owner }
        ensures sent { result ≤ length (journal_of self.now.cluster.journals owner) }
        ensures sized { IsSized self.now }
    {
        let mut least = self.sent_turns(owner);
        'nodes: for node in 0..self.node_count() {
            least = least.min(self.turns(node, owner, part));
        }
        least
    }

    /// Delivers the message of a turn to each node's table, or to each one's FIB.
    fn tell(&mut self, owner: u8, turn: u32, part: Part) -> Result<(), OutOfMemory>
        requires owner { owner < owners_in self.old.cluster.opened.size }
        requires first { 1 ≤ turn }
        requires sent { turn ≤ length (journal_of self.old.cluster.journals owner) }
        requires next { (node : ℕ) → node < self.old.cluster.opened.size.nodes →
            turn ≤ turns_taken part self.old.cluster.nodes node owner + 1 }
        ensures told { OnOk result (self.new ≡ with_turns part owner turn self.old) }
        ensures stays { OnErr result (IsSameButForNodes self.old.cluster self.new.cluster) }
    {
        match part {
            Part::Table => {
                self.tell_tables(owner, turn);
                Ok(())
            }
            Part::Fib => self.tell_fibs(owner, turn),
        }
    }

    /// Delivers the message of a turn to each node's table. It is read once.
    fn tell_tables(&mut self, owner: u8, turn: u32)
        requires owner { owner < owners_in self.old.cluster.opened.size }
        requires first { 1 ≤ turn }
        requires sent { turn ≤ length (journal_of self.old.cluster.journals owner) }
        requires next { (node : ℕ) → node < self.old.cluster.opened.size.nodes →
            turn ≤ turns_taken of_table self.old.cluster.nodes node owner + 1 }
        ensures { self.new ≡ with_turns of_table owner turn self.old }
    {
        let message = self.table_message(owner, turn);
        'nodes: for node in 0..self.node_count() {
            // A node that has the turn already says so, which a sync doesn't print.
            let _ = self.tell_table(node, owner, turn, &message);
        }
    }

    /// Delivers the messages of a turn to each node's FIB.
    fn tell_fibs(&mut self, owner: u8, turn: u32) -> Result<(), OutOfMemory>
        requires owner { owner < owners_in self.old.cluster.opened.size }
        requires first { 1 ≤ turn }
        requires sent { turn ≤ length (journal_of self.old.cluster.journals owner) }
        requires next { (node : ℕ) → node < self.old.cluster.opened.size.nodes →
            turn ≤ turns_taken of_fib self.old.cluster.nodes node owner + 1 }
        ensures told { OnOk result (self.new ≡ with_turns of_fib owner turn self.old) }
        ensures stays { OnErr result (IsSameButForNodes self.old.cluster self.new.cluster) }
    {
        'nodes: for node in 0..self.node_count() {
            self.carry_fib(node, owner, turn)?;
        }
        Ok(())
    }

    /// How many nodes there are.
    fn node_count(&self) -> u8
        ensures count { result ≡ self.now.cluster.opened.size.nodes }
        ensures sized { IsSized self.now }
    {
        self.shape.nodes() as u8
    }

    /// How many owners have a block.
    fn owner_count(&self) -> u8
        ensures count { result ≡ owners_in self.now.cluster.opened.size }
        ensures sized { IsSized self.now }
    {
        self.owners.len() as u8
    }

    /// How many turns an owner has accepted.
    fn sent_turns(&self, owner: u8) -> u32
        requires { owner < owners_in self.now.cluster.opened.size }
        ensures { result ≡ length (journal_of self.now.cluster.journals owner) }
    {
        self.owners[usize::from(owner)].turns()
    }

    /// How many of an owner's turns a node's table or its FIB has taken.
    fn turns(&self, node: u8, owner: u8, part: Part) -> u32
        requires node { node < self.now.cluster.opened.size.nodes }
        requires owner { owner < owners_in self.now.cluster.opened.size }
        ensures taken { result ≡ turns_taken part self.now.cluster.nodes node owner }
        ensures sent { result ≤ length (journal_of self.now.cluster.journals owner) }
        ensures sized { IsSized self.now }
    {
        let node = &self.nodes[usize::from(node)];
        match part {
            Part::Table => node.tables[usize::from(owner)].taken(),
            Part::Fib => node.fibs[usize::from(owner)].taken(),
        }
    }
}
