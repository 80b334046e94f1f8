ghost use Rattle.std.specs.Prelude.{◌≡◌, ◌<◌, IsErr, IsTrue, IfOk, IfSome, OnErr, OnOk, is_err};
ghost use Rattle.std.specs.Result.{result_ok};
ghost use Rattle.packet_reader.specs.Form.{IsFormed};
ghost use Rattle.packet_reader.specs.declared.mode.Mode.TheVariants.{Replay};
ghost use Rattle.run_model.specs.Packets.{answer_of, packet_reply};
ghost use Rattle.run_model.specs.Replaying.{reply_in, state_after};
ghost use Rattle.run_model.specs.Updates.{after_update, update_reply};
ghost use Rattle.run_model.specs.declared.reply.Reply.TheVariants.{Synced};
ghost use Rattle.cluster_replay.specs.Cluster.{IsSameButForNodes, told_of, with_journals};
ghost use Rattle.rib_owner.specs.Turn.{node_entered};

use crate::node::Node;
use flow_types::{Flow, FlowKey, Shape};
use hash_family::{HashedKey, place};
use out_of_memory::OutOfMemory;
use packet_reader::Event;
use partial_fib::FibSeen;
use rib_owner::{Update, UpdateRefused};
use run_model::Reply;
use std::marker::Model;
use turn_log::Sender;

/// A cluster in a run: an owner for each that has a block, and the nodes.
#[derive(Drop)]
pub struct Cluster {
    pub(crate) shape: Shape,
    pub(crate) flows: Vec<Flow>,
    pub(crate) owners: Vec<Sender>,
    pub(crate) nodes: Vec<Node>,
    pub(crate) lacks_memory: bool,
}

impl Model for Cluster {
    ghost use Rattle.std.specs.Prelude.{map};
    ghost use Rattle.cluster_replay.specs.Cluster.{IsCluster, RunState, cluster_of, node_state_of};

    ghost Value = { RunState };

    ghost view = { λ c. record { cluster = cluster_of c.shape c.flows.items c.owners.items (map node_state_of c.nodes.items); lacks_memory = c.lacks_memory } };

    ghost invariant = { λ c. IsCluster c.shape c.flows.items c.owners.items (map node_state_of c.nodes.items) };
}

impl Cluster {
    /// Handles an event: the reply to it, by all events before it. Where memory is wanting, each later call answers so, too, and
    /// all is as it was, but for messages that a `sync` had delivered.
    ///
    /// The event has the form of a row of the script of a cluster of this size, which never changes.
    pub fn handle(&mut self, event: &Event) -> Result<Reply, OutOfMemory>
        requires { IsFormed Replay self.old.cluster.opened.size event.now }
        ensures reply { IfOk result (λ reply. reply ≡ reply_in self.old.cluster event.now) }
        ensures goes_on { OnOk result (self.new.cluster ≡ state_after self.old.cluster event.now) }
        ensures opening { self.new.cluster.opened ≡ self.old.cluster.opened }
        ensures stays { OnErr result (IsSameButForNodes self.old.cluster self.new.cluster) }
        ensures lacking { IsTrue self.old.lacks_memory → IsErr result }
        ensures lacks { self.new.lacks_memory ≡ is_err result }
    {
        if self.lacks_memory {
            return Err(OutOfMemory);
        }
        let answered = self.answer(event);
        self.lacks_memory = answered.is_err();
        answered
    }

    #[tactic(auto, unfolding(run_model::specs::Replaying::reply_in, run_model::specs::Replaying::state_after))]
    fn answer(&mut self, event: &Event) -> Result<Reply, OutOfMemory>
        requires { IsFormed Replay self.old.cluster.opened.size event.now }
        ensures reply { IfOk result (λ reply. reply ≡ reply_in self.old.cluster event.now) }
        ensures goes_on { OnOk result (self.new.cluster ≡ state_after self.old.cluster event.now) }
        ensures stays { OnErr result (IsSameButForNodes self.old.cluster self.new.cluster) }
    {
        match *event {
            Event::Set(flow) => self.update(Update::Set(flow)),
            Event::Del(key) => self.update(Update::Del(key)),
            Event::Packet { ingress, key } => Ok(self.send(ingress, key)),
            Event::Carry {
                node,
                owner,
                turn,
                part,
            } => self.carry(node, owner, turn, part),
            Event::Sync => {
                self.sync()?;
                Ok(Reply::Synced)
            }
        }
    }

    /// Gives an update to the owner of its key.
    fn update(&mut self, update: Update) -> Result<Reply, OutOfMemory>
        requires { IfSome (node_entered update) (λ node. node < self.old.cluster.opened.size.nodes) }
        ensures reply { IfOk result (λ reply. reply ≡ update_reply self.old.cluster.opened
            self.old.cluster.journals update) }
        ensures journals { OnOk result (self.new ≡ with_journals self.old
            (after_update self.old.cluster.opened self.old.cluster.journals update)) }
        ensures refused { OnErr result (self.new ≡ self.old) }
    {
        let owner = self.shape.owner(place(self.shape, update.key()).block);
        let answered = self.owners[usize::from(owner)].accept(self.flows.as_slice(), update);
        told(owner, answered)
    }

    /// The reply to a packet: its ingress sends it on by its table, and the node that it comes to answers by its FIB.
    fn send(&mut self, ingress: u8, key: FlowKey) -> Reply
        requires { ingress < self.old.cluster.opened.size.nodes }
        ensures reply { result ≡ packet_reply self.old.cluster.opened self.old.cluster.journals
            self.old.cluster.nodes ingress key }
        ensures kept { self.new ≡ self.old }
    {
        let hashed = HashedKey::of(&key);
        let at = hashed.place(self.shape);
        let owner = usize::from(self.shape.owner(at.block));
        let sender = &mut self.nodes[usize::from(ingress)];
        let (block, group) = sender.home_at(owner, at);
        let route = sender.route_at(owner, at, &hashed);
        let Some(node) = route.node else {
            return Reply::Nowhere {
                seen: route.version,
            };
        };
        let found = self.nodes[usize::from(node)].fibs[owner].find(block, group, key);
        answer(node, route.version, found)
    }
}

/// The reply of a node that was asked for a key.
fn answer(node: u8, seen: u32, found: FibSeen) -> Reply
    ensures { result ≡ answer_of node seen found.version found.answer }
{
    match found.answer {
        Some(info) => Reply::Found {
            node,
            seen,
            fib: found.version,
            info,
        },
        None => Reply::Unknown {
            node,
            seen,
            fib: found.version,
        },
    }
}

/// The reply of an owner that was asked to accept an update.
fn told(owner: u8, answered: Result<u32, UpdateRefused>) -> Result<Reply, OutOfMemory>
    ensures { result_ok result ≡ told_of owner answered }
{
    match answered {
        Ok(turn) => Ok(Reply::Accepted { owner, turn }),
        Err(UpdateRefused::OutOfMemory) => Err(OutOfMemory),
        Err(refused) => Ok(Reply::Refused(refused)),
    }
}
