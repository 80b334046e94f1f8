//! The owner's thread.
ghost use Rattle.std.specs.Prelude.{◌≡◌, ◌≤◌, ◌<◌, true, false, length, IfSome};
ghost use Rattle.group_search.specs.Owned.{IsOwned};
ghost use Rattle.group_history.specs.Acceptance.{updated_key};
ghost use Rattle.rib_owner.specs.Turn.{node_entered};
ghost use Rattle.turn_log.specs.Sender.{changes_in};
ghost use Rattle.embed_cluster.specs.Parts.{IsSameOwner, Stands};

use crate::cluster::Phase;
use crate::updates;
use delta_codec::Message;
use flow_types::Shape;
use hash_family::place;
use node_link::{SendEnd, send};
use out_of_memory::OutOfMemory;
use rib_owner::{Update, UpdateRefused};
use std::sync::Wait;
use std::sync::atomic::Ordering;
use turn_log::Sender;

/// The number of the node that owns the one block.
pub(crate) const OWNER: u8 = 0;

/// The owner, with its ends of the links to the two nodes.
#[derive(Drop)]
pub(crate) struct Owner {
    pub(crate) sender: Sender,
    pub(crate) first: SendEnd,
    pub(crate) second: SendEnd,
    /// Whether memory was wanting.
    pub(crate) failed: bool,
}

impl Owner {
    /// The owner of a sender, linked to both nodes.
    pub(crate) fn new(sender: Sender, first: SendEnd, second: SendEnd) -> Owner
        ensures { result ≡ record { sender = sender; first = first; second = second; failed = false } }
    {
        Owner {
            sender,
            first,
            second,
            failed: false,
        }
    }
}

/// The owner's work: it takes the updates one after the other. Then it is done, also where memory is wanting.
pub(crate) fn own_all<R: Wait>(rt: &R, phase: &Phase, owner: &mut Owner)
    requires stands { Stands phase.now.shape phase.now.flows.now owner.old }
    ensures same { IsSameOwner owner.old owner.new }
{
    owner.failed = own_each(rt, phase, owner).is_err();
    phase.done.store(1, Ordering::SeqCst);
}

#[tactic(auto, using(crate::proofs::Same::staying))]
fn own_each<R: Wait>(rt: &R, phase: &Phase, owner: &mut Owner) -> Result<(), OutOfMemory>
    requires stands { Stands phase.now.shape phase.now.flows.now owner.old }
    ensures same { IsSameOwner owner.old owner.new }
{
    let asked = updates();
    'updates: for update in &asked {
        if is_own(phase.shape, update) {
            own(rt, phase, owner, *update)?;
        }
    }
    Ok(())
}

/// Whether the update is of a key of the owner's blocks, and of a node of the cluster.
fn is_own(shape: Shape, update: &Update) -> bool
    ensures owned { result ≡ true → IsOwned shape 0 (updated_key update.now) }
    ensures node { result ≡ true → IfSome (node_entered update.now) (λ node. node < shape.nodes) }
{
    let here = shape.owner(place(shape, update.key()).block) == OWNER;
    match update {
        Update::Set(flow) => here && u16::from(flow.node) < shape.nodes(),
        Update::Del(_) => here,
    }
}

/// Takes an update: an accepted one is a turn, of which each node is told. A refused one has changed nothing.
fn own<R: Wait>(rt: &R, phase: &Phase, owner: &mut Owner, update: Update) -> Result<(), OutOfMemory>
    requires stands { Stands phase.now.shape phase.now.flows.now owner.old }
    requires owned { IsOwned phase.now.shape 0 (updated_key update) }
    requires node { IfSome (node_entered update) (λ node. node < phase.now.shape.nodes) }
    ensures stands { Stands phase.now.shape phase.now.flows.now owner.new }
    ensures same { IsSameOwner owner.old owner.new }
{
    match owner.sender.accept(phase.flows, update) {
        Ok(turn) => {
            let shape = phase.shape;
            tell(rt, shape, &owner.sender, turn, 0, &mut owner.first)?;
            tell(rt, shape, &owner.sender, turn, 1, &mut owner.second)
        }
        Err(UpdateRefused::OutOfMemory) => Err(OutOfMemory),
        Err(_) => Ok(()),
    }
}

/// Sends a node both messages of a turn, the one for its table first.
fn tell<R: Wait>(
    rt: &R,
    shape: Shape,
    sender: &Sender,
    turn: u32,
    node: u8,
    end: &mut SendEnd,
) -> Result<(), OutOfMemory>
    requires sized { (sender.now.rib.size ≡ shape) × (end.old.size ≡ shape) }
    requires first { 1 ≤ turn }
    requires last { turn ≤ length (changes_in sender.now) }
    requires node { node < shape.nodes }
    ensures link { end.new.line ≡ end.old.line }
    ensures size { end.new.size ≡ end.old.size }
{
    let table = Message::Table(sender.table_message(turn));
    send(rt, end, shape, &table)?;
    let fib = Message::Fib(sender.fib_message(turn, node));
    send(rt, end, shape, &fib)
}
