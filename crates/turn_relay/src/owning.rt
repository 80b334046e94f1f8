//! What an owner does with the events of a phase.
ghost use Rattle.std.specs.Prelude.{◌≡◌, ◌≢◌, ℕ, ◌+◌, ◌<◌, ◌≤◌, ◌^◌, ◌∷◌, [], All, IfOk, IfSome, OnOk, length};
ghost use Rattle.packet_reader.specs.declared.event.Event.{Event};
ghost use Rattle.run_model.specs.declared.reply.Reply.TheVariants.{Refused};
ghost use Rattle.group_history.specs.Acceptance.{updated_key};
ghost use Rattle.group_history.specs.declared.refused.UpdateRefused.TheVariants as causes;
ghost use Rattle.storm_model.specs.Merging.{owner_of_key};
ghost use Rattle.storm_model.specs.Owners.{own_after, own_reply};
ghost use Rattle.turn_relay.specs.Each.{Each, Every};
ghost use Rattle.turn_relay.specs.OwnWork.{AnswersOne, GoesToNode, HasOwned, IsAsked, IsOwnRow, OwnerDid, opening_of};
ghost use Rattle.turn_relay.specs.OwnerState.{HasSentAll, IsSameLink, IsSameOwner, Stands, journal_in};
ghost use Rattle.turn_relay.specs.Sent.{AreAllSent};
ghost use Rattle.turn_log.specs.Sender.{IsSenderOf, changes_in};

use crate::owner::Owner;
use crate::sending::tell_each;
use flow_types::{Flow, Shape};
use hash_family::place;
use node_link::SendEnd;
use out_of_memory::OutOfMemory;
use packet_reader::Event;
use rib_owner::{Update, UpdateRefused};
use run_model::Reply;
use sb_io::{Gate, Who};
use std::sync::Wait;
use std::sync::atomic::{AtomicU64, Ordering};
use turn_log::Sender;

/// The reply where the owner refuses an update for a cause.
fn refused(cause: UpdateRefused) -> Result<Reply, OutOfMemory>
    ensures { IfOk result (λ reply. (cause ≢ causes.OutOfMemory) × (reply ≡ Refused cause)) }
{
    match cause {
        UpdateRefused::OutOfMemory => Err(OutOfMemory),
        UpdateRefused::Spent { limit } => Ok(Reply::Refused(UpdateRefused::Spent { limit })),
        UpdateRefused::Absent => Ok(Reply::Refused(UpdateRefused::Absent)),
        UpdateRefused::BlockFull { block } => Ok(Reply::Refused(UpdateRefused::BlockFull {
            block,
        })),
        UpdateRefused::RowsFull {
            block,
            needed,
            free,
        } => Ok(Reply::Refused(UpdateRefused::RowsFull {
            block,
            needed,
            free,
        })),
    }
}

/// The owner's reply to an update of one of its keys, whose turn it sends to all nodes to which it is linked.
#[tactic(auto, using(crate::proofs::OwnerSaid::accepting, crate::proofs::Sends::sending, crate::proofs::Runs::links_self))]
fn accept<R: Wait>(
    rt: &R,
    shape: Shape,
    number: u8,
    flows: &[Flow],
    asked: Update,
    sender: &mut Sender,
    ends: &mut [SendEnd],
) -> Result<Reply, OutOfMemory>
    requires stands { IsSenderOf shape number flows.now sender.old }
    requires owns { owner_of_key shape (updated_key asked) ≡ number }
    requires node { GoesToNode shape.nodes asked }
    requires ends { (length ends.old ≤ shape.nodes) × Every (λ end. end.size ≡ shape) ends.old }
    ensures stands { IsSenderOf shape number flows.now sender.new }
    ensures links { Each IsSameLink ends.old ends.new }
    ensures reply { IfOk result (λ reply. reply ≡ own_reply (opening_of shape flows.now) number
        (changes_in sender.old) asked) }
    ensures grown { OnOk result (changes_in sender.new ≡ own_after (opening_of shape flows.now)
        (changes_in sender.old) asked) }
    ensures sent { OnOk result (AreAllSent shape number flows.now (changes_in sender.old) ends.old →
        AreAllSent shape number flows.now (changes_in sender.new) ends.new) }
{
    match sender.accept(flows, asked) {
        Ok(turn) => {
            tell_each(rt, shape, sender, turn, 0, ends)?;
            Ok(Reply::Accepted {
                owner: number,
                turn,
            })
        }
        Err(cause) => refused(cause),
    }
}

/// The update that the event asks of the owner, if it asks one.
fn asked(shape: Shape, number: u8, event: &Event) -> Option<Update>
    requires { IsOwnRow shape event.now }
    ensures asks { IsAsked shape number event.now result }
    ensures node { IfSome result (λ update. GoesToNode shape.nodes update) }
{
    let update = match *event {
        Event::Set(flow) => Update::Set(flow),
        Event::Del(key) => Update::Del(key),
        Event::Packet { ingress: _, key: _ } => return None,
        Event::Carry {
            node: _,
            owner: _,
            turn: _,
            part: _,
        } => return None,
        Event::Sync => return None,
    };
    if shape.owner(place(shape, update.key()).block) == number {
        Some(update)
    } else {
        None
    }
}

/// How many updates there have been after the event.
fn counted(event: &Event, updates: u32) -> u32
    requires { updates + 1 < 2 ^ 32 }
    ensures { result ≤ updates + 1 }
{
    match event {
        Event::Set(_) | Event::Del(_) => updates + 1,
        Event::Packet { ingress: _, key: _ } | Event::Sync => updates,
        Event::Carry {
            node: _,
            owner: _,
            turn: _,
            part: _,
        } => updates,
    }
}

/// Answers the event, where that is one of the owner's updates. The update is of this number.
fn answer<R: Wait, G: Gate>(
    rt: &R,
    gate: &G,
    flows: &[Flow],
    event: &Event,
    update: u32,
    owner: &mut Owner,
) -> Result<(), OutOfMemory>
    requires stands { Stands flows.now owner.old }
    requires row { IsOwnRow owner.old.size event.now }
    ensures same { IsSameOwner owner.old owner.new }
    ensures stands { Stands flows.now owner.new }
    ensures answers { OnOk result (AnswersOne flows.now event.now owner.old owner.new) }
{
    let (shape, number) = (owner.shape, owner.number);
    let Some(asked) = asked(shape, number, event) else {
        return Ok(());
    };
    gate.before(Who::Owner(number), update);
    let said = accept(
        rt,
        shape,
        number,
        flows,
        asked,
        &mut owner.sender,
        owner.ends.as_mut_slice(),
    );
    gate.after(Who::Owner(number), update);
    owner.replies.push(said?)?;
    Ok(())
}

/// Answers the owner's updates among the events, one after the other.
fn answer_all<R: Wait, G: Gate>(
    rt: &R,
    gate: &G,
    flows: &[Flow],
    events: &[Event],
    first_update: u32,
    owner: &mut Owner,
) -> Result<(), OutOfMemory>
    requires few { first_update + length events.now < 2 ^ 32 }
    requires stands { Stands flows.now owner.old }
    requires rows { All (IsOwnRow owner.old.size) events.now }
    requires none { owner.old.replies ≡ [] }
    ensures same { IsSameOwner owner.old owner.new }
    ensures stands { Stands flows.now owner.new }
    ensures owned { OnOk result (HasOwned flows.now events.now owner.old owner.new) }
{
    let mut update = first_update;
    'events: for event in events {
        answer(rt, gate, flows, event, update, owner)?;
        update = counted(event, update);
    }
    Ok(())
}

/// An owner's work on the events of a phase: it answers its own updates among them, and sends each turn's messages to all nodes
/// to which it is linked. The flows are those with which the cluster was opened, and the first update among the events is of
/// this number.
///
/// Where memory is wanting it stops, and has failed. In both cases one more owner is done.
pub fn own_all<R: Wait, G: Gate>(
    rt: &R,
    gate: &G,
    done: &AtomicU64,
    flows: &[Flow],
    events: &[Event],
    first_update: u32,
    owner: &mut Owner,
)
    requires few { first_update + length events.now < 2 ^ 32 }
    requires stands { Stands flows.now owner.old }
    requires rows { All (IsOwnRow owner.old.size) events.now }
    ensures { OwnerDid flows.now events.now owner.old owner.new }
{
    owner.replies.clear();
    owner.failed = answer_all(rt, gate, flows, events, first_update, owner).is_err();
    done.fetch_add(1, Ordering::SeqCst);
}
