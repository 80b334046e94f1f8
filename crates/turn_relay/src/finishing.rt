//! What the caller does at a phase's end, with all ends of links in hand.
ghost use Rattle.std.specs.Prelude.{◌≡◌, ◌+◌, true, false, Some};
ghost use Rattle.turn_relay.specs.Each.{Each, Every, HasAt};
ghost use Rattle.turn_relay.specs.Finish.{Finishes, IsAtRestAt, IsDoneAt, IsLinkedAt, IsReadyAt, IsSettledAt};
ghost use Rattle.turn_relay.specs.Follow.{GoesOn};
ghost use Rattle.turn_relay.specs.OwnerState.{HasSentAll, Stands};
ghost use Rattle.turn_relay.specs.PartState.{link_of, taken_by};

use crate::applier::Applier;
use crate::applying::act_at;
use crate::owner::Owner;
use crate::part::Part;
use crate::state::State;
use flow_types::Flow;
use node_link::{SendEnd, Taken, settle};
use sb_io::Gate;
use std::sync::Wait;

/// Takes and applies the next message of a link, whose both ends are there: whether there was one.
fn settle_one<R: Wait, G: Gate>(
    rt: &R,
    gate: &G,
    node: u8,
    sender: &mut SendEnd,
    part: &mut Part,
) -> bool
    requires size { sender.old.size ≡ part.old.size }
    requires link { link_of part.old.end ≡ Some sender.old.line }
    ensures kept { sender.new ≡ sender.old }
    ensures on { GoesOn part.old part.new }
    ensures all { result ≡ false → taken_by part.new.end ≡ sender.old.messages }
{
    let shape = part.shape;
    let Some(end) = &mut part.end else {
        unreachable!()
    };
    let Ok(taken) = settle(rt, sender, end, shape) else {
        unreachable!()
    };
    match taken {
        Taken::Item(message) => {
            part.state = act_at(
                rt,
                gate,
                node,
                &mut part.table,
                &mut part.fib,
                part.state,
                message,
            );
            true
        }
        Taken::Empty => false,
    }
}

/// Takes and applies all that is left in a link.
#[tactic(auto, using(crate::proofs::Runs::on_self, crate::proofs::Runs::on_trans))]
fn settle_link<R: Wait, G: Gate>(rt: &R, gate: &G, node: u8, sender: &mut SendEnd, part: &mut Part)
    requires size { sender.old.size ≡ part.old.size }
    requires link { link_of part.old.end ≡ Some sender.old.line }
    ensures kept { sender.new ≡ sender.old }
    ensures on { GoesOn part.old part.new }
    ensures all { taken_by part.new.end ≡ sender.old.messages }
{
    'left: for _ in rt.forever() {
        if !settle_one(rt, gate, node, sender, part) {
            return;
        }
    }
    unreachable!()
}

/// Takes and applies all that is left in the owner's link to a node.
fn settle_node<R: Wait, G: Gate>(rt: &R, gate: &G, owner: &mut Owner, applier: &mut Applier)
    requires linked { IsLinkedAt owner.old applier.old }
    ensures kept { owner.new ≡ owner.old }
    ensures finishes { Finishes owner.old.number applier.old applier.new }
    ensures settled { IsSettledAt owner.old applier.new }
{
    let node = applier.node;
    let number = usize::from(owner.number);
    settle_link(
        rt,
        gate,
        node,
        &mut owner.ends[usize::from(node)],
        &mut applier.parts[number],
    );
}

/// Takes and applies all that is left in the owner's links.
fn settle_nodes<R: Wait, G: Gate>(rt: &R, gate: &G, owner: &mut Owner, appliers: &mut [Applier])
    requires linked { Every (IsLinkedAt owner.old) appliers.old }
    ensures kept { owner.new ≡ owner.old }
    ensures finishes { Each (Finishes owner.old.number) appliers.old appliers.new }
    ensures settled { Every (IsSettledAt owner.old) appliers.new }
{
    let Some((first, rest)) = appliers.split_first_mut() else {
        return;
    };
    settle_node(rt, gate, owner, first);
    settle_nodes(rt, gate, owner, rest);
}

/// Whether a node has applied all turns of the owner, all of whose messages it has taken. Else memory was wanting.
fn is_clear(flows: &[Flow], owner: &Owner, applier: &Applier) -> bool
    requires stands { Stands flows.now owner.now }
    requires sent { HasSentAll flows.now owner.now }
    requires done { IsDoneAt flows.now owner.now applier.now }
    ensures { result ≡ true → IsAtRestAt flows.now owner.now applier.now }
{
    // Only the contract speaks of the flows.
    let _ = flows;
    match applier.parts[usize::from(owner.number)].state {
        State::Clear => true,
        State::Failed => false,
        State::Stuck => unreachable!(),
    }
}

/// Whether each node has.
fn are_clear(flows: &[Flow], owner: &Owner, appliers: &[Applier]) -> bool
    requires stands { Stands flows.now owner.now }
    requires sent { HasSentAll flows.now owner.now }
    requires done { Every (IsDoneAt flows.now owner.now) appliers.now }
    ensures { result ≡ true → Every (IsAtRestAt flows.now owner.now) appliers.now }
{
    let Some((first, rest)) = appliers.split_first() else {
        return true;
    };
    is_clear(flows, owner, first) && are_clear(flows, owner, rest)
}

/// Takes and applies all that is left in the owner's links to these nodes, where all threads are taken in: whether the nodes
/// are up to date then. Else memory was wanting.
///
/// The flows are those with which the cluster was opened. It waits for readers that are inside a FIB's `find`.
#[tactic(auto, using(crate::proofs::Resting::finishing))]
pub fn finish<R: Wait, G: Gate>(
    rt: &R,
    gate: &G,
    flows: &[Flow],
    owner: &mut Owner,
    appliers: &mut [Applier],
) -> bool
    requires stands { Stands flows.now owner.old }
    requires sent { HasSentAll flows.now owner.old }
    requires ready { Every (IsReadyAt flows.now owner.old) appliers.old }
    ensures kept { owner.new ≡ owner.old }
    ensures finishes { Each (Finishes owner.old.number) appliers.old appliers.new }
    ensures rests { result ≡ true → Every (IsAtRestAt flows.now owner.old) appliers.new }
{
    settle_nodes(rt, gate, owner, appliers);
    are_clear(flows, owner, appliers)
}
