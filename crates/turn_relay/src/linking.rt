//! How an owner and the nodes are linked.
ghost use Rattle.std.specs.Prelude.{◌≡◌, ◌+◌, ◌<◌, ◌≤◌, [], OnErr, OnOk, length};
ghost use Rattle.turn_relay.specs.Each.{Each, Every, HasAt};
ghost use Rattle.turn_relay.specs.Finish.{IsAtRestAt};
ghost use Rattle.turn_relay.specs.Linking.{AreFresh, HasMoreEnds, IsFreshAt, IsUnsent, KeepsOthers, LinksNode, LinksOne};
ghost use Rattle.turn_relay.specs.OwnerState.{HasSentAll, Stands, journal_in};

use crate::applier::Applier;
use crate::owner::Owner;
use crate::part::Part;
use flow_types::Flow;
use out_of_memory::OutOfMemory;
use std::alloc::Global;

/// Links an owner to the next node, where this is the node's part of the owner. After `OutOfMemory` nothing has changed.
fn link_part(alloc: Global, owner: &mut Owner, part: &mut Part) -> Result<(), OutOfMemory>
    requires size { part.old.size ≡ owner.old.size }
    requires room { length owner.old.ends < owner.old.size.nodes }
    ensures linked { OnOk result (LinksOne owner.old owner.new part.old part.new) }
    ensures refused_owner { OnErr result (owner.new ≡ owner.old) }
    ensures refused_part { OnErr result (part.new ≡ part.old) }
{
    owner.ends.reserve(1)?;
    let (sends, takes) = node_link::link(alloc, owner.shape)?;
    // There is room: `reserve` came first.
    let _ = owner.ends.push(sends);
    part.end = Some(takes);
    Ok(())
}

/// Links an owner to the next node, by the node's part of it.
fn link_at(alloc: Global, owner: &mut Owner, applier: &mut Applier) -> Result<(), OutOfMemory>
    requires part { HasAt owner.old.number (λ part. part.size ≡ owner.old.size) applier.old.parts }
    requires room { length owner.old.ends < owner.old.size.nodes }
    ensures { OnOk result (LinksNode owner.old owner.new applier.old applier.new) }
{
    let number = usize::from(owner.number);
    link_part(alloc, owner, &mut applier.parts[number])
}

/// Links an owner that has accepted nothing to the next node.
#[tactic(auto, using(crate::proofs::Linked::linking))]
fn link_node(
    alloc: Global,
    flows: &[Flow],
    owner: &mut Owner,
    applier: &mut Applier,
) -> Result<(), OutOfMemory>
    requires fresh { IsFreshAt flows.now owner.old (length owner.old.ends) applier.old }
    requires unsent { Every IsUnsent owner.old.ends }
    requires new { journal_in owner.old ≡ [] }
    requires room { length owner.old.ends < owner.old.size.nodes }
    ensures more { OnOk result (HasMoreEnds owner.old owner.new) }
    ensures one { OnOk result (length owner.new.ends ≡ length owner.old.ends + 1) }
    ensures unsent { OnOk result (Every IsUnsent owner.new.ends) }
    ensures others { OnOk result (KeepsOthers owner.old.number applier.old applier.new) }
    ensures rests { OnOk result (IsAtRestAt flows.now owner.new applier.new) }
{
    // Only the contract speaks of the flows.
    let _ = flows;
    link_at(alloc, owner, applier)
}

/// Links an owner that was opened with these flows, and has accepted nothing, to these nodes, in their order from the next node
/// on. After `OutOfMemory` some are linked.
#[tactic(auto, using(crate::proofs::Linked::going_on))]
fn link_nodes(
    alloc: Global,
    flows: &[Flow],
    owner: &mut Owner,
    appliers: &mut [Applier],
) -> Result<(), OutOfMemory>
    requires fresh { AreFresh flows.now owner.old (length owner.old.ends) appliers.old }
    requires unsent { Every IsUnsent owner.old.ends }
    requires new { journal_in owner.old ≡ [] }
    requires room { length owner.old.ends + length appliers.old ≤ owner.old.size.nodes }
    ensures more { OnOk result (HasMoreEnds owner.old owner.new) }
    ensures count { OnOk result (length owner.new.ends ≡ length owner.old.ends + length appliers.old) }
    ensures unsent { OnOk result (Every IsUnsent owner.new.ends) }
    ensures others { OnOk result (Each (KeepsOthers owner.old.number) appliers.old appliers.new) }
    ensures rests { OnOk result (Every (IsAtRestAt flows.now owner.new) appliers.new) }
{
    let Some((first, rest)) = appliers.split_first_mut() else {
        return Ok(());
    };
    link_node(alloc, flows, owner, first)?;
    link_nodes(alloc, flows, owner, rest)
}

/// Links an owner to all nodes, where each node's part of it isn't linked yet and the owner has accepted nothing.
///
/// The flows are those with which the cluster was opened. After `OutOfMemory` some nodes are linked.
#[tactic(auto, using(crate::proofs::Linked::all_unsent))]
pub fn link(
    alloc: Global,
    flows: &[Flow],
    owner: &mut Owner,
    appliers: &mut [Applier],
) -> Result<(), OutOfMemory>
    requires unlinked { owner.old.ends ≡ [] }
    requires new { journal_in owner.old ≡ [] }
    requires nodes { length appliers.old ≤ owner.old.size.nodes }
    requires fresh { AreFresh flows.now owner.old 0 appliers.old }
    ensures more { OnOk result (HasMoreEnds owner.old owner.new) }
    ensures one_each { OnOk result (length owner.new.ends ≡ length appliers.old) }
    ensures sent { OnOk result (HasSentAll flows.now owner.new) }
    ensures others { OnOk result (Each (KeepsOthers owner.old.number) appliers.old appliers.new) }
    ensures rests { OnOk result (Every (IsAtRestAt flows.now owner.new) appliers.new) }
{
    link_nodes(alloc, flows, owner, appliers)
}
