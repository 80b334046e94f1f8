//! How a storm is made of its cluster's parts: its seats, its lanes, and the links between owners and nodes.
ghost use Rattle.std.specs.Prelude.{◌≡◌, ◌+◌, ◌<◌, ◌≤◌, ◌^◌, IfOk, OnOk, length, map, min, true};
ghost use Rattle.cluster_open.specs.Opened.{AreOpenedNodes, AreOpenedSenders};
ghost use Rattle.run_model.specs.Laws.{CanBeOpened, no_journals};
ghost use Rattle.storm_lane.specs.Lane.{AreWhole, all_seats};
ghost use Rattle.turn_relay.specs.Each.{AllFrom, Each, Every};
ghost use Rattle.turn_relay.specs.Finish.{IsQuietAt};
ghost use Rattle.turn_relay.specs.Follow.{works};
ghost use Rattle.turn_relay.specs.Linking.{HasMoreEnds, KeepsOthers};
ghost use Rattle.turn_relay.specs.OwnerState.{HasLinks, HasSentAll};
ghost use Rattle.cluster_storm.specs.Ending.{KeepsBefore};
ghost use Rattle.cluster_storm.specs.Opening.{AreFreshNodes, AreNewOwners, CanBeLinked, IsLaneOf, IsSenderAt, IsUnlinked, KeepsTables, ReadsAll};
ghost use Rattle.cluster_storm.specs.Rest.{AreLinkedFor, IsAtRest, journals_in, opening_of};

use crate::dealing::{is_working, working_owners};
use crate::seating::seat;
use crate::stage::Storm;
use cluster_open::ClusterParts;
use flow_reader::Flows;
use flow_types::{Flow, Shape};
use out_of_memory::OutOfMemory;
use packet_reader::Event;
use std::alloc::Global;
use std::sync::Wait;
use std::thread::{Threads, available_parallelism};
use storm_lane::{Lane, OwnerReaders};
use turn_log::Sender;
use turn_relay::{Applier, Owner, close_all, link};

/// The storm of a cluster that was opened with these flows, with this number of lanes.
///
/// Only owners that have an update in the script are linked to the nodes.
///
/// After an `Err` nothing is left that would have to be closed.
pub(crate) fn make_storm<R: Threads + Wait>(
    rt: &R,
    alloc: Global,
    shape: Shape,
    flows: Flows,
    parts: ClusterParts,
    script: &[Event],
    lanes: u8,
) -> Result<Storm, OutOfMemory>
    requires some { 0 < lanes }
    requires can { CanBeOpened (record { size = shape; flows = flows }) }
    requires owners { AreOpenedSenders shape flows parts.owners.items }
    requires nodes { AreOpenedNodes shape flows parts.nodes.items }
    ensures rests { IfOk result IsAtRest }
    ensures opened { IfOk result (λ storm. opening_of storm ≡ record { size = shape; flows = flows }) }
    ensures linked { IfOk result (λ storm. AreLinkedFor storm script.now) }
    ensures lanes { IfOk result (λ storm. length storm.lanes ≡ lanes) }
    ensures new { IfOk result (λ storm. journals_in storm.size storm.owners ≡ no_journals
        (opening_of storm)) }
{
    let ClusterParts { owners, nodes } = parts;
    let mut owners = owners_of(alloc, shape, owners)?;
    let (mut appliers, readers) = seat(rt, alloc, shape, flows.as_slice(), nodes, lanes)?;
    match join(
        alloc,
        shape,
        flows.as_slice(),
        script,
        lanes,
        owners.as_mut_slice(),
        appliers.as_mut_slice(),
        readers,
    ) {
        Ok(lanes) => Ok(Storm {
            shape,
            flows,
            owners,
            appliers,
            lanes,
            threads: threads(rt, shape),
        }),
        Err(_) => {
            close_all(rt, appliers);
            Err(OutOfMemory)
        }
    }
}

/// How many threads the nodes' appliers are dealt to: as many as there are processors, but at least four, and no more than there
/// are nodes.
fn threads<R: Threads>(rt: &R, shape: Shape) -> usize
    ensures least { min 4 shape.nodes ≤ result }
    ensures most { result ≤ shape.nodes }
{
    let processors = match available_parallelism(rt) {
        Ok(processors) => processors.get(),
        Err(_) => 4,
    };
    processors.max(4).min(usize::from(shape.nodes()))
}

/// The owners of these senders, by number. None has a link yet.
fn owners_of(alloc: Global, shape: Shape, senders: Vec<Sender>) -> Result<Vec<Owner>, OutOfMemory>
    requires few { length senders.items ≤ 256 }
    requires senders { AllFrom (IsSenderAt shape) 0 senders.items }
    ensures of { IfOk result (λ owners. map (λ owner. owner.sender) owners.items ≡ senders.items) }
    ensures unlinked { IfOk result (λ owners. AllFrom (IsUnlinked shape) 0 owners.items) }
{
    let mut owners = Vec::with_capacity(alloc, senders.len())?;
    'senders: for sender in senders {
        let number = owners.len() as u8;
        owners.push(Owner::new(alloc, shape, number, sender))?;
    }
    Ok(owners)
}

/// Links the owners that have an update in the script to the nodes, and makes the lanes.
///
/// After `OutOfMemory` some owners are linked.
fn join(
    alloc: Global,
    shape: Shape,
    flows: &[Flow],
    script: &[Event],
    lanes: u8,
    owners: &mut [Owner],
    appliers: &mut [Applier],
    readers: Vec<Vec<OwnerReaders>>,
) -> Result<Vec<Lane>, OutOfMemory>
    requires some { 0 < lanes }
    requires can { CanBeOpened (record { size = shape; flows = flows.now }) }
    requires owners { AreNewOwners shape flows.now owners.old }
    requires nodes { AreFreshNodes shape flows.now appliers.old }
    requires lanes { length readers.items ≡ lanes }
    requires readers { Every (λ own. ReadsAll shape appliers.old own.items) readers.items }
    ensures rests { IfOk result (λ made. IsAtRest
        (record {
          size = shape;
          flows = flows.now;
          owners = owners.new;
          appliers = appliers.new;
          lanes = made.items;
        })) }
    ensures linked { IfOk result (λ made. AreLinkedFor
        (record {
          size = shape;
          flows = flows.now;
          owners = owners.new;
          appliers = appliers.new;
          lanes = made.items;
        }) script.now) }
    ensures lanes { IfOk result (λ made. length made.items ≡ lanes) }
    ensures new { OnOk result (journals_in shape owners.new ≡ no_journals
        (record { size = shape; flows = flows.now })) }
{
    let changing = working_owners(alloc, shape, script)?;
    link_all(alloc, flows, changing.as_slice(), 0, owners, appliers)?;
    lanes_of(alloc, shape, lanes, readers)
}

/// Links an owner to all nodes, if it is one of those that change.
///
/// The flows are those of the opening. After `OutOfMemory` some nodes are linked.
#[tactic(auto, using(crate::proofs::Unlinked::unlinked))]
fn link_one(
    alloc: Global,
    flows: &[Flow],
    changing: &[bool],
    owner: &mut Owner,
    appliers: &mut [Applier],
) -> Result<(), OutOfMemory>
    requires can { CanBeLinked flows.now appliers.old owner.old }
    ensures more { OnOk result (HasMoreEnds owner.old owner.new) }
    ensures sent { OnOk result (HasSentAll flows.now owner.new) }
    ensures others { OnOk result (Each (KeepsOthers owner.old.number) appliers.old appliers.new) }
    ensures quiet { OnOk result (Every (IsQuietAt flows.now owner.new) appliers.new) }
    ensures linked { OnOk result (works changing.now owner.new.number ≡ true → HasLinks owner.new) }
{
    if !is_working(changing, usize::from(owner.number())) {
        return Ok(());
    }
    link(alloc, flows, owner, appliers)
}

/// Links the owners from this one on that change to all nodes.
///
/// The flows are those of the opening. After `OutOfMemory` some are linked.
#[tactic(auto, using(crate::proofs::Linkings::linkings))]
fn link_all(
    alloc: Global,
    flows: &[Flow],
    changing: &[bool],
    first: usize,
    owners: &mut [Owner],
    appliers: &mut [Applier],
) -> Result<(), OutOfMemory>
    requires room { first + length owners.old < 2 ^ 64 }
    requires numbered { AllFrom (λ number owner. owner.number ≡ number) first owners.old }
    requires can { Every (CanBeLinked flows.now appliers.old) owners.old }
    ensures more { OnOk result (Each HasMoreEnds owners.old owners.new) }
    ensures sent { OnOk result (Every (HasSentAll flows.now) owners.new) }
    ensures parts { OnOk result (Each KeepsTables appliers.old appliers.new) }
    ensures before { OnOk result (Each (KeepsBefore first) appliers.old appliers.new) }
    ensures quiet { OnOk result (Every (λ owner. Every (IsQuietAt flows.now owner) appliers.new) owners.new) }
    ensures linked { OnOk result (Every (λ owner. works changing.now owner.number ≡ true → HasLinks owner)
        owners.new) }
{
    let Some((owner, others)) = owners.split_first_mut() else {
        return Ok(());
    };
    link_one(alloc, flows, changing, owner, appliers)?;
    link_all(alloc, flows, changing, first + 1, others, appliers)
}

/// A lane with each of these readers, by number.
fn lanes_of(
    alloc: Global,
    shape: Shape,
    lanes: u8,
    readers: Vec<Vec<OwnerReaders>>,
) -> Result<Vec<Lane>, OutOfMemory>
    requires lanes { length readers.items ≡ lanes }
    requires whole { Every (λ own. AreWhole shape (all_seats own.items)) readers.items }
    ensures of { IfOk result (λ made. map (λ lane. lane.readers) made.items ≡ map (λ own. own.items)
        readers.items) }
    ensures numbered { IfOk result (λ made. AllFrom (IsLaneOf shape lanes) 0 made.items) }
{
    let mut made = Vec::with_capacity(alloc, usize::from(lanes))?;
    'readers: for own in readers {
        let number = made.len() as u8;
        made.push(Lane::new(alloc, shape, number, lanes, own))?;
    }
    Ok(made)
}
