//! The replies of a phase's workers, for merging.
ghost use Rattle.std.specs.Prelude.{◌≡◌, ◌≤◌, ◌++◌, ℕ, IfOk, OnOk, false, length, map, true};
ghost use Rattle.std.specs.List.{slice_get};
ghost use Rattle.storm_model.specs.Merging.{queues_of};
ghost use Rattle.turn_relay.specs.Each.{Each, Every};
ghost use Rattle.cluster_storm.specs.Taking.{HasGiven, HasGivenLane, replies_of_lane, replies_of_owner};

use crate::merging::Queue;
use out_of_memory::OutOfMemory;
use std::alloc::Global;
use storm_lane::Lane;
use turn_relay::Owner;

/// The owners' replies of a phase, as queues by the nodes' numbers: a node that is no owner has none.
///
/// The owners have none left.
#[tactic(auto, using(crate::proofs::Takings::queues_of_owners))]
pub(crate) fn owners_replies(
    alloc: Global,
    nodes: u16,
    owners: &mut [Owner],
) -> Result<Vec<Queue>, OutOfMemory>
    requires few { length owners.old ≤ nodes }
    ensures many { IfOk result (λ queues. length queues.items ≡ nodes) }
    ensures queues { IfOk result (λ queues. (number : ℕ) → queues_of queues.items number ≡ replies_of_owner
        (slice_get owners.old number)) }
    ensures left { OnOk result (Each HasGiven owners.old owners.new) }
{
    let mut queues = Vec::with_capacity(alloc, usize::from(nodes))?;
    give_owners(alloc, owners, &mut queues)?;
    pad(alloc, usize::from(nodes), &mut queues)?;
    Ok(queues)
}

/// Each owner's replies are behind the queues.
fn give_owners(
    alloc: Global,
    owners: &mut [Owner],
    queues: &mut Vec<Queue>,
) -> Result<(), OutOfMemory>
    ensures queues { OnOk result (queues.new.items ≡ queues.old.items ++ map (λ owner. owner.replies)
        owners.old) }
    ensures left { OnOk result (Each HasGiven owners.old owners.new) }
{
    let Some((first, others)) = owners.split_first_mut() else {
        return Ok(());
    };
    queues.push(Queue::new(first.take_replies(alloc)))?;
    give_owners(alloc, others, queues)
}

/// Empty queues are behind the others, so that there are `many`.
fn pad(alloc: Global, many: usize, queues: &mut Vec<Queue>) -> Result<(), OutOfMemory>
    requires few { length queues.old.items ≤ many }
    ensures many { OnOk result (length queues.new.items ≡ many) }
    ensures same { OnOk result ((number : ℕ) → queues_of queues.new.items number ≡ queues_of queues.old.items
        number) }
{
    'empty: for _ in queues.len()..many {
        queues.push(Queue::new(Vec::new(alloc)))?;
    }
    Ok(())
}

/// The lanes' replies of a phase, as queues by the lanes' numbers.
///
/// The lanes have none left.
#[tactic(auto, using(crate::proofs::Takings::queues_of_lanes))]
pub(crate) fn lanes_replies(alloc: Global, lanes: &mut [Lane]) -> Result<Vec<Queue>, OutOfMemory>
    ensures many { IfOk result (λ queues. length queues.items ≡ length lanes.old) }
    ensures queues { IfOk result (λ queues. (number : ℕ) → queues_of queues.items number ≡ replies_of_lane
        (slice_get lanes.old number)) }
    ensures left { OnOk result (Each HasGivenLane lanes.old lanes.new) }
{
    let mut queues = Vec::with_capacity(alloc, lanes.len())?;
    give_lanes(alloc, lanes, &mut queues)?;
    Ok(queues)
}

/// Each lane's replies are behind the queues.
fn give_lanes(alloc: Global, lanes: &mut [Lane], queues: &mut Vec<Queue>) -> Result<(), OutOfMemory>
    ensures queues { OnOk result (queues.new.items ≡ queues.old.items ++ map (λ lane. lane.replies)
        lanes.old) }
    ensures left { OnOk result (Each HasGivenLane lanes.old lanes.new) }
{
    let Some((first, others)) = lanes.split_first_mut() else {
        return Ok(());
    };
    queues.push(Queue::new(first.take_replies(alloc)))?;
    give_lanes(alloc, others, queues)
}

/// Whether no worker met want of memory.
pub(crate) fn have_all_worked(owners: &[Owner], lanes: &[Lane]) -> bool
    ensures { result ≡ true → Every (λ owner. owner.failed ≡ false) owners.now ×
        Every (λ lane. lane.failed ≡ false) lanes.now }
{
    have_owners_worked(owners) && have_lanes_worked(lanes)
}

/// Whether no owner met want of memory.
fn have_owners_worked(owners: &[Owner]) -> bool
    ensures { result ≡ true → Every (λ owner. owner.failed ≡ false) owners.now }
{
    let Some((first, others)) = owners.split_first() else {
        return true;
    };
    !first.failed() && have_owners_worked(others)
}

/// Whether no lane met want of memory.
fn have_lanes_worked(lanes: &[Lane]) -> bool
    ensures { result ≡ true → Every (λ lane. lane.failed ≡ false) lanes.now }
{
    let Some((first, others)) = lanes.split_first() else {
        return true;
    };
    !first.failed() && have_lanes_worked(others)
}
