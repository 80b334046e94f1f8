ghost use Rattle.std.specs.Prelude.{◌≡◌, ◌≢◌, ◌↔◌, ℕ, ◌+◌, ◌<◌, ◌≤◌, ◌%◌, [], length, OnOk, OnErr, IfOk, IsOk, IsErr, IsErrOf};
ghost use Rattle.block_layout.specs.Limits.{group_count};
ghost use Rattle.flow_types.specs.Key.{number};
ghost use Rattle.flow_types.specs.Map.{AreDistinct};
ghost use Rattle.group_search.specs.Home.{Home};
ghost use Rattle.flow_types.specs.Key.{IsKeyValue};
ghost use Rattle.partial_fib.specs.declared.refused.FibRefused.TheVariants.{Foreign, Repeat, Early};
ghost use Rattle.partial_fib.specs.declared.refused.FibRefused.TheVariants as causes;
ghost use Rattle.partial_fib.specs.Fib.{fib_after, is_handled_of, with_turn};
ghost use Rattle.delta_codec.specs.Messages.{FibMessageFits, IsNextTurn};
ghost use Rattle.delta_codec.specs.Op.{IsPut};
ghost use Rattle.delta_codec.specs.Turns.{IsEarly, IsForeign, IsRepeat};
ghost use Rattle.partial_fib.specs.Store.{IsWhole, record_among, state_of, store_with, version_in};

use crate::records::Records;
use crate::refused::FibRefused;
use crate::seen::FibSeen;
use crate::slot::{slot, slots};
use delta_codec::FibMessage;
use flow_types::{Flow, FlowKey, Shape};
use hash_family::place;
use out_of_memory::OutOfMemory;
use std::alloc::{AllocError, Global};
use std::marker::Model;

/// One node's FIB of one owner: the records of the keys in the owner's blocks that the node handles, by the owner's turns
/// that it has taken.
#[derive(Drop)]
pub struct Fib {
    shape: Shape,
    node: u8,
    owner: u8,
    records: Records,
    versions: Vec<u32>,
    taken: u32,
}

impl Model for Fib {
    ghost use Rattle.partial_fib.specs.Store.{FibStore, KeepsVersions};

    ghost Value = { FibStore };

    ghost view = { λ f. record { size = f.shape; node = f.node; owner = f.owner; entries = f.records; counts = f.versions.items; taken = f.taken } };

    ghost invariant = { λ f. KeepsVersions f.shape f.owner f.taken f.versions.items };
}

impl Fib {
    /// The FIB with the records of the flows that the node handles in the owner's blocks, before the owner's first turn.
    ///
    /// The flows are those with which the cluster was opened. Node and owner are among the cluster's nodes, and the owner
    /// has at least one block.
    pub fn open(
        alloc: Global,
        shape: Shape,
        node: u8,
        owner: u8,
        flows: &[Flow],
    ) -> Result<Fib, OutOfMemory>
        requires distinct { AreDistinct flows.now }
        requires node { node < shape.nodes }
        requires owner { owner < shape.nodes }
        requires has_a_block { owner < shape.blocks }
        ensures { IfOk result (λ fib. state_of fib ≡ fib_after shape node owner flows.now []) }
    {
        Ok(Fib {
            shape,
            node,
            owner,
            records: handled(alloc, shape, node, owner, flows)?,
            versions: vec![in alloc; 0; slots(shape)]?,
            taken: 0,
        })
    }

    /// Takes the owner's next turn: its key is put or dropped, and the version of its group rises by 1.
    ///
    /// The message fits the cluster's shape.
    pub fn apply(&mut self, message: &FibMessage) -> Result<(), FibRefused>
        requires { FibMessageFits self.old.size message.now }
        ensures taken { OnOk result (state_of self.new ≡ with_turn (state_of self.old) message.now) }
        ensures foreign { (owner : ℕ) → IsErrOf result (Foreign owner) ↔ IsForeign self.old.owner message.now.owner owner }
        ensures repeat { (have : ℕ) → IsErrOf result (Repeat have) ↔ IsRepeat self.old.owner self.old.taken message.now.owner message.now.turn have }
        ensures early { (have : ℕ) → IsErrOf result (Early have) ↔ IsEarly self.old.owner self.old.taken message.now.owner message.now.turn have }
        // Only a message that puts a record can lack memory.
        ensures memory { IsErrOf result causes.OutOfMemory → IsPut message.now.op }
        ensures refused { OnErr result (self.new ≡ self.old) }
    {
        if let Err(refused) = self.awaits(message) {
            return Err(refused);
        }
        self.take(message)?;
        Ok(())
    }

    /// Whether the message is the owner's next turn, or why it isn't. It takes no memory.
    pub(crate) fn awaits(&self, message: &FibMessage) -> Result<(), FibRefused>
        requires { FibMessageFits self.now.size message.now }
        ensures next { IsOk result ↔ IsNextTurn self.now.owner self.now.taken message.now }
        ensures foreign { (owner : ℕ) → IsErrOf result (Foreign owner) ↔ IsForeign self.now.owner message.now.owner owner }
        ensures repeat { (have : ℕ) → IsErrOf result (Repeat have) ↔ IsRepeat self.now.owner self.now.taken message.now.owner message.now.turn have }
        ensures early { (have : ℕ) → IsErrOf result (Early have) ↔ IsEarly self.now.owner self.now.taken message.now.owner message.now.turn have }
        ensures memory { ¬ IsErrOf result causes.OutOfMemory }
    {
        if message.owner != self.owner {
            return Err(FibRefused::Foreign {
                owner: message.owner,
            });
        }
        let have = self.taken;
        if message.turn <= have {
            return Err(FibRefused::Repeat { have });
        }
        if message.turn > have + 1 {
            return Err(FibRefused::Early { have });
        }
        Ok(())
    }

    /// Takes the owner's next turn.
    pub(crate) fn take(&mut self, message: &FibMessage) -> Result<(), OutOfMemory>
        requires fits { FibMessageFits self.old.size message.now }
        requires next { IsNextTurn self.old.owner self.old.taken message.now }
        ensures kept { OnOk result (self.new ≡ store_with self.old message.now) }
        ensures taken { OnOk result (state_of self.new ≡ with_turn (state_of self.old) message.now) }
        // Only a message that puts a record can lack memory.
        ensures memory { IsErr result → IsPut message.now.op }
        ensures refused { OnErr result (self.new ≡ self.old) }
    {
        self.records.change(message.op)?;
        self.versions[slot(self.shape, message.block, message.group)] += 1;
        self.taken += 1;
        Ok(())
    }

    /// The version of a group and the record of a key of it. It takes no memory.
    ///
    /// The block belongs to the owner, and the group is below 64.
    pub fn find(&self, block: u16, group: u8, key: FlowKey) -> FibSeen
        requires within { block < self.now.size.blocks }
        requires owned { block % self.now.size.nodes ≡ self.now.owner }
        requires in_block { group < group_count }
        ensures version { result.version ≡ (state_of self.now).versions (record { block = block; group = group }) }
        ensures answer { result.answer ≡ (state_of self.now).records (number key) }
    {
        FibSeen {
            version: self.versions[slot(self.shape, block, group)],
            answer: self.records.find(key),
        }
    }

    /// How many of the owner's turns it has taken. It takes no memory.
    pub fn taken(&self) -> u32
        ensures { result ≡ self.now.taken }
    {
        self.taken
    }

    /// The cluster's shape.
    pub(crate) fn shape(&self) -> Shape
        ensures { result ≡ self.now.size }
    {
        self.shape
    }

    /// How many keys have a record.
    pub(crate) fn len(&self) -> usize
        ensures count { result ≡ length self.now.entries }
        ensures whole { IsWhole self.now }
        ensures few { (at : Home) → version_in self.now.size self.now.owner self.now.counts at ≤ self.now.taken }
    {
        self.records.len()
    }
}

impl Clone for Fib {
    ghost use Rattle.std.specs.Prelude.{◌≡◌};

    ghost is_clone = { λ fib copy. copy ≡ fib };

    fn clone(&self) -> Result<Fib, AllocError> {
        Ok(Fib {
            shape: self.shape,
            node: self.node,
            owner: self.owner,
            records: self.records.clone()?,
            versions: self.versions.clone()?,
            taken: self.taken,
        })
    }
}

/// The records of the flows that the node handles in the owner's blocks.
fn handled(
    alloc: Global,
    shape: Shape,
    node: u8,
    owner: u8,
    flows: &[Flow],
) -> Result<Records, OutOfMemory>
    requires { AreDistinct flows.now }
    ensures { IfOk result (λ records. record_among records ≡ (fib_after shape node owner flows.now []).records) }
{
    let mut records = Records::new(alloc);
    'flows: for flow in flows {
        if is_handled(shape, node, owner, *flow) {
            records.put(flow.key, flow.info)?;
        }
    }
    Ok(records)
}

/// Whether the node handles the flow, and the flow's block is the owner's.
fn is_handled(shape: Shape, node: u8, owner: u8, flow: Flow) -> bool
    ensures value { result ≡ is_handled_of shape node owner flow }
    ensures sized { IsKeyValue flow.key }
{
    flow.node == node && shape.owner(place(shape, flow.key).block) == owner
}
