ghost use Rattle.std.specs.Prelude.{◌≡◌, ◌++◌, ◌∷◌, [], not, if◌then◌else◌, length, IfOk};
ghost use Rattle.flow_reader.specs.Opening.{has_key};

use crate::opening::Flows;
use flow_types::{Flow, FlowKey};
use indexmap::IndexSet;
use out_of_memory::OutOfMemory;
use std::alloc::Global;
use std::marker::Model;

/// The flows that were taken so far, with a set of their keys.
#[derive(Drop)]
pub(crate) struct KnownFlows {
    flows: Vec<Flow>,
    keys: IndexSet<FlowKey>,
}

impl Model for KnownFlows {
    ghost use Rattle.std.specs.Prelude.{List, ◌≡◌};
    ghost use Rattle.flow_types.specs.declared.record.Flow.{Flow};
    ghost use Rattle.flow_reader.specs.Opening.{keys_of};

    ghost Value = { List Flow };

    ghost view = { λ k. k.flows.items };

    ghost invariant = { λ k. k.keys.keys ≡ keys_of k.flows.items };
}

impl KnownFlows {
    pub(crate) fn new(alloc: Global) -> KnownFlows
        ensures { result ≡ [] }
    {
        KnownFlows {
            flows: Vec::new(alloc),
            keys: IndexSet::new(alloc),
        }
    }

    pub(crate) fn len(&self) -> usize
        ensures { result ≡ length self.now }
    {
        self.flows.len()
    }

    /// Adds a flow, unless one with its key is there, and says whether it did.
    pub(crate) fn add(&mut self, flow: Flow) -> Result<bool, OutOfMemory>
        ensures new_key { IfOk result (λ added. added ≡ not (has_key flow.key self.old)) }
        ensures flows { IfOk result (λ added. self.new ≡ (if added then self.old ++ flow ∷ [] else self.old)) }
    {
        self.flows.reserve(1)?;
        if !self.keys.insert(flow.key)? {
            return Ok(false);
        }
        self.flows.push(flow)?;
        Ok(true)
    }

    pub(crate) fn into_flows(self) -> Flows
        ensures { result ≡ self }
    {
        let KnownFlows { flows, keys: _ } = self;
        Flows::from_vec(flows)
    }
}
