ghost use Rattle.std.specs.Prelude.{◌≡◌, ◌<◌, ◌++◌, ◌∷◌, [], All, IfErr, IfOk};
ghost use Rattle.flow_types.specs.Map.{AreDistinct};
ghost use Rattle.flow_types.specs.declared.record.Flow.{Flow};
ghost use Rattle.flow_reader.specs.FlowMap.{FaultAfter, IsFlowMap, IsNext, Refuses};

use crate::known::KnownFlows;
use crate::opening::Flows;
use crate::refused::FlowsRefused;
use flow_types::{Flow, Shape};
use std::alloc::Global;
use std::marker::Model;

/// Flows with which a cluster of this shape can be opened: no two have one key, and each one's node is one of the
/// cluster's.
#[derive(Debug, Drop)]
pub struct FlowMap {
    shape: Shape,
    flows: Flows,
}

impl Model for FlowMap {
    ghost use Rattle.flow_reader.specs.FlowMap.{IsFlowMap, Mapped};

    ghost Value = { Mapped };

    ghost view = { λ m. record { shape = m.shape; flows = m.flows } };

    ghost invariant = { λ m. IsFlowMap m.shape m.flows };
}

impl FlowMap {
    /// A map of any list of flows, in their order, or what is wrong with the first flow that can't be one of it: its node is
    /// looked at first, and then whether an earlier flow has its key.
    pub fn of(alloc: Global, shape: Shape, flows: &[Flow]) -> Result<FlowMap, FlowsRefused>
        ensures map { IfOk result (λ map. map ≡ record { shape = shape; flows = flows.now }) }
        ensures sound { IfOk result (λ map. IsFlowMap shape flows.now) }
        ensures refused { IfErr result (Refuses shape flows.now) }
    {
        let flows = known_of(alloc, shape, flows)?.into_flows();
        Ok(FlowMap { shape, flows })
    }

    /// The cluster's shape.
    pub fn shape(&self) -> Shape
        ensures { result ≡ self.now.shape }
    {
        self.shape
    }

    /// The flows, in the order in which they were given.
    pub fn flows(&self) -> &[Flow]
        ensures value { result.now ≡ self.now.flows }
        ensures distinct { AreDistinct result.now }
        ensures handled { All (λ (flow : Flow). flow.node < self.now.shape.nodes) result.now }
    {
        self.flows.as_slice()
    }

    /// The flows without the shape.
    pub fn into_flows(self) -> Flows
        ensures value { result ≡ self.flows }
        ensures distinct { AreDistinct result }
        ensures handled { All (λ (flow : Flow). flow.node < self.shape.nodes) result }
    {
        self.flows
    }
}

/// The flows one by one, or what is wrong with the first that can't follow those before it.
fn known_of(alloc: Global, shape: Shape, flows: &[Flow]) -> Result<KnownFlows, FlowsRefused>
    ensures known { IfOk result (λ known. known ≡ flows.now) }
    ensures sound { IfOk result (λ known. IsFlowMap shape flows.now) }
    ensures refused { IfErr result (Refuses shape flows.now) }
{
    let mut known = KnownFlows::new(alloc);
    'flows: for flow in flows {
        take_flow(shape, *flow, &mut known)?;
    }
    Ok(known)
}

/// Adds a flow, unless it can't follow those that are there.
fn take_flow(shape: Shape, flow: Flow, known: &mut KnownFlows) -> Result<(), FlowsRefused>
    ensures added { IfOk result (λ _. known.new ≡ known.old ++ flow ∷ []) }
    ensures next { IfOk result (λ _. IsNext shape known.old flow) }
    ensures refused { IfErr result (FaultAfter shape known.old flow) }
{
    let place = known.len();
    if u16::from(flow.node) >= shape.nodes() {
        let node = flow.node;
        return Err(FlowsRefused::NoSuchNode { place, node });
    }
    if !known.add(flow)? {
        return Err(FlowsRefused::RepeatedKey { place });
    }
    Ok(())
}
