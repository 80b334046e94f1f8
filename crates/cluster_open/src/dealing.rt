//! How a node's flows are dealt to its FIBs, so that each FIB is opened with its own flows alone.

ghost use Rattle.std.specs.Prelude.{◌≡◌, ◌==◌, ◌++◌, ◌∷◌, [], All, IfOk, OnErr, OnOk, replicate};
ghost use Rattle.flow_types.specs.Key.{IsKeyValue};
ghost use Rattle.cluster_open.specs.Dealing.{AreDealt};

use flow_types::{Flow, Shape};
use hash_family::place;
use std::alloc::{AllocError, Global};
use std::marker::Model;

/// The flows of one FIB, in the order in which they came.
#[derive(Debug, Drop)]
pub(crate) struct FibFlows {
    flows: Vec<Flow>,
}

impl Model for FibFlows {
    ghost use Rattle.std.specs.Prelude.{List};
    ghost use Rattle.flow_types.specs.declared.record.Flow.{Flow};

    ghost Value = { List Flow };

    ghost view = { λ f. f.flows.items };
}

impl FibFlows {
    /// No flows. It takes no memory.
    fn new(alloc: Global) -> FibFlows
        ensures { result ≡ [] }
    {
        FibFlows {
            flows: Vec::new(alloc),
        }
    }

    /// Puts a flow behind the others.
    fn push(&mut self, flow: Flow) -> Result<(), AllocError>
        ensures ok { OnOk result (self.new ≡ self.old ++ flow ∷ []) }
        ensures err { OnErr result (self.new ≡ self.old) }
    {
        self.flows.push(flow)?;
        Ok(())
    }

    /// The flows, in the order in which they came.
    pub(crate) fn as_slice(&self) -> &[Flow]
        ensures { result.now ≡ self.now }
    {
        self.flows.as_slice()
    }
}

/// The flows that a node handles, by the owner of their block.
pub(crate) fn deal(
    alloc: Global,
    shape: Shape,
    node: u8,
    flows: &[Flow],
) -> Result<Vec<FibFlows>, AllocError>
    ensures dealt { IfOk result (λ dealt. AreDealt shape node flows.now dealt.items) }
    ensures values { OnOk result (All (λ flow. IsKeyValue flow.key) flows.now) }
{
    let mut dealt = no_flows(alloc, shape.nodes())?;
    'flows: for flow in flows {
        if is_handled_by(node, *flow) {
            let owner = shape.owner(place(shape, flow.key).block);
            dealt[usize::from(owner)].push(*flow)?;
        }
    }
    Ok(dealt)
}

/// So many FIBs without flows.
fn no_flows(alloc: Global, count: u16) -> Result<Vec<FibFlows>, AllocError>
    ensures { IfOk result (λ dealt. dealt.items ≡ replicate count []) }
{
    let mut dealt = Vec::with_capacity(alloc, usize::from(count))?;
    'empty: for _ in 0..count {
        dealt.push(FibFlows::new(alloc))?;
    }
    Ok(dealt)
}

fn is_handled_by(node: u8, flow: Flow) -> bool
    ensures value { result ≡ (flow.node == node) }
    ensures sized { IsKeyValue flow.key }
{
    flow.node == node
}
