use out_of_memory::OutOfMemory;
use std::error::Error;
use std::fmt;

/// Why a list of flows isn't a map of a cluster. Places in the list are counted from 0.
#[derive(Clone, Copy, Debug, PartialEq, Eq)]
pub enum FlowsRefused {
    /// The first flow at fault has a node that the cluster doesn't have.
    NoSuchNode {
        /// The flow's place in the list.
        place: usize,
        /// The flow's node.
        node: u8,
    },
    /// The first flow at fault has the key of a flow before it. Its node is one of the cluster's.
    RepeatedKey {
        /// The flow's place in the list.
        place: usize,
    },
    /// Memory that the call asked for was not there.
    OutOfMemory,
}

impl From<OutOfMemory> for FlowsRefused {
    ghost use Rattle.std.specs.Prelude.{◌≡◌};
    ghost use Rattle.flow_reader.specs.declared.refused.FlowsRefused.TheVariants as causes;

    ghost from_gives = { λ _ refused. refused ≡ causes.OutOfMemory };

    fn from(_error: OutOfMemory) -> FlowsRefused {
        FlowsRefused::OutOfMemory
    }
}

impl fmt::Display for FlowsRefused {
    ghost use Rattle.std.specs.Prelude.{Some};
    ghost use Rattle.flow_reader.specs.FlowMap.{refused_text};

    ghost output = { λ refused. Some (refused_text refused) };

    fn fmt<W: fmt::Write>(&self, f: &mut fmt::Formatter<W>) -> fmt::Result {
        match self {
            FlowsRefused::NoSuchNode { place, node } => {
                write!(f, "flow {place}: no node {node} in the cluster")
            }
            FlowsRefused::RepeatedKey { place } => {
                write!(f, "flow {place}: a key that an earlier flow has")
            }
            FlowsRefused::OutOfMemory => f.write_str("out of memory"),
        }
    }
}

impl Error for FlowsRefused {}
