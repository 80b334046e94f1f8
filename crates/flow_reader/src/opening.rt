ghost use Rattle.std.specs.Prelude.{◌≡◌};

use flow_types::{Flow, Shape};
use std::alloc::AllocError;
use std::marker::Model;

/// The greatest number of octets of an input.
pub const MOST_OCTETS: usize = 67_108_864;

/// What the rows up to `begin` say.
#[derive(Debug, Drop)]
pub struct Opening {
    /// The cluster's shape.
    pub shape: Shape,
    /// The flows, in the order of their rows. No two have the same key.
    pub flows: Flows,
    /// The number of the row `begin`, counted from 1.
    pub begin_row: u32,
}

/// The flows of an opening. A contract sees them as a list.
#[derive(Debug, Drop)]
pub struct Flows {
    flows: Vec<Flow>,
}

impl Model for Flows {
    ghost use Rattle.std.specs.Prelude.{List};
    ghost use Rattle.flow_types.specs.declared.record.Flow.{Flow};

    ghost Value = { List Flow };

    ghost view = { λ f. f.flows.items };
}

impl Flows {
    pub(crate) fn from_vec(flows: Vec<Flow>) -> Flows
        ensures { result ≡ flows.items }
    {
        Flows { flows }
    }

    /// The flows, in the order of their rows.
    pub fn as_slice(&self) -> &[Flow]
        ensures { result.now ≡ self.now }
    {
        self.flows.as_slice()
    }
}

impl Clone for Flows {
    ghost use Rattle.std.specs.Prelude.{◌≡◌};

    ghost is_clone = { λ flows copy. copy ≡ flows };

    fn clone(&self) -> Result<Flows, AllocError> {
        Ok(Flows {
            flows: self.flows.clone()?,
        })
    }
}

impl Clone for Opening {
    ghost use Rattle.std.specs.Prelude.{◌≡◌};

    ghost is_clone = { λ opening copy. copy ≡ opening };

    fn clone(&self) -> Result<Opening, AllocError> {
        Ok(Opening {
            shape: self.shape,
            flows: self.flows.clone()?,
            begin_row: self.begin_row,
        })
    }
}
