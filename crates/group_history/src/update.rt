ghost use Rattle.std.specs.Prelude.{◌≡◌};
ghost use Rattle.group_history.specs.Acceptance.{updated_key, wanted};

use flow_types::{Flow, FlowKey, Record};

/// A change of the flow table that an operator asks for.
#[derive(Clone, Copy, Debug, PartialEq, Eq)]
pub enum Update {
    /// The key shall have this node and this record.
    Set(Flow),
    /// The key shall be gone.
    Del(FlowKey),
}

impl Update {
    /// The key that the update is of.
    pub fn key(&self) -> FlowKey
        ensures { result ≡ updated_key self.now }
    {
        match self {
            Update::Set(flow) => flow.key,
            Update::Del(key) => *key,
        }
    }

    /// The node and the record that the key shall have, or `None` where it shall be gone.
    pub fn wanted(&self) -> Option<(u8, Record)>
        ensures { result ≡ wanted self.now }
    {
        match self {
            Update::Set(flow) => Some((flow.node, flow.info)),
            Update::Del(_) => None,
        }
    }
}
