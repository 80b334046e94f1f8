ghost use Rattle.std.specs.Prelude.{◌≡◌};
ghost use Rattle.setsep_build.specs.Placing as placing;

use flow_types::FlowKey;
use group_search::Entry;
use hash_family::pair;

/// A flow where it stands in the table.
#[derive(Clone, Copy, Debug, PartialEq, Eq)]
pub struct Placed {
    /// The flow's key.
    pub key: FlowKey,
    /// The block of the key.
    pub block: u16,
    /// The bucket of the key.
    pub bucket: u8,
    /// The flow's handler.
    pub node: u8,
}

impl Placed {
    /// The flow as an entry of its group. The key is hashed here.
    pub fn entry(&self) -> Entry
        ensures { result ≡ placing.entry_in self.now }
    {
        Entry {
            pair: pair(self.key),
            key: self.key,
            node: self.node,
        }
    }
}

/// The flows of a block among flows that stand in order.
pub fn placed_in(all: &[Placed], block: u16) -> &[Placed]
    requires { placing.AreInOrder all.now }
    ensures { result.now ≡ placing.placed_in block all.now }
{
    let start = all.partition_point(|one| one.block < block);
    let (_, from_start) = all.split_at(start);
    let count = from_start.partition_point(|one| one.block <= block);
    let (found, _) = from_start.split_at(count);
    found
}
