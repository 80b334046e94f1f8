ghost use Rattle.std.specs.Prelude.{◌≡◌, ◌≤◌, length};
ghost use Rattle.flow_types.specs.Size.{most_value_bits};
ghost use Rattle.group_search.specs.Decoding.{decode, node_of, value_of};
ghost use Rattle.group_search.specs.Canon.{rows_in};

use crate::entry::Pair;
use crate::rows::{Row, Rows};
use crate::served::Served;
use flow_types::FlowKey;
use hash_family::{HashPair, position};

/// What a table keeps of a group.
#[derive(Clone, Debug, PartialEq, Eq, Drop)]
pub enum GroupRecord {
    /// Pairs that serve the group. They keep no keys.
    Served(Served),
    /// The group's keys, where no pairs serve it.
    Fallback(Rows),
}

impl GroupRecord {
    /// The handler of a key of the group, a node of the cluster.
    ///
    /// Served: the value whose bit b is the b-th array's bit at the key's position; `None` where it is no node's
    /// number. For a key that isn't in the group the value is arbitrary. Fallback: the node of the key's row; `None`
    /// where there is none.
    pub fn decode(&self, nodes: u16, key: FlowKey) -> Option<u8>
        ensures { result ≡ decode self.now nodes key }
    {
        match self {
            GroupRecord::Served(served) => {
                let value = value_at(
                    &served.pairs[..served.bits as usize],
                    hash_family::pair(key),
                );
                (u16::from(value) < nodes).then_some(value)
            }
            GroupRecord::Fallback(rows) => node_at(rows.as_slice(), key),
        }
    }

    /// The number of rows that it needs: 0 where it is served.
    pub fn rows(&self) -> u8
        ensures { result ≡ rows_in self.now }
    {
        match self {
            GroupRecord::Served(_) => 0,
            GroupRecord::Fallback(rows) => rows.as_slice().len() as u8,
        }
    }
}

/// The number whose bit b is that of the b-th pair's array at the position that the pair gives a key with these
/// hashes.
pub(crate) fn value_at(pairs: &[Pair], hashes: HashPair) -> u8
    requires { length pairs.now ≤ most_value_bits }
    ensures { result ≡ value_of hashes pairs.now }
{
    let mut value = 0;
    'pairs: for (bit, pair) in pairs.iter().enumerate() {
        value |= ((pair.array >> position(hashes, pair.index)) & 1) << bit;
    }
    value
}

/// The node of the row with this key.
fn node_at(rows: &[Row], key: FlowKey) -> Option<u8>
    ensures { result ≡ node_of key rows.now }
{
    let number = key.number();
    rows.iter()
        .find(|row| row.key.number() == number)
        .map(|row| row.node)
}
