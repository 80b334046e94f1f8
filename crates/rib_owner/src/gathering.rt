//! The entries of a group, gathered bucket by bucket.

ghost use Rattle.std.specs.Prelude.{◌≡◌, ◌++◌, OnOk};
ghost use Rattle.flow_types.specs.Map.{without};
ghost use Rattle.group_search.specs.Records.{entries};
ghost use Rattle.hash_family.specs.Hash as hash;

use crate::item::Item;
use bucket_arena::Items;
use flow_types::FlowKey;
use group_search::Entry;
use hash_family::pair;
use std::alloc::AllocError;

/// Puts the entries of a bucket's flows of all keys but this one into the room, behind what it holds.
pub(crate) fn add_others(
    items: Items<'_, Item>,
    key: FlowKey,
    room: &mut Vec<Entry>,
) -> Result<(), AllocError>
    ensures { OnOk result (room.new.items ≡ room.old.items ++ entries (without key items.entry)) }
{
    let number = key.number();
    'items: for item in items {
        let flow = item.flow();
        if flow.key.number() != number {
            room.push(entry(flow.key, flow.node))?;
        }
    }
    Ok(())
}

/// The key with its hashes and its handler.
pub(crate) fn entry(key: FlowKey, node: u8) -> Entry
    ensures { result ≡ record { pair = hash.pair key; key = key; node = node } }
{
    Entry {
        pair: pair(key),
        key,
        node,
    }
}
