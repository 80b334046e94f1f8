ghost use Rattle.std.specs.Prelude.{◌≡◌, ◌<◌, ◌≤◌, ◌↔◌, ◌/◌, List, IsTrue, None, if◌then◌else◌, length, option_map};
ghost use Rattle.flow_types.specs.declared.key.FlowKey.{FlowKey};
ghost use Rattle.flow_types.specs.declared.record.Flow.{Flow};
ghost use Rattle.flow_types.specs.Map.{flow_at};
ghost use Rattle.hash_family.specs.Hash as hash;
ghost use Rattle.group_search.specs.Home.{home};
ghost use Rattle.group_search.specs.Owned.{IsOwned};
ghost use Rattle.group_history.specs.History.{map_now};
ghost use Rattle.rib_owner.specs.Rib.{IsRibOf, found_in, group_in, is_owned, node_and_record, part_of};

use crate::block::OwnedBlock;
use flow_types::{FlowKey, Record, Shape};
use group_history::Journal;
use group_search::Entry;
use hash_family::place;
use std::marker::Model;

/// One node's part of the flow table: the flows of the blocks that it owns, and the changes that it accepted.
#[derive(Drop)]
pub struct Owner {
    pub(crate) shape: Shape,
    pub(crate) number: u8,
    pub(crate) blocks: Vec<OwnedBlock>,
    pub(crate) journal: Journal,
    pub(crate) room: Vec<Entry>,
}

impl Model for Owner {
    ghost use Rattle.std.specs.Prelude.{map};
    ghost use Rattle.rib_owner.specs.Part.{IsSoundRib};
    ghost use Rattle.rib_owner.specs.Rib.{Rib};
    ghost use Rattle.rib_owner.specs.Stock.{part_in};

    ghost Value = { Rib };

    ghost view = { λ o. record { size = o.shape; number = o.number; parts = map part_in o.blocks.items; journal = o.journal } };

    ghost invariant = { λ o. IsSoundRib o.shape o.number (map part_in o.blocks.items) o.journal.changes };
}

/// Where an owner keeps a key: the place of its block among the owner's, and its home.
#[derive(Clone, Copy)]
pub(crate) struct Spot {
    pub(crate) index: usize,
    pub(crate) block: u16,
    pub(crate) bucket: u8,
    pub(crate) group: u8,
}

impl Owner {
    /// Whether the key's block is one of the owner's.
    pub fn owns(&self, key: FlowKey) -> bool
        ensures { IsTrue result ↔ IsOwned self.now.size self.now.number key }
    {
        self.shape.owner(place(self.shape, key).block) == self.number
    }

    /// The node and the record of a key, or `None` where the owner has no flow of this key.
    pub fn find(&self, key: FlowKey) -> Option<(u8, Record)>
        ensures kept { result ≡ (if is_owned self.now.size self.now.number key then option_map node_and_record (found_in self.now key) else None) }
        ensures now { (flows : List Flow) → IsRibOf self.now.size flows self.now → IsOwned self.now.size self.now.number key →
            result ≡ option_map node_and_record (flow_at key (map_now self.now.size flows self.now.journal.changes (home self.now.size.blocks flows key))) }
    {
        if !self.owns(key) {
            return None;
        }
        let spot = self.spot(key);
        match self.blocks[spot.index].find(spot.bucket, key) {
            Some(found) => Some((found.flow.node, found.flow.info)),
            None => None,
        }
    }

    /// The changes that the owner accepted.
    pub fn journal(&self) -> &Journal
        ensures { result.now ≡ self.now.journal }
    {
        &self.journal
    }

    /// Where the owner keeps a key of one of its blocks.
    pub(crate) fn spot(&self, key: FlowKey) -> Spot
        requires { IsOwned self.now.size self.now.number key }
        ensures block { result.block ≡ (hash.place self.now.size.blocks key).block }
        ensures index { result.index ≡ result.block / self.now.size.nodes }
        ensures inside { result.index < length self.now.parts }
        ensures bucket { result.bucket ≡ (hash.place self.now.size.blocks key).bucket }
        ensures group { result.group ≡ group_in (part_of self.now result.block) self.now.size.blocks key }
        ensures in_range { result.group < 64 }
        ensures below { result.block < self.now.size.blocks }
        ensures some_node { 1 ≤ self.now.size.nodes }
    {
        let place = place(self.shape, key);
        let index = usize::from(place.block / self.shape.nodes());
        Spot {
            index,
            block: place.block,
            bucket: place.bucket,
            group: self.blocks[index].group(place.bucket),
        }
    }
}
