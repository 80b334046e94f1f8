ghost use Rattle.std.specs.Prelude.{◌≡◌, ◌<◌};
ghost use Rattle.hash_family.specs.Hash as hash;

use crate::bucket::Place;
use crate::mixing::{base_of, words_of};
use crate::pairing::{HashPair, pair_of};
use crate::placing::placed;
use crate::reciprocal::Reciprocal;
use flow_types::{FlowKey, Shape};
use std::marker::Model;

/// A key with all that the table hashes of it, so that each is hashed once on the key's whole way. A contract sees the key.
#[derive(Drop)]
pub struct HashedKey {
    key: FlowKey,
    first: u64,
    pair: HashPair,
}

impl Model for HashedKey {
    ghost use Rattle.flow_types.specs.declared.key.FlowKey.{FlowKey};
    ghost use Rattle.hash_family.specs.Hashed.{IsHashed};

    ghost Value = { FlowKey };

    ghost view = { λ h. h.key };

    ghost invariant = { λ h. IsHashed h.first h.pair h.key };
}

impl HashedKey {
    /// The key, hashed.
    #[inline(always)]
    #[tactic(auto, unfolding(crate::specs::Hash::pair))]
    pub fn of(key: &FlowKey) -> HashedKey
        ensures { result ≡ key.now }
    {
        let (low, high) = words_of(key);
        HashedKey {
            key: *key,
            first: base_of(1, low, high),
            pair: pair_of(base_of(2, low, high), base_of(3, low, high)),
        }
    }

    /// The key.
    #[inline(always)]
    pub fn key(&self) -> FlowKey
        ensures { result ≡ self.now }
    {
        self.key
    }

    /// The key's block and bucket at a shape.
    #[inline(always)]
    #[tactic(auto, unfolding(crate::specs::Hash::place))]
    pub fn place(&self, shape: Shape) -> Place
        ensures value { result ≡ hash.place shape.blocks self.now }
        ensures in_range { result.block < shape.blocks }
    {
        placed(self.first, shape)
    }

    /// The key's block and bucket at as many blocks as the reciprocal is of.
    #[inline(always)]
    #[tactic(auto, unfolding(crate::specs::Hash::place))]
    pub fn place_by(&self, blocks: &Reciprocal) -> Place
        ensures value { result ≡ hash.place blocks.now self.now }
        ensures in_range { result.block < blocks.now }
    {
        Place {
            block: blocks.remainder((self.first >> 32) as u32),
            bucket: (self.first & 0xFF) as u8,
        }
    }

    /// The key's hash pair.
    #[inline(always)]
    pub fn pair(&self) -> HashPair
        ensures { result ≡ hash.pair self.now }
    {
        self.pair
    }
}
