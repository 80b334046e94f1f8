ghost use Rattle.std.specs.Prelude.{ℕ, ◌≡◌, ◌+◌, ◌*◌, ◌/◌, ◌%◌, ◌^◌, ◌<◌, map};
ghost use Rattle.std.specs.Simd.Lanes.{Each1};
ghost use Rattle.hash_family.specs.Hash.{position};
ghost use Rattle.group_search.specs.Lanes.{lanes};

use hash_family::HashPair;
use std::marker::Model;
use std::simd::prelude::*;

/// A key's hash pair, with what its hash at an index grows by up to each of the next sixteen indexes.
#[derive(Drop)]
pub struct Line {
    pair: HashPair,
    steps: [u32; 16],
}

impl Model for Line {
    ghost use Rattle.std.specs.Prelude.{ℕ, ◌≡◌, ◌*◌, ◌%◌, ◌^◌};
    ghost use Rattle.hash_family.specs.declared.pairing.HashPair.{HashPair};
    ghost use Rattle.group_search.specs.Lanes.{lanes};

    ghost Value = { HashPair };

    ghost view = { λ l. l.pair };

    ghost invariant = { λ l. l.steps ≡ lanes (λ (lane : ℕ). lane * l.pair.g2 % 2 ^ 32) };
}

impl Default for Line {
    fn default() -> Line {
        Line::of(HashPair { g1: 0, g2: 0 })
    }
}

impl Line {
    /// The line of a hash pair.
    #[inline(always)]
    pub fn of(pair: HashPair) -> Line
        ensures { result ≡ pair }
    {
        let lanes = u32x16::from_array([0, 1, 2, 3, 4, 5, 6, 7, 8, 9, 10, 11, 12, 13, 14, 15]);
        Line {
            pair,
            steps: (lanes * u32x16::splat(pair.g2)).to_array(),
        }
    }

    /// The key's position at each of sixteen indexes from `first` on, as a mask with that one bit.
    #[inline(always)]
    pub fn places(&self, first: u32) -> u8x16
        ensures { result ≡ lanes (λ (lane : ℕ). 2 ^ position self.now (first + lane)) }
    {
        masks(positions(self.hashes(first)))
    }

    /// The key's hash at each of sixteen indexes from `first` on.
    #[inline(always)]
    fn hashes(&self, first: u32) -> u32x16
        ensures { result ≡ lanes (λ (lane : ℕ). (self.now.g1 + (first + lane) * self.now.g2) % 2 ^ 32) }
    {
        let here = self.pair.g1.wrapping_add(self.pair.g2.wrapping_mul(first));
        u32x16::splat(here) + u32x16::from_array(self.steps)
    }
}

/// The three upper bits of each hash.
#[inline(always)]
fn positions(hashes: u32x16) -> u8x16
    ensures { result ≡ map (λ (hash : ℕ). hash / 2 ^ 29) hashes }
{
    let octets = (hashes >> u32x16::splat(29)).to_le_bytes();
    octets.swizzle([0, 4, 8, 12, 16, 20, 24, 28, 32, 36, 40, 44, 48, 52, 56, 60])
}

/// The masks that have the bit of each position, below 8.
#[inline(always)]
fn masks(positions: u8x16) -> u8x16
    requires { Each1 (λ (place : ℕ). place < 8) positions }
    ensures { result ≡ map (λ (place : ℕ). 2 ^ place) positions }
{
    let bits = u8x16::from_array([1, 2, 4, 8, 16, 32, 64, 128, 0, 0, 0, 0, 0, 0, 0, 0]);
    bits.swizzle_dyn(positions)
}
