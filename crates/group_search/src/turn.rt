ghost use Rattle.std.specs.Prelude.{ℕ, ◌≡◌, ◌+◌, ◌≤◌, ◌==◌, bit_and, slice_index};
ghost use Rattle.std.specs.Simd.Lanes.{mask_l, zip2};
ghost use Rattle.group_search.specs.Lanes.{are_apart, first_between, lanes, mask_of};

use crate::entry::Pair;
use crate::line::Line;
use std::simd::prelude::*;

/// The indexes that are tried at a time.
pub const LANES: u32 = 16;

/// After this number of zeros the turn is looked at for the first time: mostly no lane is free by then.
const FIRST_LOOK: usize = 4;

/// The least of sixteen indexes from `first` on at which no position has both a one and a zero, with the ones'
/// positions.
#[inline(always)]
pub fn first_in_turn(ones: &[Line], zeros: &[Line], first: u32) -> Option<Pair>
    requires { first + 16 ≤ 65536 }
    ensures { result ≡ first_between 16 first ones.now zeros.now }
{
    let arrays = all_places(ones, first);
    let free = free_lanes(arrays, zeros, first);
    if free == 0 {
        return None;
    }
    let lane = free.trailing_zeros();
    Some(Pair {
        index: (first + lane) as u16,
        array: arrays.to_array()[lane as usize],
    })
}

/// The positions of all these lines at each of sixteen indexes from `first` on.
#[inline(always)]
fn all_places(lines: &[Line], first: u32) -> u8x16
    ensures { result ≡ lanes (λ (lane : ℕ). mask_of (first + lane) lines.now) }
{
    let mut places = u8x16::splat(0);
    'lines: for line in lines {
        places |= line.places(first);
    }
    places
}

/// A bit for each of sixteen indexes from `first` on: 1 where no zero stands in the index's array.
///
/// Now and then it looks whether each index has a zero in its array already, and if so leaves the other zeros.
#[inline(always)]
fn free_lanes(arrays: u8x16, zeros: &[Line], first: u32) -> u64
    ensures { result ≡ mask_l (lanes (λ (lane : ℕ). are_apart (slice_index arrays lane) (mask_of (first + lane) zeros.now))) }
{
    let mut places = u8x16::splat(0);
    'zeros: for (before, zero) in zeros.iter().enumerate() {
        places |= zero.places(first);
        if before >= FIRST_LOOK && before & 1 == 0 && apart(arrays, places) == 0 {
            return 0;
        }
    }
    apart(arrays, places)
}

/// A bit for each lane: 1 where the two masks have no position in common.
#[inline(always)]
fn apart(arrays: u8x16, places: u8x16) -> u64
    ensures { result ≡ mask_l (zip2 are_apart arrays places) }
{
    (arrays & places).simd_eq(u8x16::splat(0)).to_bitmask()
}
