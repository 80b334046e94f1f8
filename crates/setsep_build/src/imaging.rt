ghost use Rattle.std.specs.Prelude.{◌≡◌, ◌≤◌, IfOk, IfErr, length, sum};
ghost use Rattle.flow_types.specs.Map.{HaveDistinctKeys};
ghost use Rattle.setsep_build.specs.Placing.{placed_key, sizes_in};
ghost use Rattle.block_layout.specs.Limits.{most_keys};
ghost use Rattle.flow_types.specs.Size.{most_value_bits};
ghost use Rattle.setsep_build.specs.Block.{IsImageOf, RefusesBlock};

use crate::groups::{Groups, groups_of};
use crate::placed::Placed;
use crate::records::records_of;
use crate::refused::BuildRefused;
use block_layout::{BUCKETS, choose};
use group_search::{BlockImage, MOST_ENTRIES, MOST_ROWS};
use std::alloc::Global;

/// The image of a block with these flows.
pub fn image_of(
    alloc: Global,
    bits: u8,
    block: u16,
    placed: &[Placed],
    room: &mut Groups,
) -> Result<BlockImage, BuildRefused>
    requires enough_bits { 1 ≤ bits }
    requires few_bits { bits ≤ most_value_bits }
    requires apart { HaveDistinctKeys placed_key placed.now }
    ensures image { IfOk result (λ image. IsImageOf bits placed.now image) }
    ensures refused { IfErr result (λ why. RefusesBlock bits block placed.now why) }
{
    if placed.len() > MOST_ENTRIES {
        return Err(BuildRefused::BlockFull { block });
    }
    let choices = choose(&bucket_sizes(placed));
    let records = records_of(alloc, bits, placed, &groups_of(&choices), room)?;
    if records.needed > MOST_ROWS as u32 {
        return Err(BuildRefused::RowsFull {
            block,
            needed: records.needed,
        });
    }
    Ok(BlockImage::new(choices, records.kept))
}

/// How many of a block's flows each bucket has.
fn bucket_sizes(placed: &[Placed]) -> [u16; BUCKETS]
    requires { length placed.now ≤ most_keys }
    ensures each { result ≡ sizes_in placed.now }
    ensures total { sum result ≡ length placed.now }
{
    let mut sizes = [0; BUCKETS];
    'placed: for one in placed {
        sizes[one.bucket as usize] += 1;
    }
    sizes
}
