ghost use Rattle.std.specs.Prelude.{◌≡◌, ◌<◌, length};
ghost use Rattle.std.specs.List.{slice_get};
ghost use Rattle.block_layout.specs.Limits.{group_count};

use crate::record::GroupRecord;
use block_layout::Choices;
use std::alloc::AllocError;
use std::marker::Model;

/// What a table keeps of a block: the choice of each bucket, and the record of each of the 64 groups.
///
/// It holds no keys but those of fallback rows.
#[derive(Debug, Drop)]
pub struct BlockImage {
    choices: Choices,
    records: Vec<GroupRecord>,
}

impl Model for BlockImage {
    ghost use Rattle.std.specs.Prelude.{◌≡◌, length};
    ghost use Rattle.block_layout.specs.Limits.{group_count};
    ghost use Rattle.group_search.specs.Image.{Image};

    ghost Value = { Image };

    ghost view = { λ b. record { choices = b.choices; records = b.records.items } };

    ghost invariant = { λ b. length b.records.items ≡ group_count };
}

impl BlockImage {
    /// The image of these choices and records, one record for each group.
    pub fn new(choices: Choices, records: Vec<GroupRecord>) -> BlockImage
        requires { length records.items ≡ group_count }
        ensures { result ≡ record { choices = choices; records = records.items } }
    {
        BlockImage { choices, records }
    }

    /// The choices of the block's buckets.
    pub fn choices(&self) -> &Choices
        ensures { result.now ≡ self.now.choices }
    {
        &self.choices
    }

    /// The record of a group, below 64.
    pub fn record(&self, group: u8) -> &GroupRecord
        requires { group < group_count }
        ensures { slice_get self.now.records group ≡ Some result.now }
    {
        &self.records[group as usize]
    }
}

impl Clone for BlockImage {
    ghost use Rattle.std.specs.Prelude.{◌≡◌};

    ghost is_clone = { λ image copy. copy ≡ image };

    fn clone(&self) -> Result<BlockImage, AllocError> {
        Ok(BlockImage {
            choices: self.choices,
            records: self.records.clone()?,
        })
    }
}
