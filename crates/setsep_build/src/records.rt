ghost use Rattle.std.specs.Prelude.{ℕ, ◌≡◌, ◌<◌, ◌≤◌, ◌+◌, ◌++◌, ◌^◌, OnOk, IfOk, All, length, option_to_list};
ghost use Rattle.flow_types.specs.Map.{HaveDistinctKeys};
ghost use Rattle.setsep_build.specs.Placing.{placed_key};
ghost use Rattle.group_search.specs.Rows.{entry_key};
ghost use Rattle.group_search.specs.Build.{rows_needed};
ghost use Rattle.group_search.specs.Canon.{canonical};
ghost use Rattle.flow_types.specs.Size.{most_value_bits};
ghost use Rattle.block_layout.specs.Limits.{most_keys, group_count};
ghost use Rattle.setsep_build.specs.Block.{needed_below, records_below};

use crate::groups::Groups;
use crate::placed::Placed;
use block_layout::{BUCKETS, GROUPS};
use group_search::{Entry, GroupRecord, canon};
use std::alloc::{AllocError, Global};

/// The records of the groups of a block so far, and the rows that its groups need.
#[derive(Debug, Drop)]
pub struct Records {
    /// The records, without those of groups that are too large for one.
    pub kept: Vec<GroupRecord>,
    /// The rows: for each group that no indexes serve as many as it has flows.
    pub needed: u32,
}

impl Records {
    /// Adds the record of a group with these entries, where it has one, and the rows that it needs.
    fn add(&mut self, bits: u8, entries: &[Entry]) -> Result<(), AllocError>
        requires enough_bits { 1 ≤ bits }
        requires few_bits { bits ≤ most_value_bits }
        requires distinct { HaveDistinctKeys entry_key entries.now }
        requires few { length entries.now ≤ most_keys }
        requires room { self.old.needed < 2 ^ 31 }
        ensures kept { OnOk result (self.new.kept.items ≡ self.old.kept.items ++ option_to_list (canonical bits entries.now)) }
        ensures needed { OnOk result (self.new.needed ≡ self.old.needed + rows_needed bits entries.now) }
    {
        match canon(entries, bits) {
            Ok(content) => {
                self.needed += u32::from(content.rows());
                self.kept.push(content)?;
            }
            Err(too_many) => self.needed += u32::from(too_many.keys),
        }
        Ok(())
    }
}

/// The records of all groups of a block with these flows.
///
/// The room is for the entries of each group.
pub fn records_of(
    alloc: Global,
    bits: u8,
    placed: &[Placed],
    groups: &[u8; BUCKETS],
    room: &mut Groups,
) -> Result<Records, AllocError>
    requires enough_bits { 1 ≤ bits }
    requires few_bits { bits ≤ most_value_bits }
    requires apart { HaveDistinctKeys placed_key placed.now }
    requires few { length placed.now ≤ most_keys }
    requires known { All (λ (group : ℕ). group < group_count) groups.now }
    ensures kept { IfOk result (λ records. records.kept.items ≡ records_below group_count bits groups.now placed.now) }
    ensures needed { IfOk result (λ records. records.needed ≡ needed_below group_count bits groups.now placed.now) }
{
    let mut records = Records {
        kept: Vec::with_capacity(alloc, GROUPS as usize)?,
        needed: 0,
    };
    room.gather(placed, groups)?;
    'groups: for group in 0..GROUPS {
        records.add(bits, room.entries(group))?;
    }
    Ok(records)
}
