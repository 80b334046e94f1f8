ghost use Rattle.std.specs.Prelude.{ℕ, ◌≡◌, ◌<◌, List, [], IfOk, OnOk, All, replicate, slice_index_or};
ghost use Rattle.group_search.specs.declared.entry.Entry.{Entry};
ghost use Rattle.setsep_build.specs.Placing.{AreGathered, groups_of};
ghost use Rattle.block_layout.specs.Limits.{group_count};

use crate::placed::Placed;
use block_layout::{BUCKETS, Choices, GROUPS};
use group_search::Entry;
use std::alloc::{AllocError, Global};
use std::marker::Model;

/// The entries of one group, in the order in which they came.
#[derive(Debug, Drop)]
struct Group {
    entries: Vec<Entry>,
}

impl Model for Group {
    ghost use Rattle.std.specs.Prelude.{List};
    ghost use Rattle.group_search.specs.declared.entry.Entry.{Entry};

    ghost Value = { List Entry };

    ghost view = { λ g. g.entries.items };
}

/// The entries of each of a block's 64 groups. It serves one block after the other.
#[derive(Debug, Drop)]
pub struct Groups {
    groups: Vec<Group>,
}

impl Model for Groups {
    ghost use Rattle.std.specs.Prelude.{◌≡◌, List, length};
    ghost use Rattle.group_search.specs.declared.entry.Entry.{Entry};
    ghost use Rattle.block_layout.specs.Limits.{group_count};

    ghost Value = { List (List Entry) };

    ghost view = { λ g. g.groups.items };

    ghost invariant = { λ g. length g.groups.items ≡ group_count };
}

impl Groups {
    /// Groups without entries.
    pub fn new(alloc: Global) -> Result<Groups, AllocError>
        ensures { IfOk result (λ groups. groups ≡ replicate group_count []) }
    {
        let mut groups = Vec::with_capacity(alloc, GROUPS as usize)?;
        'groups: for _ in 0..GROUPS {
            groups.push(Group {
                entries: Vec::new(alloc),
            })?;
        }
        Ok(Groups { groups })
    }

    /// Puts the entry of each flow into the group of its bucket, in their order. What the groups held goes.
    pub fn gather(&mut self, placed: &[Placed], of_bucket: &[u8; BUCKETS]) -> Result<(), AllocError>
        requires { All (λ (group : ℕ). group < group_count) of_bucket.now }
        ensures { OnOk result (AreGathered of_bucket.now placed.now self.new) }
    {
        self.clear();
        'placed: for one in placed {
            let group = &mut self.groups[of_bucket[one.bucket as usize] as usize];
            group.entries.push(one.entry())?;
        }
        Ok(())
    }

    /// The entries of a group, below 64.
    pub fn entries(&self, group: u8) -> &[Entry]
        requires { group < group_count }
        ensures { result.now ≡ slice_index_or self.now group [] }
    {
        self.groups[group as usize].entries.as_slice()
    }

    /// Takes the entries out of each group, and keeps their memory.
    fn clear(&mut self)
        ensures { All (λ (entries : List Entry). entries ≡ []) self.new }
    {
        'groups: for group in self.groups.iter_mut() {
            group.entries.clear();
        }
    }
}

/// The group of each bucket.
pub fn groups_of(choices: &Choices) -> [u8; BUCKETS]
    ensures value { result ≡ groups_of choices.now }
    ensures known { All (λ (group : ℕ). group < group_count) result }
{
    let mut groups = [0; BUCKETS];
    'buckets: for (bucket, group) in groups.iter_mut().enumerate() {
        *group = choices.group(bucket as u8);
    }
    groups
}
