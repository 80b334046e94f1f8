//! What the definitions of the layout mean. Each law is a function that does nothing, whose contract says it.

ghost use Rattle.std.specs.Prelude.{◌≡◌, ℕ, ◌≤◌, sum};
ghost use Rattle.block_layout.specs.Dealing.{order_of, first_least, choices_of, IsOrder, IsFirstLeast, AreChoices};
ghost use Rattle.block_layout.specs.Limits.{bucket_count, candidate_count, group_count, most_keys};
ghost use Rattle.block_layout.specs.declared.limits.TheConstants.{BUCKETS, CANDIDATES, GROUPS, MOST_KEYS};

use crate::limits::BUCKETS;

/// The buckets are dealt out by falling number of keys, of two with as many the lower first.
pub fn order_is_by_size(sizes: &[u16; BUCKETS])
    requires { sum sizes.now ≤ most_keys }
    ensures { IsOrder sizes.now (order_of sizes.now) }
{}

/// A bucket goes to the candidate whose group has the fewest keys, of two with as few to the lower.
pub fn first_least_is_least()
    ensures { (load : ℕ → ℕ) (n : ℕ) → IsFirstLeast load n (first_least load n) }
{}

/// A block has a choice for each of its buckets, whatever their sizes.
pub fn choices_are_of_all_buckets(sizes: &[u16; BUCKETS])
    ensures { AreChoices (choices_of sizes.now) }
{}

/// The numbers that the code goes by are those of the layout.
pub fn the_limits_are()
    ensures buckets { BUCKETS ≡ bucket_count }
    ensures groups { GROUPS ≡ group_count }
    ensures candidates { CANDIDATES ≡ candidate_count }
    ensures keys { MOST_KEYS ≡ most_keys }
{}
