ghost use Rattle.std.specs.Prelude.{◌≡◌, ◌<◌};
ghost use Rattle.block_layout.specs.Candidate as layout;
ghost use Rattle.block_layout.specs.Limits.{candidate_count, group_count};

use crate::limits::GROUPS;

/// How far the candidates of a bucket stand apart, for each quarter of the buckets. No two quarters have the same
/// distance, so that buckets which share one candidate share few others.
const STRIDES: [u8; 4] = [1, 5, 11, 17];

/// The group, 0..=63, that stands as candidate `choice` of a bucket.
#[tactic(auto, unfolding(crate::specs::Candidate::candidate))]
pub fn candidate(bucket: u8, choice: u8) -> u8
    requires { choice < candidate_count }
    ensures value { result ≡ layout.candidate bucket choice }
    ensures below { result < group_count }
{
    let stride = STRIDES[(bucket / GROUPS) as usize];
    (bucket % GROUPS + choice * stride) % GROUPS
}
