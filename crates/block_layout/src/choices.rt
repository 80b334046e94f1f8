ghost use Rattle.std.specs.Prelude.{◌≡◌, ◌<◌, slice_index, slice_set};
ghost use Rattle.block_layout.specs.Candidate.{candidate};
ghost use Rattle.block_layout.specs.Choices.{choice_octets, none_chosen, Replaces};
ghost use Rattle.block_layout.specs.Limits.{candidate_count, group_count};

use crate::candidates::candidate;
use crate::limits::CHOICE_OCTETS;
use std::marker::Model;

/// The choice of each bucket of a block: which of its four candidates is its group.
#[derive(Clone, Copy, Debug, PartialEq, Eq)]
pub struct Choices {
    bytes: [u8; CHOICE_OCTETS],
}

impl Model for Choices {
    ghost use Rattle.std.specs.Prelude.{ℕ, List};
    ghost use Rattle.std.proofs.Common.{ap};
    ghost use Rattle.block_layout.specs.Choices.{choices_in, choice_octets, AreOctets};

    ghost Value = { List ℕ };

    ghost view = { λ s. choices_in s.bytes };

    ghost invariant = { λ s. AreOctets s.bytes };

    ghost use Rattle.block_layout.specs.Packing.{octets_back};

    ghost inverse = { λ choices. record { bytes = choice_octets choices } };

    ghost inverse_ok = { λ a are. ap (λ bytes. record { bytes = bytes }) (octets_back a.bytes are) };
}

impl Choices {
    /// Choice 0 for each bucket.
    pub(crate) fn none() -> Choices
        ensures { result ≡ none_chosen }
    {
        Choices {
            bytes: [0; CHOICE_OCTETS],
        }
    }

    /// The choice of a bucket, 0..=3.
    pub fn choice(&self, bucket: u8) -> u8
        ensures value { result ≡ slice_index self.now bucket }
        ensures below { result < candidate_count }
    {
        (self.bytes[(bucket / 4) as usize] >> (2 * (bucket % 4))) % 4
    }

    /// The group, 0..=63, that the bucket goes to.
    pub fn group(&self, bucket: u8) -> u8
        ensures value { result ≡ candidate bucket (slice_index self.now bucket) }
        ensures below { result < group_count }
    {
        candidate(bucket, self.choice(bucket))
    }

    /// The choices in 64 octets, four in each: that of bucket b in octet b / 4, in the two bits from 2 * (b % 4) up.
    pub fn bytes(&self) -> &[u8; 64]
        ensures { result.now ≡ choice_octets self.now }
    {
        &self.bytes
    }

    /// Makes the choice of a bucket.
    pub(crate) fn set(&mut self, bucket: u8, choice: u8)
        requires { choice < candidate_count }
        ensures { self.new ≡ slice_set self.old bucket choice }
    {
        let octet = &mut self.bytes[(bucket / 4) as usize];
        *octet = with_choice(*octet, bucket % 4, choice);
    }
}

/// The octet with the choice at one of its four places replaced.
fn with_choice(octet: u8, place: u8, choice: u8) -> u8
    requires place { place < 4 }
    requires choice { choice < candidate_count }
    ensures { Replaces octet result place choice }
{
    let shift = 2 * place;
    let had = (octet >> shift) % 4;
    octet - (had << shift) + (choice << shift)
}
