use crate::entry::Pair;
use crate::limits::MOST_BITS;
use std::marker::Model;

/// The pairs that serve a group, one for each value bit.
#[derive(Clone, Copy, Debug, PartialEq, Eq, Hash)]
pub struct Served {
    /// The number of value bits, 1..=4.
    pub bits: u8,
    /// The pair of each value bit, the lowest bit first. Past `bits` they are zero.
    pub pairs: [Pair; MOST_BITS],
}

impl Model for Served {
    ghost use Rattle.std.specs.Prelude.{List, length, take, ◌++◌, ◌-◌, replicate};
    ghost use Rattle.group_search.specs.declared.entry.Pair.{Pair};
    ghost use Rattle.flow_types.specs.Size.{most_value_bits};
    ghost use Rattle.group_search.specs.Served.{IsServed, zero_pair};

    ghost Value = { List Pair };

    ghost view = { λ s. take s.bits s.pairs };

    ghost invariant = { λ s. IsServed s.bits s.pairs };

    ghost inverse = { λ pairs. record {
      bits = length pairs;
      pairs = pairs ++ replicate (most_value_bits - length pairs) zero_pair;
    } };

    ghost use Rattle.group_search.specs.ServedFields.{same_fields};

    ghost inverse_ok = { same_fields };
}
