ghost use Rattle.row_fields.specs.Ranges.{ReadingsAreInRange};

/// A law of fields: what is read of them is in its range. The call does nothing.
#[tactic(auto, using(crate::proofs::Ranges::readings_are_in_range))]
pub fn readings_are_in_range()
    ensures { ReadingsAreInRange }
{}
