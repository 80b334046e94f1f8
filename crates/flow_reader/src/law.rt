ghost use Rattle.std.specs.Prelude.{◌≡◌, List};
ghost use Rattle.flow_types.specs.Input.{most_octets};
ghost use Rattle.csv_rows.specs.Rows.{Row};
ghost use Rattle.flow_reader.specs.FirstBad.{IsOpening, OpeningLaw};
ghost use Rattle.flow_reader.specs.Fit.{IsFit};
ghost use Rattle.flow_reader.specs.declared.opening.Opening.{Opening};
ghost use Rattle.flow_reader.specs.declared.opening.TheConstants.{MOST_OCTETS};

/// A law of what the rows up to `begin` say: they say an opening exactly where each row up to `begin` breaks no rule,
/// and a bad row exactly where it breaks a rule and no row before it does. The call does nothing.
pub fn first_bad_row_law()
    ensures { (all : List Row) → OpeningLaw all }
{}

/// A law of openings: the flows of an opening that rows say are a map with one row each, whose numbers are in range. The call
/// does nothing.
pub fn openings_fit()
    ensures { (all : List Row) (opening : Opening) → IsOpening all opening → IsFit all opening }
{}

/// The limit that the code goes by is that of the definitions. The call does nothing.
pub fn the_limits_are()
    ensures { MOST_OCTETS ≡ most_octets }
{}
