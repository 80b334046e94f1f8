ghost use Rattle.std.specs.Prelude.{ℕ, List};
ghost use Rattle.packet_reader.specs.declared.mode.Mode.{Mode};
ghost use Rattle.cluster_open.specs.FirstBad.{InputLaw};
ghost use Rattle.cluster_open.specs.Laws.{CanBeRun, TextTells};

/// A law of what inputs say in each mode: their fault is a bad row exactly where that row breaks a rule and no row before it
/// does, and a block exactly where no row breaks a rule and that is the first block past a limit; and else they say an opening
/// and a script. The call does nothing.
#[tactic(auto, using(crate::proofs::FirstBadFacts::input_law))]
pub fn first_bad_row_law()
    ensures { (mode : Mode) (octets : List ℕ) → InputLaw mode octets }
{}

/// A law of openings and scripts in each mode: a cluster can be opened by what rows say up to `begin`, unless a block is past a
/// limit, and the rows after it say a script of the mode: events of its form, in no more phases than it may have. The call does
/// nothing.
#[tactic(auto, using(crate::proofs::InputFacts::can_be_run))]
pub fn openings_can_be_opened()
    ensures { (mode : Mode) (octets : List ℕ) → CanBeRun mode octets }
{}

/// A law of printed texts in each mode: a text that reports the script of an input has one list of replies. Of those that the
/// model allows, on whatever number of lanes, no two are printed the same. The call does nothing.
pub fn one_text_one_run()
    ensures { (mode : Mode) (octets : List ℕ) → TextTells mode octets }
{}
