ghost use Rattle.std.specs.Prelude.{ℕ, List};
ghost use Rattle.cluster_replay.specs.Laws.{ComesToRun};

/// A law of runs: an input comes to a text exactly where that is the text of a run by one lane, whose replies the model allows,
/// and to a fault exactly where the input has it. The call does nothing.
#[tactic(auto, using(crate::proofs::RunFacts::replays_are_runs))]
pub fn replays_are_runs()
    ensures { (octets : List ℕ) → ComesToRun octets }
{}
