//! What holds of every storm. Each law is a function that does nothing, whose contract says it.

ghost use Rattle.storm_model.specs.Laws.{IdleOwnersSayNothing, JournalsGoOn, LanesWalkByTurns, OwnersAnswerAlone, OwnersEndAlone, PhasesAreSaid, StormsAreAllowed, StormsGoByRecords};

/// The model's reply to an update is what the update's owner says by itself, and only what this owner has accepted may change.
pub fn owners_answer_alone()
    ensures { OwnersAnswerAlone }
{}

/// What each owner has accepted by the end of a phase is what it makes by itself of the phase's events.
#[tactic(auto, using(crate::proofs::Alone::owners_end_alone))]
pub fn owners_end_alone()
    ensures { OwnersEndAlone }
{}

/// An owner without an update among the events says nothing, and accepts nothing.
pub fn idle_owners_say_nothing()
    ensures { IdleOwnersSayNothing }
{}

/// What owners have accepted stays fit for the next phase: groups have sound maps along it, and each change is of a group of its
/// owner's.
pub fn journals_go_on()
    ensures { JournalsGoOn }
{}

/// What a lane answered by the lists that its readers had seen is what the model answers by numbers of turns.
#[tactic(auto, using(crate::proofs::Gathered::lanes_walk_by_turns))]
pub fn lanes_walk_by_turns()
    ensures { LanesWalkByTurns }
{}

/// Once all workers have done their part of a phase there is a reply to each event, and whatever is merged is what the phase says.
pub fn phases_are_said()
    ensures { PhasesAreSaid }
{}

/// What owners and lanes have said phase after phase, each by itself, is allowed by the model once it is merged: each packet
/// goes by one version of its phase, and no lane goes back.
#[tactic(auto, using(crate::proofs::Storms::storms_are_allowed))]
pub fn storms_are_allowed()
    ensures { StormsAreAllowed }
{}

/// In a storm each packet goes where the canonical record of its key's group sends it, whether or not its flow is known.
#[tactic(auto, using(crate::proofs::Storms::storms_go_by_records))]
pub fn storms_go_by_records()
    ensures { StormsGoByRecords }
{}
