//! What the definitions mean together. Each law is a function that does nothing, whose contract says it.

ghost use Rattle.std.specs.Prelude.{◌≡◌, ◌≢◌, ◌↔◌, ◌≤◌, ◌+◌, ℕ, List, [], ◌∷◌, ◌++◌, IsTrue, Some, option_map};
ghost use Rattle.flow_types.specs.declared.key.FlowKey.{FlowKey};
ghost use Rattle.flow_types.specs.declared.record.Flow.{Flow};
ghost use Rattle.flow_types.specs.Key.{number};
ghost use Rattle.flow_types.specs.Map.{AreDistinct, flow_at};
ghost use Rattle.group_search.specs.Home.{Home};
ghost use Rattle.group_history.specs.declared.change.Change.{Change};
ghost use Rattle.group_history.specs.Acceptance.{OneCaseHolds};
ghost use Rattle.group_history.specs.Change.{concerns, flow_to, step};
ghost use Rattle.group_history.specs.Journal.{change_count};
ghost use Rattle.group_history.specs.History.{at_version, now};

/// After a change a map is still a map. It has at the change's key what the change says, and at each other key what it
/// had.
pub fn a_change_is_of_one_key()
    ensures distinct { (flows : List Flow) (change : Change) → AreDistinct flows → AreDistinct (step flows change) }
    ensures changed { (flows : List Flow) (change : Change) →
        flow_at change.key (step flows change) ≡ option_map (flow_to change.key) change.to }
    ensures others { (flows : List Flow) (change : Change) (key : FlowKey) → number key ≢ number change.key →
        flow_at key (step flows change) ≡ flow_at key flows }
{}

/// A change makes the next version of its own group, and stays without effect on all others.
pub fn a_change_is_of_one_group()
    ensures counted { (changes : List Change) (change : Change) (at : Home) → IsTrue (concerns at change) →
        change_count at (changes ++ change ∷ []) ≡ change_count at changes + 1 }
    ensures own { (opening : List Flow) (changes : List Change) (change : Change) (at : Home) → IsTrue (concerns at change) →
        now opening (changes ++ change ∷ []) at ≡ step (now opening changes at) change }
    ensures not_counted { (changes : List Change) (change : Change) (at : Home) → ¬ IsTrue (concerns at change) →
        change_count at (changes ++ change ∷ []) ≡ change_count at changes }
    ensures others { (opening : List Flow) (changes : List Change) (change : Change) (at : Home) → ¬ IsTrue (concerns at change) →
        now opening (changes ++ change ∷ []) at ≡ now opening changes at }
{}

/// A group has its versions from 0 to the number of its changes. Version 0 is the map with which it was opened, the last
/// one its map now, each is a map, and later changes leave it as it is.
pub fn versions_of_a_group()
    ensures first { (opening : List Flow) (changes : List Change) (at : Home) →
        at_version opening changes at 0 ≡ Some opening }
    ensures last { (opening : List Flow) (changes : List Change) (at : Home) →
        at_version opening changes at (change_count at changes) ≡ Some (now opening changes at) }
    ensures there { (opening : List Flow) (changes : List Change) (at : Home) (version : ℕ) →
        ((flows : List Flow) × (at_version opening changes at version ≡ Some flows)) ↔ (version ≤ change_count at changes) }
    ensures maps { (opening flows : List Flow) (changes : List Change) (at : Home) (version : ℕ) → AreDistinct opening →
        at_version opening changes at version ≡ Some flows → AreDistinct flows }
    ensures stays { (opening : List Flow) (changes later : List Change) (at : Home) (version : ℕ) → version ≤ change_count at changes →
        at_version opening (changes ++ later) at version ≡ at_version opening changes at version }
{}

/// On any grounds exactly one case of the judgement of an update holds: the one that `refusal` names.
pub fn one_case_holds()
    ensures { OneCaseHolds }
{}
