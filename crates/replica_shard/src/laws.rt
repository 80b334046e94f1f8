//! What holds of the turns of an owner. Each law is a function that does nothing, whose contract says it.

ghost use Rattle.replica_shard.specs.Store.{BuildsCanBeTables};
ghost use Rattle.replica_shard.specs.Turns.{HomesStay, PrefixesAreTurns, RoutesFollowChanges, TableTurnsGoOn, TurnsMakeTable, TurnsTellDeltas};

/// A shard can be opened with the images of a build of the cluster's flows.
#[tactic(auto, using(crate::proofs::Tables::can_be_tables))]
pub fn builds_can_be_tables()
    ensures { BuildsCanBeTables }
{}

/// By the message of a change, a shard before the change becomes the shard after it.
pub fn a_turn_goes_on()
    ensures { TableTurnsGoOn }
{}

/// A shard that took the messages of the first turns of its owner in their order is the shard after these turns, and its
/// list is the first of what the owner's changes tell.
pub fn turns_make_the_table()
    ensures table { TurnsMakeTable }
    ensures list { TurnsTellDeltas }
{}

/// Whatever a reader has seen of an owner's first turns, it has the table after as many of them: that of the first of
/// the owner's deltas.
pub fn prefixes_are_turns()
    ensures { PrefixesAreTurns }
{}

/// After changes of its owner a shard sends each key of the owner's blocks where the canonical record of the key's group
/// sends it, and the version that it tells is the number of the group's changes.
pub fn routes_follow_changes()
    ensures homes { HomesStay }
    ensures routes { RoutesFollowChanges }
{}
