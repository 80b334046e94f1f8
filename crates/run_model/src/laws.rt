//! What holds of every replay. Each law is a function that does nothing, whose contract says it.

ghost use Rattle.run_model.specs.Laws.{CarriesTakeTheNextTurn, EachVersionIsAPath, NoLaneGoesBack, NodesTakePrefixes, OneVersionTells, ReplaysAreAllowed, ReplaysGoByRecords, UpdatesTakeTheNextTurn};

/// The replies of a replay are allowed by the model: each packet goes by one version of its phase, and no lane goes back.
#[tactic(auto, using(crate::proofs::Replays::replays_are_allowed))]
pub fn replays_are_allowed()
    ensures { ReplaysAreAllowed }
{}

/// At whatever version between the two ends of its phase a packet is answered, if it is no older than what its lane had seen:
/// the reply is a path, and goes where the canonical record of its key's group sends it. A replay's packet is answered by what
/// nodes have taken, a storm's by what the readers of its lane have seen.
pub fn each_version_is_a_path()
    ensures { EachVersionIsAPath }
{}

/// What a node's table and its own records have taken of an owner's turns is a prefix of them, in whatever order and however
/// often messages are carried.
#[tactic(auto, using(crate::proofs::Replays::nodes_take_prefixes))]
pub fn nodes_take_prefixes()
    ensures { NodesTakePrefixes }
{}

/// A message is applied only where it is the next of its owner's turns for this part of the node, whose number of turns rises by
/// one then, and no other number changes. A message over a gap is early, one that was taken is a repeat, and both change nothing.
pub fn carries_take_the_next_turn()
    ensures { CarriesTakeTheNextTurn }
{}

/// An accepted update has the turn that follows its owner's journal, and is the journal's last change then. A refused one changes
/// nothing.
#[tactic(auto, using(crate::proofs::NextTurns::updates_take_the_next_turn))]
pub fn updates_take_the_next_turn()
    ensures { UpdatesTakeTheNextTurn }
{}

/// Where the ingress and the node that answers stand at one version of the key's group, a known flow is found at its
/// handler, in at most one hop and with its record, and only a key that the group doesn't have is unknown.
#[tactic(auto, using(crate::proofs::OneVersion::one_version_tells))]
pub fn one_version_tells()
    ensures { OneVersionTells }
{}

/// No lane goes back: for one lane, ingress and group the version seen never falls, nor for one lane, answering node and
/// group the version of the FIB.
#[tactic(auto, using(crate::proofs::NeverBack::no_lane_goes_back))]
pub fn no_lane_goes_back()
    ensures { NoLaneGoesBack }
{}

/// In a replay each packet goes where the canonical record of its key's group sends it, whether or not its flow is known.
#[tactic(auto, using(crate::proofs::Records::replays_go_by_records))]
pub fn replays_go_by_records()
    ensures { ReplaysGoByRecords }
{}
