//! What the definitions mean together. Each law is a function that does nothing, whose contract says it.

ghost use Rattle.delta_codec.specs.Laws.{EachHasOneSpelling, NoneBeginsAnother, SpellOneMessage};
ghost use Rattle.delta_codec.specs.Routed.{BuildReachesHandlers, StaysInCluster};

use flow_types::Shape;

/// A message that fits is spelled by some octets and by no others.
pub fn messages_have_one_spelling(shape: Shape)
    ensures { EachHasOneSpelling shape }
{}

/// No octets spell two messages.
pub fn spellings_have_one_message(shape: Shape)
    ensures { SpellOneMessage shape }
{}

/// No spelling is a proper prefix of another: messages can stand one after the other.
pub fn no_spelling_begins_another(shape: Shape)
    ensures { NoneBeginsAnother shape }
{}

/// Where the flows can be built, the key of each flow is sent to the flow's handler.
#[tactic(auto, using(crate::proofs::Built::routed_to_handlers))]
pub fn build_reaches_handlers()
    ensures { BuildReachesHandlers }
{}

/// No key is sent to a node that there isn't.
#[tactic(auto, using(crate::proofs::Built::routed_below))]
pub fn routes_stay_in_the_cluster()
    ensures { StaysInCluster }
{}
