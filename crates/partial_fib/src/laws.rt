//! What the definitions mean together. Each law is a function that does nothing, whose contract says it.

ghost use Rattle.partial_fib.specs.Answering.{RecordsAnswer};
ghost use Rattle.partial_fib.specs.Laws.{TurnsGoOn, TurnsMakeFib};

/// By what a change means for a node, the node's FIB before the change becomes its FIB after it.
pub fn a_turn_goes_on()
    ensures { TurnsGoOn }
{}

/// A node's FIB that took the first turns of its owner in their order is its FIB after these turns.
pub fn turns_make_the_fib()
    ensures { TurnsMakeFib }
{}

/// What a node's FIB has of a key is what the node answers for it by the map of the key's group: the record of a flow that the
/// node handles, and else nothing.
pub fn records_answer()
    ensures { RecordsAnswer }
{}
