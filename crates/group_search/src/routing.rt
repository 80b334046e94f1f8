ghost use Rattle.group_search.specs.Build.{NamesTheFirst};
ghost use Rattle.group_search.specs.Routing.{GivesEachHandler, RoutesEachFlow};

/// The law that the record of a group gives the key of each of its flows the flow's handler.
pub fn records_give_each_handler()
    ensures { GivesEachHandler }
{}

/// The law that the record of a flow's home gives the flow's key the flow's handler.
pub fn homes_route_each_flow()
    ensures { RoutesEachFlow }
{}

/// The law that what is past its limit is the first block that is, and nothing where none is.
pub fn past_limit_names_the_first()
    ensures { NamesTheFirst }
{}
