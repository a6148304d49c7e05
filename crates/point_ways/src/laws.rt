//! Each law is the contract of a function that does nothing.
ghost use Rattle.point_ways.specs.Laws.{NodesAheadAreLedTo, PlacesAreRanks, RanksArePlaces};

/// Exactly the nodes are ahead of a source to which a path leads from it that enters no head.
pub fn nodes_ahead_are_led_to()
    ensures { NodesAheadAreLedTo }
{}

/// The rank of a head is its place among the heads of its graph.
pub fn ranks_are_places()
    ensures ranks { RanksArePlaces }
    ensures places { PlacesAreRanks }
{}
