//! What holds of the rules and of all graphs, each law as a clause of a function.

ghost use Rattle.payload_graph.specs.Examples.{ExampleIsWorked};
ghost use Rattle.payload_graph.specs.Laws.{DiffersArePermitted, EdgesAreSized, EdgesFromAreOfGraph, EdgesIntoAreEdgesFrom, EdgesLeadNearer, FullsArePermitted, FullsLeadNearer, TargetsLeaveNothing, WindowsGrowDown, WindowsGrowUp, WindowsHoldDoors};

/// States that the full packages of a window are the permitted ones, each once, in order.
pub fn fulls()
    ensures { FullsArePermitted }
{
    catalogue::version_laws::order();
}

/// States that the differentials of a release are the permitted ones, each once, in order.
pub fn differs()
    ensures { DiffersArePermitted }
{
    catalogue::version_laws::order();
}

/// States how the windows of neighbours differ.
pub fn windows()
    ensures down { WindowsGrowDown }
    ensures target { TargetsLeaveNothing }
    ensures up { WindowsGrowUp }
    ensures doors { WindowsHoldDoors }
{}

/// States that each payload leads nearer the target, so that no chain comes back to a release.
pub fn nearer()
    ensures fulls { FullsLeadNearer }
    ensures edges { EdgesLeadNearer }
{}

/// States that each payload has 1 to 2^40 bytes.
pub fn sized()
    ensures { EdgesAreSized }
{}

/// States that the payloads into the releases of a graph are those from them.
pub fn incoming()
    ensures from { EdgesFromAreOfGraph }
    ensures into { EdgesIntoAreEdgesFrom }
{}

/// States what is permitted on the tracks of a small app that is worked by hand.
pub fn example()
    ensures { ExampleIsWorked }
{}
