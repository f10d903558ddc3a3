//! Laws of the world of a script, and of a node of it.

ghost use Rattle.t1s_line.specs.Beacons.{LoneCoordinatorBeacons};
ghost use Rattle.t1s_line.specs.CalmTicks.{CalmTicksAreQuiet};
ghost use Rattle.t1s_line.specs.Clashes.{ClashesAreMeetings, NoneCountedNoneMeet};
ghost use Rattle.t1s_line.specs.FramelessNodes.{FramelessNodesBeacon};

/// Where exactly one node has the ID 0, and starts at tick 0, the drives of the run are exactly the
/// beacons of that node.
pub fn lone_coordinator_beacons()
    ensures { LoneCoordinatorBeacons }
{}

/// A node that is never offered a frame drives nothing but beacons, whatever it is set to and hears: it never commits.
pub fn frameless_nodes_beacon()
    ensures { FramelessNodesBeacon }
{}

/// Of each script, fit or not: the clash counter of a node after the first ticks of the run, however many, is the number of
/// those ticks from its start on in which a noise lasts, or two drives are over its point, which is the end of its stub, each
/// as late as its node is away.
pub fn clashes_are_meetings()
    ensures { ClashesAreMeetings }
{}

/// Where the clash counter of a node is 0, no two drives are over its point in one of those ticks from its start on.
pub fn none_counted_none_meet()
    ensures { NoneCountedNoneMeet }
{}

/// In a calm tick nothing happens: it has no event.
pub fn calm_ticks_are_quiet()
    ensures { CalmTicksAreQuiet }
{}
