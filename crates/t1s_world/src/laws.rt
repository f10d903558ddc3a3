//! Laws of the drives of a chain, whatever the points of the cable are. Each function is empty: its contract is the law.
ghost use Rattle.t1s_world.specs.Laws.{DrivesNeverOverlap, ChainsAreWaves, OpportunitiesAreAlone, NoneStartsBefore, GapTellsPlace, StartsFollow, ChainsPassAsCycles};

/// No two drives of a chain are over one point in one tick.
pub fn drives_never_overlap<Point>()
    ensures { DrivesNeverOverlap Point }
{}

/// Where twice the span and the rise of carrier fit into an opportunity, the drives of a chain are waves at the place of
/// each node, each behind the one before.
pub fn chains_are_waves<Point>()
    ensures { ChainsAreWaves Point }
{}

/// Behind one drive the opportunities of two IDs never begin in one tick, wherever each is counted.
pub fn opportunities_are_alone<Point>()
    ensures { OpportunitiesAreAlone Point }
{}

/// While the next drive is on its way to a point, no opportunity begins there but that of this drive.
pub fn none_starts_before<Point>()
    ensures { NoneStartsBefore Point }
{}

/// The gap between two waves tells how many opportunities lapsed in it.
pub fn gap_tells_place()
    ensures { GapTellsPlace }
{}

/// A node that starts a drive behind the newest wave that it has seen starts it behind the newest drive of the chain.
pub fn starts_follow<Point>()
    ensures { StartsFollow Point }
{}

/// The drives of a chain so far are the waves of a cycle at the place of each node.
pub fn chains_pass_as_cycles<Point>()
    ensures { ChainsPassAsCycles Point }
{}
