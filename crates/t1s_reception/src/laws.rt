//! Laws of what nodes receive, on every script.
ghost use Rattle.t1s_reception.specs.CaptureOfNode.{CapturesHoldCuts};
ghost use Rattle.t1s_reception.specs.HandedOut.{ShownPiecesAreHandedOut};
ghost use Rattle.t1s_reception.specs.HeardAlone.{HeardAloneArrives};
ghost use Rattle.t1s_reception.specs.HeardPieces.{CapturesShowArrivals};
ghost use Rattle.t1s_reception.specs.LeavingHeard.{LeavingsHeardAloneArrive};
ghost use Rattle.t1s_reception.specs.ShownPieces.{CutsShowReceptions};

/// What is cut from any ticks shows exactly the pieces that a receiver completes in them, in their order: each in the last tick of
/// its closer, with what the receiver tells of it. Pieces of torn bursts are among them.
pub fn cuts_show_receptions()
    ensures { CutsShowReceptions }
{}

/// The capture of what a node hears shows exactly the pieces that arrive at it, in their order: a piece that starts at tick p with m
/// J and g nibbles arrives in tick p + 4 * (m + g + 4) - 1, with the same kind and frame.
pub fn captures_show_arrivals()
    ensures { CapturesShowArrivals }
{}

/// A frame that a node hears alone arrives there, good and unchanged, in the tick in which the last quarter of its closer arrives,
/// on every script. What was heard before it, and what comes after it, does not matter.
pub fn heard_alone_arrives()
    ensures { HeardAloneArrives }
{}

/// The text of what a node hears is a capture of it, of exactly the items that are cut from the ticks of the run.
pub fn captures_hold_cuts()
    ensures { CapturesHoldCuts }
{}

/// The pieces that a capture shows are exactly those that are handed out at its octets, each at its closer and with its start; in
/// their order they have the views that are counted in the capture.
pub fn shown_pieces_are_handed_out()
    ensures { ShownPiecesAreHandedOut }
{}

/// The frame of an offer that leaves in a piece which R closes arrives, good and unchanged, at every node that hears the drive of the
/// piece alone, on every valid script, fit or not.
pub fn leavings_heard_alone_arrive()
    ensures { LeavingsHeardAloneArrive }
{}
