//! Laws of the core of one node, in every run of it from its start: what it is told and offered is free, as long as its
//! drive meets no other signal and control, once it takes part in the cycle, goes on to do so. Each function is empty: its
//! contract is the law.
ghost use Rattle.t1s_mac.specs.PickedDraws.{picked_answer};
ghost use Rattle.t1s_node.specs.Runs.{DrawsAreBounded};
ghost use Rattle.t1s_node.specs.Laws.{StartsOnlyAwake, DefersBriefly, JamsOnce, LeavesOrPends, PendsUntilOwn, CommitsBriefly, LeavesOnceCommitted, SendsWholePiece, SentInPiece};
ghost use Rattle.t1s_node.specs.ClosedPieces.{ClosesWholeFrames};
ghost use Rattle.t1s_node.specs.NodeRuns.{RunsAsCore};
ghost use Rattle.t1s_node.specs.CalmNode.{CalmTellsNothing};

use t1s_mac::Draws;

/// The draws of either kind answer what they may: below the bound of their attempt.
pub fn picked_draws_are_bounded()
    ensures { DrawsAreBounded picked_answer }
{}

/// The MAC starts no frame before control was active.
pub fn starts_only_awake<D: Draws>()
    ensures { StartsOnlyAwake D.answer D.after }
{}

/// A MAC in Deferring that is shown no carrier gives the first nibble of a frame within the next 96 ticks.
pub fn defers_briefly<D: Draws>()
    ensures { DefersBriefly D.answer D.after }
{}

/// A frame is jammed at most once, and none is dropped.
pub fn jams_once<D: Draws>()
    ensures { JamsOnce D.answer D.after }
{}

/// Within 1000 ticks after its first nibble the first H of a frame begins, or the data path is in Pending.
pub fn leaves_or_pends<D: Draws>()
    ensures { LeavesOrPends D.answer D.after }
{}

/// The data path stays in Pending until the node holds its own opportunity.
pub fn pends_until_own<D: Draws>()
    ensures { PendsUntilOwn D.answer D.after }
{}

/// Within 98 ticks after control has gone to Commit it is in Transmit.
pub fn commits_briefly<D: Draws>()
    ensures { CommitsBriefly D.answer D.after }
{}

/// Within 112 ticks after control has gone to Commit the first H of a frame begins.
pub fn leaves_once_committed<D: Draws>()
    ensures { LeavesOnceCommitted D.answer D.after }
{}

/// A frame whose first H begins is popped and spelled whole, one nibble every four ticks, is noted as sent before T begins,
/// and its closer is R.
pub fn sends_whole_piece<D: Draws>()
    ensures { SendsWholePiece D.answer D.after }
{}

/// A frame leaves the queue only within its piece, after the first H and before T.
pub fn sent_in_piece<D: Draws>()
    ensures { SentInPiece D.answer D.after }
{}

/// Where a frame leaves in a piece that is closed by R, the piece is that of this frame, whole, and the drive spells it after
/// pieces of a run. This holds in every run, whatever meets the node's drive.
pub fn closes_whole_frames<D: Draws>()
    ensures { ClosesWholeFrames D.answer D.after }
{}

/// The core of a node runs as a core does that finds in each tick what the node keeps, so each law of a core is one of a
/// node.
pub fn runs_as_core()
    ensures { RunsAsCore }
{}

/// A calm tick of a node tells of nothing.
pub fn calm_tells_nothing()
    ensures { CalmTellsNothing }
{}
