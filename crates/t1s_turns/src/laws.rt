//! Laws of one node over the waves that pass it. Each function is empty: its contract is the law.
ghost use Rattle.t1s_turns.specs.FirstFrame.{WaitsForQuiet};
ghost use Rattle.t1s_turns.specs.Laws.{KeepsTurns};
ghost use Rattle.t1s_turns.specs.Leavings.{LeavesOnce};
ghost use Rattle.t1s_turns.specs.OwnRun.{OwnsARun};
ghost use Rattle.t1s_turns.specs.NextOpportunity.{TurnComes};
ghost use Rattle.t1s_turns.specs.StartBound.{LeavesInTime};

use t1s_mac::Draws;

/// A node keeps its turn: in each tick it keeps and drives what the waves say that have passed it.
pub fn keeps_turns()
    ensures { KeepsTurns }
{}

/// What a node drives while the opportunity is its own: a run of one piece or more, each of which carries a frame that
/// leaves in it.
pub fn owns_a_run<D: Draws>()
    ensures { OwnsARun D.answer D.after }
{}

/// Only carrier and the node's own opportunity keep a frame that the MAC has not begun from quiet.
pub fn waits_for_quiet<D: Draws>()
    ensures { WaitsForQuiet D.answer D.after }
{}

/// No number leaves twice, where the numbers of the offers ascend by some rank.
pub fn leaves_once<D: Draws>()
    ensures { LeavesOnce D.answer D.after }
{}

/// At a node that has seen a wave, each ID of its own has its opportunity within `count + 1` opportunities that are used
/// to their end.
pub fn turn_comes()
    ensures { TurnComes }
{}

/// A frame that stands behind `q` others in a node's queue leaves within `q + 1` times the bound of a start, wherever it is
/// on its way, as far as the waves that pass the node are told.
pub fn leaves_in_time()
    ensures { LeavesInTime }
{}
