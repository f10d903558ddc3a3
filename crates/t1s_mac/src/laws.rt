//! Laws of the table over whole runs. Each function is empty: its contract is the law.
ghost use Rattle.t1s_mac.specs.Laws.{DropsAtSixteenthJam, SendsWholeFrame};

use crate::Draws;

/// A frame is dropped exactly at the end of its 16th jam.
pub fn drops_at_sixteenth_jam<D: Draws>()
    ensures { DropsAtSixteenthJam D.answer D.after }
{}

/// A frame that is sent was given out whole: from the start of its sending on, its nibbles in order.
pub fn sends_whole_frame<D: Draws>()
    ensures { SendsWholeFrame D.answer D.after }
{}
