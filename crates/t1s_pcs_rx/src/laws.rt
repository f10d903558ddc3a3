//! Laws of the definitions alone. Each function is empty: its contract is the law.
ghost use Rattle.t1s_pcs_rx.specs.Laws.{FramesAreShown, PiecesAreHandedOn};
ghost use Rattle.t1s_pcs_rx.specs.Tails.{EachPieceGivesEvent, EndedGivesNoEvent, NothingEndsBurst, OnlyPiecesGiveEvents, PiecesEndApart, TailsAreRead, TailsShowFrames, WholePiecesGiveEvents};

/// A receiver in any state that hears a whole burst after nothing, and does not drive meanwhile, hands on exactly
/// its pieces, each in the last tick of its closer.
pub fn pieces_are_handed_on()
    ensures { PiecesAreHandedOn }
{}

/// The view of a piece that stands for a frame is of kind `Good` and has the octets of that frame.
pub fn frames_are_shown()
    ensures { FramesAreShown }
{}

/// A receiver whose reading of a burst has ended tells nothing, and keeps what it has, until a tick of nothing ends the
/// burst.
pub fn ended_gives_no_event()
    ensures ended { EndedGivesNoEvent }
    ensures nothing { NothingEndsBurst }
{}

/// A receiver outside of a burst that hears one from any of its ticks on and up to any of them, and does not drive
/// meanwhile, hands on exactly the pieces of that tail. Where the first tick heard is the first of a J of a lead, and
/// another J stands after it, these are that lead's piece, with as many J as were heard, and all after it; where it is
/// any other tick of a piece, they are none.
pub fn tails_are_read()
    ensures events { TailsAreRead }
    ensures only_pieces { OnlyPiecesGiveEvents }
    ensures each_piece { EachPieceGivesEvent }
    ensures whole_pieces { WholePiecesGiveEvents }
    ensures apart { PiecesEndApart }
    ensures frames { TailsShowFrames }
{}
