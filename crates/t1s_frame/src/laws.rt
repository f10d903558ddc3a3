//! Laws of the definitions alone, which hold for every list. Each function is empty: its contract is the law.
ghost use Rattle.t1s_frame.specs.Laws.{GoodExactlyForFrames};

/// A piece is `Good` exactly where its nibbles from the tenth on are 5, 5, D and those of a frame.
pub fn good_exactly_for_frames()
    ensures { GoodExactlyForFrames }
{}
