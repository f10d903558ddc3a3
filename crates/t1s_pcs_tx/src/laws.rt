//! Laws of the table over whole runs. Each function is empty: its contract is the law.
ghost use Rattle.t1s_pcs_tx.specs.Laws.{SpellsWhatItPops, SendsFrames};

/// A piece is spelled of what is popped for it: its lead, two H, the nibbles from the fifth on, scrambled, T, and the
/// closer.
pub fn spells_what_it_pops()
    ensures { SpellsWhatItPops }
{}

/// A piece for which the nibbles of a frame are popped carries that frame.
pub fn sends_frames()
    ensures { SendsFrames }
{}
