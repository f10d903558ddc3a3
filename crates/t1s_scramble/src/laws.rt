//! Laws over scrambled and descrambled lists.

ghost use Rattle.t1s_scramble.specs.Laws.{BitsFindTheirStep, NibblesFindTheirStep};

/// A descrambler with any history is right from the 18th bit on of what a scrambler with any history sent.
pub fn bits_find_their_step()
    ensures { BitsFindTheirStep }
{}

/// So it is right from the sixth nibble on.
pub fn nibbles_find_their_step()
    ensures { NibblesFindTheirStep }
{}
