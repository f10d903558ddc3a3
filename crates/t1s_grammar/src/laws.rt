//! Laws of the definitions alone. Each function is empty: its contract is the law.
ghost use Rattle.t1s_grammar.specs.Laws.{SentPiecesAreRead};

/// A piece that is sent for a frame is a piece of the grammar; where it is good, it is read as that frame,
/// whatever state the descrambler was in.
pub fn sent_pieces_are_read()
    ensures { SentPiecesAreRead }
{}
