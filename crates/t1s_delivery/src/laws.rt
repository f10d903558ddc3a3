//! Laws of the frames of a run.
ghost use Rattle.t1s_delivery.specs.Delivered.{DeliversFrames};

/// On a fit script each frame that is taken once every status is OK leaves within its bound, once, and arrives unchanged at every
/// other node, as far as the first ticks of the run leave room for it; and nothing else arrives in them: each arrival is good, is
/// due from exactly one leaving, and has the octets of its frame.
pub fn delivers_frames()
    ensures { DeliversFrames }
{}
