// Runs whose events nobody reads.
ghost use Rattle.t1s_script.specs.declared.script.Script.{Script};
ghost use Rattle.t1s_segment.specs.Stands.{Stands};

use t1s_line::{Event, Watch};
use t1s_segment::Segment;

/// A watch that nobody reads.
#[derive(Drop)]
pub(crate) struct Unread;

impl Watch for Unread {
    ghost sees = { λ _ _ _. Unit {0} };

    /// Does nothing.
    fn event(&mut self, _: &Event<'_>) {}
}

/// Plays the segment to its end.
pub(crate) fn play_unread(seg: &mut Segment)
    ensures { (s : Script) → Stands s 0 seg.old → Stands s s.end seg.new }
{
    while !seg.at_end() {
        if seg.skip(u64::MAX) == 0 {
            seg.tick(&mut Unread);
        }
    }
}
