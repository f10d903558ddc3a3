// How many signs stand at each node in the latest tick.
ghost use Rattle.std.specs.Prelude.{◌≡◌, ◌<◌, get_or};
ghost use Rattle.t1s_drawing.specs.Signs.{beside, is_sign, no_signs, one_more, signs_left, with_sign};

use crate::report::{Event, Happening};

/// How many events of each node are shown as words in one tick.
#[derive(Clone, Copy)]
pub(crate) struct Signs {
    pub(crate) counts: [u8; 32],
}

/// Whether the event is shown as words.
fn is_sign(what: Happening) -> bool
    ensures { result ≡ is_sign what }
{
    matches!(
        what,
        Happening::Taken(_)
            | Happening::Full(_)
            | Happening::Off(_)
            | Happening::InStep
            | Happening::LostStep
            | Happening::Jam(_)
            | Happening::Drop(_)
    )
}

/// One more, up to 63: 64 places are side by side, and what is more stands in the last of them.
fn one_more(count: u8) -> u8
    ensures { result ≡ one_more count }
{
    if count < 63 { count + 1 } else { count }
}

impl Signs {
    /// None stands anywhere.
    pub(crate) fn none() -> Signs
        ensures { result ≡ no_signs }
    {
        Signs { counts: [0; 32] }
    }

    /// How many stand at the node.
    fn at(&self, node: u32) -> u8
        ensures { result ≡ get_or self.now.counts node 0 }
    {
        match self.counts.get(node as usize) {
            Some(count) => *count,
            None => 0,
        }
    }

    /// Those that are left where time may have gone on.
    pub(crate) fn left(self, moved: bool) -> Signs
        ensures { result ≡ signs_left self moved }
    {
        if moved { Signs::none() } else { self }
    }

    /// How many stand beside that of the event, before it.
    pub(crate) fn beside(&self, event: Event) -> u8
        ensures { result ≡ beside self.now event }
    {
        if is_sign(event.what) {
            self.at(event.node)
        } else {
            0
        }
    }

    /// With that of the event, if it has one.
    pub(crate) fn with(self, event: Event) -> Signs
        requires { event.node < 32 }
        ensures { result ≡ with_sign self event }
    {
        if !is_sign(event.what) {
            return self;
        }
        let mut counts = self.counts;
        counts[event.node as usize] = one_more(self.at(event.node));
        Signs { counts }
    }
}
