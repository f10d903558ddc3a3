// Which nodes have a pulse in the latest tick.
ghost use Rattle.std.specs.Prelude.{◌≡◌, ◌<◌, false, get_or};
ghost use Rattle.t1s_drawing.specs.Pulses.{is_pulse, no_pulses, pulses_left, risen};

use crate::report::{Event, Happening};

/// The nodes that have a pulse, and whether there is one.
#[derive(Clone, Copy)]
pub(crate) struct Pulses {
    pub(crate) nodes: [bool; 32],
    pub(crate) any: bool,
}

/// Whether the event is shown for one tick.
fn is_pulse(what: Happening) -> bool
    ensures { result ≡ is_pulse what }
{
    !matches!(
        what,
        Happening::Beacon
            | Happening::Commit
            | Happening::Leave(_)
            | Happening::Quiet
            | Happening::InStep
            | Happening::LostStep
            | Happening::Hears(_)
    )
}

impl Pulses {
    /// No node has one.
    pub(crate) fn none() -> Pulses
        ensures { result ≡ no_pulses }
    {
        Pulses {
            nodes: [false; 32],
            any: false,
        }
    }

    /// Whether the node has one.
    pub(crate) fn is_up(&self, node: u32) -> bool
        ensures { result ≡ get_or self.now.nodes node false }
    {
        match self.nodes.get(node as usize) {
            Some(up) => *up,
            None => false,
        }
    }

    /// Those that are left where time may have gone on.
    fn left(self, moved: bool) -> Pulses
        ensures { result ≡ pulses_left self moved }
    {
        if moved { Pulses::none() } else { self }
    }

    /// With that of the event, if it has one.
    fn risen(self, event: Event) -> Pulses
        requires { event.node < 32 }
        ensures { result ≡ risen self event }
    {
        if !is_pulse(event.what) {
            return self;
        }
        let mut nodes = self.nodes;
        nodes[event.node as usize] = true;
        Pulses { nodes, any: true }
    }

    /// Those after an event, where time may have gone on to it.
    pub(crate) fn after(self, moved: bool, event: Event) -> Pulses
        requires { event.node < 32 }
        ensures { result ≡ risen (pulses_left self moved) event }
    {
        self.left(moved).risen(event)
    }
}
