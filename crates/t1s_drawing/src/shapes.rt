// What a picture is made of.
ghost use Rattle.std.specs.Prelude.{◌≡◌};
ghost use Rattle.t1s_drawing.specs.Shapes.{bar, clipped, has_mark, mark, turn_of};

use crate::report::{Event, Happening};
use crate::window::Window;

/// What a node drives.
#[derive(Clone, Copy)]
pub(crate) enum Part {
    Beacon,
    Commit,
    /// A frame, and what follows it until the next one: the number of its offer.
    Frame(u32),
}

/// What a node drives, and since when.
#[derive(Clone, Copy)]
pub(crate) struct Drive {
    pub(crate) part: Part,
    pub(crate) since: u32,
}

/// A shape of the picture.
#[derive(Clone, Copy)]
pub(crate) enum Shape {
    /// What a node drove from the one tick up to the other.
    Bar {
        node: u32,
        part: Part,
        start: u32,
        stop: u32,
    },
    /// What happened at a node in a tick, and how many signs stand before it there.
    Mark {
        event: Event,
        beside: u8,
    },
    /// The line of the tick in which all were in step.
    Settled,
    /// The line of what was counted at the node.
    Totals(u32),
    /// The lane of the node.
    Lane(u32),
    /// The line at a hundred of ticks.
    Grid(u32),
    /// A row of the legend.
    Legend(u32),
}

/// The bar of the node from the one tick up to the other, as far as the window shows it.
fn clipped(w: &Window, node: u32, drive: Drive, stop: u32) -> Option<Shape>
    ensures { result ≡ clipped w.now node drive stop }
{
    let start = drive.since.max(w.from);
    let stop = stop.min(w.until);
    if start < stop {
        Some(Shape::Bar {
            node,
            part: drive.part,
            start,
            stop,
        })
    } else {
        None
    }
}

/// The bar of what the node drove up to the tick, as far as the window shows it.
pub(crate) fn bar(w: &Window, node: u32, driven: Option<Drive>, stop: u32) -> Option<Shape>
    ensures { result ≡ bar w.now node driven stop }
{
    match driven {
        Some(drive) => clipped(w, node, drive, stop),
        None => None,
    }
}

/// What a node drives from the tick of the event on, where the event tells it: a part or nothing.
pub(crate) fn turn_of(what: Happening) -> Option<Option<Part>>
    ensures { result ≡ turn_of what }
{
    match what {
        Happening::Beacon => Some(Some(Part::Beacon)),
        Happening::Commit => Some(Some(Part::Commit)),
        Happening::Leave(number) => Some(Some(Part::Frame(number))),
        Happening::Quiet => Some(None),
        _ => None,
    }
}

/// Whether the event has a mark of its own. What only begins or ends a bar has none.
fn has_mark(what: Happening) -> bool
    ensures { result ≡ has_mark what }
{
    !matches!(
        what,
        Happening::Commit | Happening::Leave(_) | Happening::Quiet | Happening::Hears(_)
    )
}

/// The mark of the event beside as many others, where it has one and the window shows its tick.
pub(crate) fn mark(w: &Window, event: Event, beside: u8) -> Option<Shape>
    ensures { result ≡ mark w.now event beside }
{
    if has_mark(event.what) && w.from <= event.tick && event.tick < w.until {
        Some(Shape::Mark { event, beside })
    } else {
        None
    }
}
