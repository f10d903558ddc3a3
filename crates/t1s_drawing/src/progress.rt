// How far a report has come.
ghost use Rattle.std.specs.Prelude.{◌≡◌, ◌<◌, Ok, Err, IfOk, IfErr, None, get_or};
ghost use Rattle.t1s_drawing.specs.Progress.{at_start, drive_from, turned, event_step, has_wire, hears_at, step, is_lane, told_bar};

use crate::pulses::Pulses;
use crate::report::{Event, Happening, ReportLine};
use crate::shapes::{Drive, Part, Shape, bar, mark, turn_of};
use crate::signs::Signs;
use crate::window::Window;

/// How many nodes a picture has at most.
pub(crate) const MOST_LANES: u32 = 32;

/// Why a line is none of a report, or the input is no report.
#[derive(Clone, Copy)]
pub enum Reason {
    /// The line has more than 4096 octets.
    TooLong,
    /// It is none of the lines of a report.
    Line,
    /// Its tick is below one before it, or it belongs to the events and stands in the summary, or the other way round.
    Order,
    /// The picture has no such node, or the dump doesn't show what this one hears.
    Node,
    /// There are more than 2^30 lines.
    TooMany,
    /// The input ends within a line or before the summary.
    End,
}

/// What each node drives, which nodes have a pulse in the tick of the latest event and how many signs stand there, that tick, and
/// whether the summary has begun.
#[derive(Clone, Copy)]
pub(crate) struct Progress {
    pub(crate) driven: [Option<Drive>; MOST_LANES as usize],
    pub(crate) pulses: Pulses,
    pub(crate) signs: Signs,
    pub(crate) tick: u32,
    pub(crate) in_summary: bool,
}

/// What a line gives.
#[derive(Clone, Copy)]
pub(crate) struct Told {
    /// What its node drove up to its tick.
    pub(crate) bar: Option<Shape>,
    /// What it tells by itself.
    pub(crate) mark: Option<Shape>,
    /// The event that it tells.
    pub(crate) event: Option<Event>,
    /// How far the report had come before it.
    pub(crate) before: Progress,
}

/// What is driven from this tick on.
fn drive_from(tick: u32, part: Option<Part>) -> Option<Drive>
    ensures { result ≡ drive_from tick part }
{
    match part {
        Some(part) => Some(Drive { part, since: tick }),
        None => None,
    }
}

/// Whether the picture has a lane for the node.
fn is_lane(w: &Window, node: u32) -> bool
    ensures value { result ≡ is_lane w.now node }
{
    node < w.nodes && node < MOST_LANES
}

/// Whether the dump shows what the node hears.
fn hears_at(heard: Option<u32>, node: u32) -> bool
    ensures { result ≡ hears_at heard node }
{
    match heard {
        Some(other) => other == node,
        None => false,
    }
}

/// Whether the dump shows what the node hears, where the event tells that.
fn has_wire(w: &Window, event: Event) -> bool
    ensures { result ≡ has_wire w.now event }
{
    match event.what {
        Happening::Hears(_) => hears_at(w.heard, event.node),
        _ => true,
    }
}

impl Progress {
    /// Nothing was read, nobody drives, and no node has a pulse or a sign.
    pub(crate) fn new() -> Progress
        ensures { result ≡ at_start }
    {
        Progress {
            driven: [None; MOST_LANES as usize],
            pulses: Pulses::none(),
            signs: Signs::none(),
            tick: 0,
            in_summary: false,
        }
    }

    /// What the node drives.
    pub(crate) fn drive_of(&self, node: u32) -> Option<Drive>
        ensures { result ≡ get_or self.now.driven node None }
    {
        match self.driven.get(node as usize) {
            Some(driven) => *driven,
            None => None,
        }
    }

    /// Puts what the node drives from now on in the place of what it drove, whose bar ends.
    fn turn(&mut self, w: &Window, event: Event) -> Option<Shape>
        requires { event.node < 32 }
        ensures bar { result ≡ told_bar w.now self.old event }
        ensures after { self.new ≡ turned self.old event }
    {
        match turn_of(event.what) {
            Some(part) => {
                let before = self.drive_of(event.node);
                self.driven[event.node as usize] = drive_from(event.tick, part);
                bar(w, event.node, before, event.tick)
            }
            None => None,
        }
    }

    /// Takes an event.
    fn event(&mut self, w: &Window, event: Event) -> Result<Told, Reason>
        ensures ok { IfOk result (λ told. event_step w.now self.old event ≡ Ok (self.new, told)) }
        ensures err { IfErr result (λ reason. event_step w.now self.old event ≡ Err reason) }
    {
        if self.in_summary || event.tick < self.tick {
            return Err(Reason::Order);
        }
        if !is_lane(w, event.node) {
            return Err(Reason::Node);
        }
        if !has_wire(w, event) {
            return Err(Reason::Node);
        }
        let before = *self;
        let moved = before.tick < event.tick;
        let signs = before.signs.left(moved);
        self.pulses = before.pulses.after(moved, event);
        self.signs = signs.with(event);
        self.tick = event.tick;
        Ok(Told {
            bar: self.turn(w, event),
            mark: mark(w, event, signs.beside(event)),
            event: Some(event),
            before,
        })
    }

    /// Takes a line.
    pub(crate) fn take(&mut self, w: &Window, line: ReportLine) -> Result<Told, Reason>
        ensures ok { IfOk result (λ told. step w.now self.old line ≡ Ok (self.new, told)) }
        ensures err { IfErr result (λ reason. step w.now self.old line ≡ Err reason) }
    {
        match line {
            ReportLine::Event(event) => self.event(w, event),
            ReportLine::Settled => {
                if self.in_summary {
                    return Err(Reason::Order);
                }
                let before = *self;
                self.in_summary = true;
                Ok(Told {
                    bar: None,
                    mark: Some(Shape::Settled),
                    event: None,
                    before,
                })
            }
            ReportLine::Totals(node) => {
                if !self.in_summary {
                    return Err(Reason::Order);
                }
                if !is_lane(w, node) {
                    return Err(Reason::Node);
                }
                Ok(Told {
                    bar: None,
                    mark: Some(Shape::Totals(node)),
                    event: None,
                    before: *self,
                })
            }
            ReportLine::Offer => {
                if !self.in_summary {
                    return Err(Reason::Order);
                }
                Ok(Told {
                    bar: None,
                    mark: None,
                    event: None,
                    before: *self,
                })
            }
        }
    }
}
