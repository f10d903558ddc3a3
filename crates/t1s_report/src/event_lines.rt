// The lines of events.
ghost use Rattle.std.specs.Prelude.{◌≡◌, ◌≤◌, [], ◌∷◌, length, decimal};
ghost use Rattle.std.specs.List.{join_with_byte};
ghost use Rattle.t1s_line.specs.EventRecords.{EventFits, event_record};
ghost use Rattle.t1s_report.specs.EventLines.{event_line, node_event_line, frame_event_line, status_word, status_line, arrival_line};

use crate::arrival_texts::kind_text;
use crate::fields::{clear, count, number, text};
use t1s_base::Line;
use t1s_line::Event;
use t1s_pcs_rx::Kind;

/// Replaces the content of the line by a tick, what happened in it, and the number of the node.
fn node_fields(out: &mut Line, tick: u64, what: &[u8], node: u8)
    requires { length what.now ≤ 10 }
    ensures value { out.new ≡ join_with_byte 32 (decimal tick ∷ what.now ∷ decimal node ∷ []) }
    ensures len { length out.new ≤ 52 }
{
    clear(out);
    number(out, tick);
    text(out, b" ");
    text(out, what);
    count(out, b" ", u64::from(node));
}

/// Replaces the content of the line by that of what happened at a node.
fn node_event_line(out: &mut Line, tick: u64, what: &[u8], node: u8)
    requires { length what.now ≤ 10 }
    ensures { out.new ≡ node_event_line tick what.now node }
{
    node_fields(out, tick, what, node);
    text(out, b"\n");
}

/// Replaces the content of the line by that of what happened to a frame at a node; the frame is named by the number of its
/// offer.
fn frame_event_line(out: &mut Line, tick: u64, what: &[u8], node: u8, frame: u16)
    requires { length what.now ≤ 10 }
    ensures { out.new ≡ frame_event_line tick what.now node frame }
{
    node_fields(out, tick, what, node);
    count(out, b" ", u64::from(frame));
    text(out, b"\n");
}

/// Whether a status is OK, as a word.
fn status_word(ok: bool) -> &'static [u8]
    ensures value { result.now ≡ status_word ok }
    ensures len { length result.now ≤ 4 }
{
    if ok { b"ok" } else { b"lost" }
}

/// Replaces the content of the line by that of the status of a node.
fn status_line(out: &mut Line, tick: u64, node: u8, ok: bool)
    ensures { out.new ≡ status_line tick node ok }
{
    node_fields(out, tick, b"status", node);
    text(out, b" ");
    text(out, status_word(ok));
    text(out, b"\n");
}

/// Replaces the content of the line by that of a piece that arrived at a node.
fn arrival_line(out: &mut Line, tick: u64, node: u8, kind: Kind, frame: &[u8])
    requires { length frame.now ≤ 1522 }
    ensures { out.new ≡ arrival_line tick node kind frame.now }
{
    node_fields(out, tick, b"arrive", node);
    text(out, b" ");
    kind_text(out, kind, frame);
    text(out, b"\n");
}

/// Replaces the content of the line by that of an event: its tick, what happened, the number of the node, and what else
/// there is to tell: the number of an offer, how the status is, or what arrived. The frame of an arrival has at
/// most 1522 octets.
pub fn event_line(out: &mut Line, e: &Event<'_>)
    requires { EventFits (event_record e.now) }
    ensures { out.new ≡ event_line (event_record e.now) }
{
    match *e {
        Event::Taken { tick, node, number } => frame_event_line(out, tick, b"taken", node, number),
        Event::Full { tick, node, number } => frame_event_line(out, tick, b"full", node, number),
        Event::Off { tick, node, number } => frame_event_line(out, tick, b"off", node, number),
        Event::StatusIs { tick, node, ok } => status_line(out, tick, node, ok),
        Event::Jam { tick, node, number } => frame_event_line(out, tick, b"jam", node, number),
        Event::Drop { tick, node, number } => frame_event_line(out, tick, b"drop", node, number),
        Event::Beacon { tick, node } => node_event_line(out, tick, b"beacon", node),
        Event::Commit { tick, node } => node_event_line(out, tick, b"commit", node),
        Event::Quiet { tick, node } => node_event_line(out, tick, b"quiet", node),
        Event::Leave { tick, node, number } => frame_event_line(out, tick, b"leave", node, number),
        Event::Arrive {
            tick,
            node,
            kind,
            frame,
        } => arrival_line(out, tick, node, kind, frame),
    }
}
