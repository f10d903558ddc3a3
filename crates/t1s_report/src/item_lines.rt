// The lines of a decoded capture.
ghost use Rattle.std.specs.Prelude.{◌≡◌, ◌≤◌, length};
ghost use Rattle.t1s_pcs_rx.specs.declared.piece.Kind.{Kind};
ghost use Rattle.t1s_pcs_rx.specs.Views.{view_shown};
ghost use Rattle.t1s_capture.specs.DecodedItems.{BeaconItem, RunItem, BareItem, TornItem};
ghost use Rattle.t1s_capture.specs.HeldItems.{decoded_item};
ghost use Rattle.t1s_report.specs.ItemLines.{IsShowable, closer_name, piece_line, item_line, end_line};

use crate::arrival_texts::kind_text;
use crate::fields::{clear, count, text};
use t1s_base::Line;
use t1s_capture::{Counts, Item};
use t1s_pcs_rx::{Closer, PieceView};

/// The letter of a closer.
fn closer_name(closer: Closer) -> &'static [u8]
    ensures value { result.now ≡ closer_name closer }
    ensures len { length result.now ≡ 1 }
{
    match closer {
        Closer::R => b"R",
        Closer::K => b"K",
        Closer::S => b"S",
    }
}

/// Replaces the content of the line by that of a piece that starts at this tick.
fn piece_line(out: &mut Line, start: u64, view: &PieceView<'_>)
    requires { view.now.kind ≡ Kind.Good → length view.now.frame.now ≤ 1522 }
    ensures { out.new ≡ piece_line start (view_shown view.now) }
{
    clear(out);
    count(out, b"piece ", start);
    count(out, b" ", u64::from(view.lead));
    count(out, b" ", u64::from(view.groups));
    text(out, b" ");
    text(out, closer_name(view.closer));
    text(out, b" ");
    kind_text(out, view.kind, view.frame);
    text(out, b"\n");
}

/// Replaces the content of the line by that of a beacon.
fn beacon_line(out: &mut Line, start: u64)
    ensures { out.new ≡ item_line (BeaconItem start) }
{
    clear(out);
    count(out, b"beacon ", start);
    text(out, b"\n");
}

/// Replaces the content of the line by that of a run.
fn run_line(out: &mut Line, start: u64, end: u64, pieces: u64)
    ensures { out.new ≡ item_line (RunItem start end pieces) }
{
    clear(out);
    count(out, b"run ", start);
    count(out, b" ", end);
    count(out, b" ", pieces);
    text(out, b"\n");
}

/// Replaces the content of the line by that of a bare commit.
fn bare_line(out: &mut Line, start: u64, end: u64)
    ensures { out.new ≡ item_line (BareItem start end) }
{
    clear(out);
    count(out, b"bare ", start);
    count(out, b" ", end);
    text(out, b"\n");
}

/// Replaces the content of the line by that of a torn burst.
fn torn_line(out: &mut Line, start: u64, end: u64, symbols: u64, blur: u64)
    ensures { out.new ≡ item_line (TornItem start end symbols blur) }
{
    clear(out);
    count(out, b"torn ", start);
    count(out, b" ", end);
    count(out, b" ", symbols);
    count(out, b" ", blur);
    text(out, b"\n");
}

/// Replaces the content of the line by that of an item: its first tick from the capture's start, for all but a beacon
/// and a piece the tick after its last, and what it is. The frame of a good piece has at most 1522 octets.
pub fn item_line(out: &mut Line, i: &Item<'_>)
    requires { IsShowable (decoded_item i.now) }
    ensures { out.new ≡ item_line (decoded_item i.now) }
{
    match i {
        Item::Piece { start, view } => piece_line(out, *start, view),
        Item::Beacon { start } => beacon_line(out, *start),
        Item::Run { start, end, pieces } => run_line(out, *start, *end, *pieces),
        Item::Bare { start, end } => bare_line(out, *start, *end),
        Item::Torn {
            start,
            end,
            symbols,
            blur,
        } => torn_line(out, *start, *end, *symbols, *blur),
    }
}

/// Replaces the content of the line by that of the end of a capture: its ticks, its items of each kind, and its pieces.
pub fn end_line(out: &mut Line, n: &Counts)
    ensures { out.new ≡ end_line n.now }
{
    clear(out);
    count(out, b"end ", n.ticks);
    count(out, b" beacons ", n.beacons);
    count(out, b" runs ", n.runs);
    count(out, b" bare ", n.bare);
    count(out, b" torn ", n.torn);
    count(out, b" pieces ", n.pieces);
    count(out, b" good ", n.good);
    text(out, b"\n");
}
