// How the parts of a picture or a dump are written, each text by one `write` call.
ghost use Rattle.std.specs.Prelude.{◌≡◌, ◌+◌, ◌≤◌, ◌≢◌, ◌⊎◌, true, List, [], ◌++◌, length, codes, decimal};
ghost use Rattle.t1s_drawing.specs.Calls.{HasFaultCause, Wrote};
ghost use Rattle.t1s_waveform.specs.Dumps.{items_text};
ghost use Rattle.t1s_drawing.specs.Pieces.{each_text, falls_of, grid_at, piece_shape, piece_text};
ghost use Rattle.t1s_drawing.specs.Picture.{head, head_text, height, picture_closing, picture_opening, shapes_text, width, with_grid, with_lanes};
ghost use Rattle.t1s_drawing.specs.Progress.{at_start};
ghost use Rattle.t1s_drawing.specs.Written.{closing, opening, reason_name, refused_line, told_text};

use crate::drawn_shapes::{label, plain_box, put_optional, summary_y};
use crate::dump::{write_changes, write_dump_opening, write_moved};
use crate::progress::{Progress, Reason, Told};
use crate::shapes::{Shape, bar};
use crate::window::{Form, Window};
use t1s_base::{Failed, Line, Sink};
use t1s_waveform::{number, put_falls, put_scope, put_start, text};

/// The parts of a picture that have a shape for each number from 0 on.
#[derive(Clone, Copy)]
pub(crate) enum Piece {
    /// The lane of each node.
    Lanes,
    /// The line at each hundred of ticks.
    Grid,
    /// The rows of the legend.
    Legend,
    /// The bar of what each node drives when the run ends.
    Ends,
    /// The declarations of the wires of each node.
    Scopes,
    /// The values of the wires of each node at tick 0.
    Starts,
    /// The ends of the pulses of each node.
    Falls,
}

/// The line at a hundred of ticks, where the window shows it.
fn grid_at(w: &Window, row: u32) -> Option<Shape>
    ensures { result ≡ grid_at w.now row }
{
    let tick = 100 * u64::from(row);
    if u64::from(w.from) <= tick && tick <= u64::from(w.until) {
        Some(Shape::Grid(tick as u32))
    } else {
        None
    }
}

/// The shape of a part of a picture that has this number.
fn piece_shape(piece: Piece, w: &Window, progress: &Progress, row: u32) -> Option<Shape>
    ensures { result ≡ piece_shape piece w.now progress.now row }
{
    match piece {
        Piece::Lanes => Some(Shape::Lane(row)),
        Piece::Grid => grid_at(w, row),
        Piece::Legend => Some(Shape::Legend(row)),
        Piece::Ends => bar(w, row, progress.drive_of(row), w.until),
        Piece::Scopes | Piece::Starts | Piece::Falls => None,
    }
}

/// Appends the changes by which the pulses of a node fall, if it has one.
fn put_falls_of(out: &mut Line, progress: &Progress, node: u32)
    requires { length out.old ≤ 4000 }
    ensures { out.new ≡ out.old ++ items_text (falls_of progress.now node) }
{
    if progress.pulses.is_up(node) {
        put_falls(out, node);
    }
}

/// The text of a part that has this number, in an empty line.
fn put_piece(out: &mut Line, piece: Piece, w: &Window, progress: &Progress, row: u32)
    requires { out.old ≡ [] }
    ensures { out.new ≡ piece_text piece w.now progress.now row }
{
    match piece {
        Piece::Scopes => put_scope(out, row),
        Piece::Starts => put_start(out, row),
        Piece::Falls => put_falls_of(out, progress, row),
        Piece::Lanes | Piece::Grid | Piece::Legend | Piece::Ends => {
            put_optional(out, w, b"", piece_shape(piece, w, progress, row));
        }
    }
}

/// Writes a line.
pub(crate) fn write_line<K: Sink>(line: &Line, sink: &mut K) -> Result<(), Failed>
    ensures { Wrote K.written K.faults line.now sink.old sink.new result }
{
    match sink.write(line.as_slice()) {
        Ok(()) => Ok(()),
        Err(_) => Err(Failed),
    }
}

/// Writes the text of a part that has this number.
fn write_piece<K: Sink>(
    piece: Piece,
    w: &Window,
    progress: &Progress,
    row: u32,
    sink: &mut K,
) -> Result<(), Failed>
    ensures { Wrote K.written K.faults (piece_text piece w.now progress.now row) sink.old sink.new result }
{
    let mut line = Line::new();
    put_piece(&mut line, piece, w, progress, row);
    write_line(&line, sink)
}

/// Writes the texts of a part that have the numbers below `count`.
pub(crate) fn write_each<K: Sink>(
    piece: Piece,
    w: &Window,
    progress: &Progress,
    count: u32,
    sink: &mut K,
) -> Result<(), Failed>
    ensures { Wrote K.written K.faults (each_text (piece_text piece w.now progress.now) count) sink.old sink.new result }
{
    for row in 0..count {
        match write_piece(piece, w, progress, row, sink) {
            Ok(()) => {}
            Err(failed) => return Err(failed),
        }
    }
    Ok(())
}

/// How wide a picture is.
fn width(w: &Window) -> u64
    ensures { result ≡ width w.now }
{
    170 + u64::from(w.until.saturating_sub(w.from).max(850))
}

/// How high a picture is.
fn height(w: &Window) -> u64
    ensures { result ≡ height w.now }
{
    summary_y(w) + 16 * u64::from(w.nodes) + 30
}

/// The start of the element that holds all others, and how its classes look.
fn put_head(out: &mut Line, w: &Window)
    ensures value { out.new ≡ head w.now }
    ensures len { length out.new ≤ 1000 }
{
    out.clear();
    text(out, b"<svg xmlns='http://www.w3.org/2000/svg' width='");
    number(out, width(w));
    text(out, b"' height='");
    number(out, height(w));
    text(out, b"'>\n");
    text(
        out,
        b"<style>text{font:11px sans-serif}.paper{fill:white}.lane{fill:#f1f3f5}.grid{fill:#dde1e6}.cycle{fill:#9aa5b1}",
    );
    text(
        out,
        b".beacon{fill:#3b6fb6}.commit{fill:#f2b134}.frame{fill:#4f9d69}.good{fill:#1b7340}.bad{fill:#c62828}",
    );
    text(
        out,
        b".number{fill:white}.taken{fill:#3b6fb6}.jam{fill:#c05a00}.ok{fill:#1b7340}.tick{fill:#666}</style>\n",
    );
}

/// Writes the head, the paper below all else, and a note.
fn write_head<K: Sink>(w: &Window, sink: &mut K) -> Result<(), Failed>
    ensures { Wrote K.written K.faults (head_text w.now) sink.old sink.new result }
{
    let mut line = Line::new();
    put_head(&mut line, w);
    plain_box(&mut line, b"paper", (0, 0), (width(w), height(w)));
    label(
        &mut line,
        b"note",
        70,
        14,
        b"ticks of 100 ns; +K is offer K, taken into the queue; signs of one tick stand side by side",
    );
    write_line(&line, sink)
}

/// Writes the head, and the lanes.
fn write_lanes<K: Sink>(w: &Window, progress: &Progress, sink: &mut K) -> Result<(), Failed>
    requires { progress.now ≡ at_start }
    ensures { Wrote K.written K.faults (with_lanes w.now) sink.old sink.new result }
{
    match write_head(w, sink) {
        Ok(()) => write_each(Piece::Lanes, w, progress, w.nodes, sink),
        Err(failed) => Err(failed),
    }
}

/// Writes the head, the lanes and the ticks.
fn write_grid<K: Sink>(w: &Window, progress: &Progress, sink: &mut K) -> Result<(), Failed>
    requires { progress.now ≡ at_start }
    ensures { Wrote K.written K.faults (with_grid w.now) sink.old sink.new result }
{
    match write_lanes(w, progress, sink) {
        Ok(()) => write_each(Piece::Grid, w, progress, w.until / 100 + 1, sink),
        Err(failed) => Err(failed),
    }
}

/// Writes all that stands before the shapes of the lines.
fn write_picture_opening<K: Sink>(
    w: &Window,
    progress: &Progress,
    sink: &mut K,
) -> Result<(), Failed>
    requires { progress.now ≡ at_start }
    ensures { Wrote K.written K.faults (picture_opening w.now) sink.old sink.new result }
{
    match write_grid(w, progress, sink) {
        Ok(()) => write_each(Piece::Legend, w, progress, 5, sink),
        Err(failed) => Err(failed),
    }
}

/// Writes the end of the element that holds all others.
fn write_tail<K: Sink>(sink: &mut K) -> Result<(), Failed>
    ensures { Wrote K.written K.faults (codes "</svg>\n") sink.old sink.new result }
{
    match sink.write(b"</svg>\n") {
        Ok(()) => Ok(()),
        Err(_) => Err(Failed),
    }
}

/// Writes all that stands after the shapes of the lines.
fn write_picture_closing<K: Sink>(
    w: &Window,
    progress: &Progress,
    sink: &mut K,
) -> Result<(), Failed>
    ensures { Wrote K.written K.faults (picture_closing w.now progress.now) sink.old sink.new result }
{
    match write_each(Piece::Ends, w, progress, w.nodes, sink) {
        Ok(()) => write_tail(sink),
        Err(failed) => Err(failed),
    }
}

/// Writes the shapes that a line gives.
fn write_shapes<K: Sink>(w: &Window, line: &[u8], told: Told, sink: &mut K) -> Result<(), Failed>
    ensures { Wrote K.written K.faults (shapes_text w.now line.now told) sink.old sink.new result }
{
    let mut out = Line::new();
    put_optional(&mut out, w, line, told.bar);
    put_optional(&mut out, w, line, told.mark);
    write_line(&out, sink)
}

/// Writes all that stands before the texts of the lines.
pub(crate) fn write_opening<K: Sink>(
    w: &Window,
    progress: &Progress,
    sink: &mut K,
) -> Result<(), Failed>
    requires { progress.now ≡ at_start }
    ensures { Wrote K.written K.faults (opening w.now) sink.old sink.new result }
{
    match w.form {
        Form::Picture => write_picture_opening(w, progress, sink),
        Form::Waveform => write_dump_opening(w, progress, sink),
    }
}

/// Writes what a line gives.
pub(crate) fn write_told<K: Sink>(
    w: &Window,
    line: &[u8],
    told: Told,
    sink: &mut K,
) -> Result<(), Failed>
    ensures { Wrote K.written K.faults (told_text w.now line.now told) sink.old sink.new result }
{
    match w.form {
        Form::Picture => write_shapes(w, line, told, sink),
        Form::Waveform => write_changes(w, &told.before, told.event, sink),
    }
}

/// Writes all that stands after the texts of the lines.
pub(crate) fn write_closing<K: Sink>(
    w: &Window,
    progress: &Progress,
    sink: &mut K,
) -> Result<(), Failed>
    ensures { Wrote K.written K.faults (closing w.now progress.now) sink.old sink.new result }
{
    match w.form {
        Form::Picture => write_picture_closing(w, progress, sink),
        Form::Waveform => write_moved(w, progress, w.until, sink),
    }
}

/// The name of a reason.
fn reason_name(reason: Reason) -> &'static [u8]
    ensures value { result.now ≡ reason_name reason }
    ensures len { length result.now ≤ 8 }
{
    match reason {
        Reason::TooLong => b"TooLong",
        Reason::Line => b"Line",
        Reason::Order => b"Order",
        Reason::Node => b"Node",
        Reason::TooMany => b"TooMany",
        Reason::End => b"End",
    }
}

/// Writes the line of the refusal of the line with this number.
pub(crate) fn write_refusal<K: Sink>(
    line_number: u32,
    reason: Reason,
    sink: &mut K,
) -> Result<(), Failed>
    ensures { Wrote K.written K.faults (refused_line line_number reason) sink.old sink.new result }
{
    let mut line = Line::new();
    text(&mut line, b"refused ");
    number(&mut line, u64::from(line_number));
    text(&mut line, b" ");
    text(&mut line, reason_name(reason));
    text(&mut line, b"\n");
    write_line(&line, sink)
}
