// The text of each shape.
ghost use Rattle.std.specs.Prelude.{◌≡◌, ◌+◌, ◌-◌, ◌*◌, ◌<◌, ◌≤◌, ◌^◌, length};
ghost use Rattle.t1s_drawing.specs.ShapeTexts.{bar_text, box_text, bottom, column_x, grid_text, label_text, lane_text, lane_y, legend_class, legend_text, legend_words, mark_text, numbered_text, optional_text, part_class, shape_text, shown, summary_y, title_text, totals_class};

use crate::report::{Event, Happening};
use crate::shapes::{Part, Shape};
use crate::texts::{begin_box, begin_words, end_box, end_words};
use crate::window::Window;
use t1s_base::Line;
use t1s_waveform::{number, text};

/// Where the first tick of the window stands.
pub(crate) const LEFT: u64 = 70;

/// How wide a sign may be where others stand beside it.
const SIGN_ROOM: u64 = 36;

/// Where a tick stands: each one is one wide.
fn column_x(w: &Window, tick: u32) -> u64
    ensures value { result ≡ column_x w.now tick }
    ensures small { result < 2 ^ 33 }
{
    LEFT + u64::from(tick.saturating_sub(w.from))
}

/// Where the lane of a node begins.
fn lane_y(node: u32) -> u64
    ensures value { result ≡ lane_y node }
    ensures small { result < 2 ^ 40 }
{
    50 + 48 * u64::from(node)
}

/// Where the lanes end.
pub(crate) fn bottom(w: &Window) -> u64
    ensures value { result ≡ bottom w.now }
    ensures small { result < 2 ^ 40 }
{
    lane_y(w.nodes)
}

/// The class of what a node drives.
fn part_class(part: Part) -> &'static [u8]
    ensures value { result.now ≡ part_class part }
    ensures len { length result.now ≤ 8 }
{
    match part {
        Part::Beacon => b"beacon",
        Part::Commit => b"commit",
        Part::Frame(_) => b"frame",
    }
}

/// Words alone.
pub(crate) fn label(out: &mut Line, class: &[u8], x: u64, y: u64, words: &[u8])
    requires room { length out.old ≤ 2000 }
    requires class { length class.now ≤ 20 }
    requires words { length words.now ≤ 256 }
    ensures value { out.new ≡ label_text out.old class.now x y words.now }
    ensures len { length out.new ≤ length out.old + 400 }
{
    begin_words(out, class, x, y);
    text(out, words);
    end_words(out);
}

/// Words, and a number after them.
fn numbered(out: &mut Line, class: &[u8], x: u64, y: u64, words: &[u8], n: u64)
    requires room { length out.old ≤ 2000 }
    requires class { length class.now ≤ 20 }
    requires words { length words.now ≤ 256 }
    ensures value { out.new ≡ numbered_text out.old class.now x y words.now n }
    ensures len { length out.new ≤ length out.old + 400 }
{
    begin_words(out, class, x, y);
    text(out, words);
    number(out, n);
    end_words(out);
}

/// A box without a title.
pub(crate) fn plain_box(out: &mut Line, class: &[u8], place: (u64, u64), size: (u64, u64))
    requires room { length out.old ≤ 2000 }
    requires class { length class.now ≤ 20 }
    ensures value { out.new ≡ box_text out.old class.now place size }
    ensures len { length out.new ≤ length out.old + 200 }
{
    begin_box(out, class, place, size);
    end_box(out);
}

/// The title of a bar: what it is, and its ticks.
fn title(out: &mut Line, class: &[u8], start: u32, stop: u32)
    requires room { length out.old ≤ 2000 }
    requires class { length class.now ≤ 20 }
    ensures value { out.new ≡ title_text out.old class.now start stop }
    ensures len { length out.new ≤ length out.old + 100 }
{
    text(out, b"<title>");
    text(out, class);
    text(out, b" ");
    number(out, u64::from(start));
    text(out, b" to ");
    number(out, u64::from(stop));
    text(out, b"</title>");
}

/// What a node drove from the one tick up to the other; a frame has the number of its offer on it.
fn put_bar(out: &mut Line, w: &Window, node: u32, part: Part, start: u32, stop: u32)
    requires { length out.old ≤ 1000 }
    ensures value { out.new ≡ bar_text out.old w.now node part start stop }
    ensures len { length out.new ≤ length out.old + 800 }
{
    let x = column_x(w, start);
    let y = lane_y(node) + 16;
    let class = part_class(part);
    begin_box(
        out,
        class,
        (x, y),
        (u64::from(stop.saturating_sub(start)), 18),
    );
    title(out, class, start, stop);
    end_box(out);
    if let Part::Frame(n) = part {
        numbered(out, b"number", x + 3, y + 13, b"", u64::from(n));
    }
}

/// A mark of an event, beside as many others.
fn put_mark(out: &mut Line, w: &Window, event: Event, beside: u8)
    requires { length out.old ≤ 1000 }
    ensures value { out.new ≡ mark_text out.old w.now event beside }
    ensures len { length out.new ≤ length out.old + 800 }
{
    let x = column_x(w, event.tick) + SIGN_ROOM * u64::from(beside);
    let y = lane_y(event.node);
    match event.what {
        Happening::Taken(n) => numbered(out, b"taken", x, y + 11, b"+", u64::from(n)),
        Happening::Full(n) => numbered(out, b"bad", x, y + 11, b"full ", u64::from(n)),
        Happening::Off(n) => numbered(out, b"bad", x, y + 11, b"off ", u64::from(n)),
        Happening::InStep => label(out, b"ok", x, y + 11, b"ok"),
        Happening::LostStep => label(out, b"bad", x, y + 11, b"lost"),
        Happening::Jam(n) => numbered(out, b"jam", x, y + 11, b"jam ", u64::from(n)),
        Happening::Drop(n) => numbered(out, b"bad", x, y + 11, b"drop ", u64::from(n)),
        Happening::Beacon => plain_box(out, b"cycle", (x, 44), (1, bottom(w) - 44)),
        Happening::Good => plain_box(out, b"good", (x, y + 36), (4, 8)),
        Happening::Bad => plain_box(out, b"bad", (x, y + 36), (4, 8)),
        Happening::Commit | Happening::Quiet | Happening::Leave(_) | Happening::Hears(_) => {}
    }
}

/// The octets of a line of the summary that are shown: the first 256.
fn shown(line: &[u8]) -> &[u8]
    ensures value { result.now ≡ shown line.now }
    ensures len { length result.now ≤ 256 }
{
    &line[..line.len().min(256)]
}

/// The class of the line of what was counted at a node: whether it tells of a clash.
fn totals_class(line: &[u8]) -> &'static [u8]
    ensures value { result.now ≡ totals_class line.now }
    ensures len { length result.now ≤ 8 }
{
    let last = line.len().saturating_sub(8);
    if &line[last..] == b" clash 0".as_slice() {
        b"totals"
    } else {
        b"bad"
    }
}

/// The lane of a node, and its name.
fn put_lane(out: &mut Line, w: &Window, node: u32)
    requires { length out.old ≤ 1000 }
    ensures value { out.new ≡ lane_text out.old w.now node }
    ensures len { length out.new ≤ length out.old + 800 }
{
    let y = lane_y(node);
    let width = u64::from(w.until.saturating_sub(w.from));
    plain_box(out, b"lane", (LEFT, y), (width, 44));
    numbered(out, b"name", 8, y + 29, b"node ", u64::from(node));
}

/// The line at a tick that is a hundred times a number, with the tick and its microseconds beside it.
fn put_grid(out: &mut Line, w: &Window, tick: u32)
    requires { length out.old ≤ 1000 }
    ensures value { out.new ≡ grid_text out.old w.now tick }
    ensures len { length out.new ≤ length out.old + 800 }
{
    let x = column_x(w, tick);
    plain_box(out, b"grid", (x, 34), (1, bottom(w) - 34));
    begin_words(out, b"tick", x, 30);
    number(out, u64::from(tick));
    text(out, b" = ");
    number(out, u64::from(tick / 10));
    text(out, b" us");
    end_words(out);
}

/// The class of a row of the legend.
fn legend_class(row: u32) -> &'static [u8]
    ensures value { result.now ≡ legend_class row }
    ensures len { length result.now ≤ 8 }
{
    match row {
        0 => b"beacon",
        1 => b"commit",
        2 => b"frame",
        3 => b"good",
        _ => b"bad",
    }
}

/// What a row of the legend says.
fn legend_words(row: u32) -> &'static [u8]
    ensures value { result.now ≡ legend_words row }
    ensures len { length result.now ≤ 40 }
{
    match row {
        0 => b"drives a beacon",
        1 => b"drives a commit",
        2 => b"drives a frame",
        3 => b"hears a good frame",
        _ => b"hears a piece that is broken",
    }
}

/// A row of the legend.
fn put_legend(out: &mut Line, w: &Window, row: u32)
    requires { length out.old ≤ 1000 }
    ensures value { out.new ≡ legend_text out.old w.now row }
    ensures len { length out.new ≤ length out.old + 800 }
{
    let x = LEFT + 170 * u64::from(row);
    let y = bottom(w) + 12;
    plain_box(out, legend_class(row), (x, y), (24, 12));
    label(out, b"note", x + 30, y + 10, legend_words(row));
}

/// Where the line of the summary about all nodes stands.
pub(crate) fn summary_y(w: &Window) -> u64
    ensures value { result ≡ summary_y w.now }
    ensures small { result < 2 ^ 41 }
{
    bottom(w) + 50
}

/// The text of a shape. The line is the one of the report that gives it.
pub(crate) fn put_shape(out: &mut Line, w: &Window, line: &[u8], shape: Shape)
    requires { length out.old ≤ 1000 }
    ensures value { out.new ≡ shape_text out.old w.now line.now shape }
    ensures len { length out.new ≤ length out.old + 800 }
{
    match shape {
        Shape::Bar {
            node,
            part,
            start,
            stop,
        } => put_bar(out, w, node, part, start, stop),
        Shape::Mark { event, beside } => put_mark(out, w, event, beside),
        Shape::Settled => label(out, b"note", LEFT, summary_y(w), shown(line)),
        Shape::Totals(node) => label(
            out,
            totals_class(line),
            LEFT,
            summary_y(w) + 16 * (1 + u64::from(node)),
            shown(line),
        ),
        Shape::Lane(node) => put_lane(out, w, node),
        Shape::Grid(tick) => put_grid(out, w, tick),
        Shape::Legend(row) => put_legend(out, w, row),
    }
}

/// The text of a shape, if there is one.
pub(crate) fn put_optional(out: &mut Line, w: &Window, line: &[u8], shape: Option<Shape>)
    requires { length out.old ≤ 1000 }
    ensures value { out.new ≡ optional_text out.old w.now line.now shape }
    ensures len { length out.new ≤ length out.old + 800 }
{
    if let Some(shape) = shape {
        put_shape(out, w, line, shape);
    }
}
