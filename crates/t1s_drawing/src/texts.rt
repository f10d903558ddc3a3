// The elements of a picture.
ghost use Rattle.std.specs.Prelude.{◌≡◌, ◌+◌, ◌≤◌, length};
ghost use Rattle.t1s_drawing.specs.Elements.{begin_words, end_words, begin_box, end_box};

use t1s_base::Line;
use t1s_waveform::{number, text};

/// Begins an element of words, of that class, that starts there.
pub(crate) fn begin_words(out: &mut Line, class: &[u8], x: u64, y: u64)
    requires room { length out.old ≤ 3800 }
    requires class { length class.now ≤ 20 }
    ensures value { out.new ≡ begin_words out.old class.now x y }
    ensures len { length out.new ≤ length out.old + 100 }
{
    text(out, b"<text class='");
    text(out, class);
    text(out, b"' x='");
    number(out, x);
    text(out, b"' y='");
    number(out, y);
    text(out, b"'>");
}

/// Ends an element of words.
pub(crate) fn end_words(out: &mut Line)
    requires { length out.old ≤ 4000 }
    ensures value { out.new ≡ end_words out.old }
    ensures len { length out.new ≤ length out.old + 10 }
{
    text(out, b"</text>\n");
}

/// Begins a box of that class, that starts there, and is so wide and so high.
pub(crate) fn begin_box(out: &mut Line, class: &[u8], place: (u64, u64), size: (u64, u64))
    requires room { length out.old ≤ 3800 }
    requires class { length class.now ≤ 20 }
    ensures value { out.new ≡ begin_box out.old class.now place size }
    ensures len { length out.new ≤ length out.old + 160 }
{
    text(out, b"<rect class='");
    text(out, class);
    text(out, b"' x='");
    number(out, place.0);
    text(out, b"' y='");
    number(out, place.1);
    text(out, b"' width='");
    number(out, size.0);
    text(out, b"' height='");
    number(out, size.1);
    text(out, b"'>");
}

/// Ends a box.
pub(crate) fn end_box(out: &mut Line)
    requires { length out.old ≤ 4000 }
    ensures value { out.new ≡ end_box out.old }
    ensures len { length out.new ≤ length out.old + 10 }
{
    text(out, b"</rect>\n");
}
