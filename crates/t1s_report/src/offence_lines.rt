// The line of the first offence of a capture.
ghost use Rattle.std.specs.Prelude.{◌≡◌, ◌≤◌, length};
ghost use Rattle.t1s_report.specs.OffenceLines.{why_name, offence_line};

use crate::fields::{clear, count, text};
use t1s_base::Line;
use t1s_capture::{Refusal, Why};

/// The name of the reason of an offence.
fn why_name(why: Why) -> &'static [u8]
    ensures value { result.now ≡ why_name why }
    ensures len { length result.now ≤ 9 }
{
    match why {
        Why::Magic => b"Magic",
        Why::Version => b"Version",
        Why::NodeByte => b"NodeByte",
        Why::CountZero => b"CountZero",
        Why::GapTwice => b"GapTwice",
        Why::Group => b"Group",
        Why::Place => b"Place",
        Why::BurstLong => b"BurstLong",
        Why::Truncated => b"Truncated",
        Why::AfterEnd => b"AfterEnd",
        Why::TooLong => b"TooLong",
    }
}

/// Replaces the content of the line by that of the first offence of a capture: its offset and its reason.
pub fn offence_line(out: &mut Line, refusal: &Refusal)
    ensures { out.new ≡ offence_line refusal.now }
{
    clear(out);
    count(out, b"refused ", refusal.offset);
    text(out, b" ");
    text(out, why_name(refusal.why));
    text(out, b"\n");
}
