// The line of the refusal of a script.
ghost use Rattle.std.specs.Prelude.{◌≡◌, ◌≤◌, length};
ghost use Rattle.t1s_report.specs.RefusalLines.{reason_name, refused_line};

use crate::fields::{clear, count, text};
use t1s_base::Line;
use t1s_script::{ScriptReason, ScriptRefusal};

/// The name of a reason.
fn reason_name(reason: ScriptReason) -> &'static [u8]
    ensures value { result.now ≡ reason_name reason }
    ensures len { length result.now ≤ 11 }
{
    match reason {
        ScriptReason::TooLong => b"TooLong",
        ScriptReason::FirstLine => b"FirstLine",
        ScriptReason::AfterEnd => b"AfterEnd",
        ScriptReason::UnknownWord => b"UnknownWord",
        ScriptReason::Form => b"Form",
        ScriptReason::Number => b"Number",
        ScriptReason::OutOfRange => b"OutOfRange",
        ScriptReason::Hex => b"Hex",
        ScriptReason::FrameSize => b"FrameSize",
        ScriptReason::Twice => b"Twice",
        ScriptReason::UnknownNode => b"UnknownNode",
        ScriptReason::Order => b"Order",
        ScriptReason::TooMany => b"TooMany",
        ScriptReason::NoNode => b"NoNode",
        ScriptReason::NoEnd => b"NoEnd",
    }
}

/// Replaces the content of the line by that of the refusal of a script: its line and its reason.
pub fn refused_line(out: &mut Line, refusal: &ScriptRefusal)
    ensures { out.new ≡ refused_line refusal.now }
{
    clear(out);
    count(out, b"refused ", u64::from(refusal.line));
    text(out, b" ");
    text(out, reason_name(refusal.reason));
    text(out, b"\n");
}
