// The command `json`: the summary of a script's run as one JSON object.
ghost use Rattle.std.specs.Prelude.{◌≡◌, IfOk};
ghost use Rattle.t1s_script.specs.Script.{IsScript};
ghost use Rattle.t1s_report.specs.JsonSummary.{json_summary};
ghost use Rattle.t1s_cli.specs.TextOutcome.{TextOutcome};

use crate::status::Status;
use crate::text_end::write_text;
use crate::unread::play_unread;
use std::alloc::{AllocError, Global};
use t1s_base::Sink;
use t1s_report::json_of;
use t1s_script::Script;
use t1s_segment::Segment;

/// Plays a script to its end, and gives the text of the summary and LF.
fn json_text(alloc: Global, script: &Script) -> Result<Vec<u8>, AllocError>
    requires { IsScript script.now }
    ensures { IfOk result (λ text. text.items ≡ json_summary script.now) }
{
    let mut seg = Segment::new(alloc, script)?;
    play_unread(&mut seg);
    let mut text = json_of(alloc, &seg)?.to_vec(alloc)?;
    text.push(b'\n')?;
    Ok(text)
}

/// Writes the summary of a script's run as one JSON object and LF, by one `write` call. All memory is taken before.
pub(crate) fn json_script<K: Sink>(alloc: Global, script: &Script, sink: &mut K) -> Status
    requires { IsScript script.now }
    ensures { TextOutcome K.written K.faults K.finished Status.Done (json_summary script.now) sink.old sink.new result }
{
    match json_text(alloc, script) {
        Ok(text) => write_text(text.as_slice(), sink, Status::Done),
        Err(_) => Status::Memory,
    }
}
