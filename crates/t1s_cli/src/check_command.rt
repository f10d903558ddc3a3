// The command `check`: whether a script is fit.
ghost use Rattle.std.specs.Prelude.{◌≢◌};
ghost use Rattle.t1s_report.specs.FitnessLines.{check_line};
ghost use Rattle.t1s_cli.specs.TextOutcome.{TextOutcome};

use crate::status::Status;
use crate::text_end::write_last;
use t1s_base::{Line, Sink};
use t1s_report::check_line;
use t1s_script::Script;

/// Writes the line that tells whether a script is fit. It takes no memory.
pub(crate) fn check_script<K: Sink>(script: &Script, sink: &mut K) -> Status
    ensures outcome { TextOutcome K.written K.faults K.finished Status.Done (check_line script.now) sink.old sink.new result }
    ensures takes_none { result ≢ Status.Memory }
{
    let mut line = Line::new();
    check_line(&mut line, script);
    write_last(&line, sink, Status::Done)
}
