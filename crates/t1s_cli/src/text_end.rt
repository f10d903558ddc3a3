// How a text that was written ends.
ghost use Rattle.std.specs.Prelude.{◌≡◌, ◌≢◌, ◌⊎◌, true};
ghost use Rattle.t1s_cli.specs.Faults.{HasFaultCause};
ghost use Rattle.t1s_cli.specs.TextOutcome.{TextOutcome};

use crate::status::Status;
use t1s_base::{Line, Sink};

/// Finishes a sink to which all was written.
pub(crate) fn finish<K: Sink>(sink: &mut K, whole: Status) -> Status
    requires { whole ≢ Status.WriteFault }
    ensures answer { (result ≡ whole) ⊎ (result ≡ Status.WriteFault) }
    ensures end { result ≡ whole → K.finished sink.new ≡ true }
    ensures octets { K.written sink.new ≡ K.written sink.old }
    ensures cause { HasFaultCause (K.faults sink.old) (K.faults sink.new) Status.WriteFault result }
{
    match sink.finish() {
        Ok(()) => whole,
        Err(_) => Status::WriteFault,
    }
}

/// Writes octets that are the rest of a text, by one `write` call, and finishes the sink.
pub(crate) fn write_text<K: Sink>(octets: &[u8], sink: &mut K, whole: Status) -> Status
    requires no_fault { whole ≢ Status.WriteFault }
    requires no_memory { whole ≢ Status.Memory }
    ensures outcome { TextOutcome K.written K.faults K.finished whole octets.now sink.old sink.new result }
    ensures takes_none { result ≢ Status.Memory }
{
    match sink.write(octets) {
        Ok(()) => finish(sink, whole),
        Err(_) => Status::WriteFault,
    }
}

/// Writes the last line of a text, and finishes the sink.
pub(crate) fn write_last<K: Sink>(line: &Line, sink: &mut K, whole: Status) -> Status
    requires no_fault { whole ≢ Status.WriteFault }
    requires no_memory { whole ≢ Status.Memory }
    ensures outcome { TextOutcome K.written K.faults K.finished whole line.now sink.old sink.new result }
    ensures takes_none { result ≢ Status.Memory }
{
    write_text(line.as_slice(), sink, whole)
}
