// The command `run`: the report of a script's run.
ghost use Rattle.std.specs.Prelude.{◌≡◌, ◌<◌, ◌⊎◌, ℕ, true, false, IsTrue, IsFalse, OnOk, OnErr};
ghost use Rattle.t1s_base.specs.Causes.{HasCause};
ghost use Rattle.t1s_base.specs.Octets.{Grows, GrowsByPrefix};
ghost use Rattle.t1s_script.specs.Script.{IsScript};
ghost use Rattle.t1s_script.specs.declared.script.Script.{Script};
ghost use Rattle.t1s_segment.specs.Stands.{Stands, ticks_left};
ghost use Rattle.t1s_report.specs.Report.{report, summary_below};
ghost use Rattle.t1s_report.specs.WriterStep.{WriterStep};
ghost use Rattle.t1s_cli.specs.TextOutcome.{TextOutcome};

use crate::status::Status;
use crate::text_end::finish;
use std::alloc::Global;
use t1s_base::{Failed, Line, Sink};
use t1s_report::{Writer, summary_line};
use t1s_script::Script;
use t1s_segment::Segment;

/// Writes the summary of the ticks that were played.
pub(crate) fn write_summary<K: Sink>(seg: &Segment, writer: &mut Writer<'_, K>)
    ensures { (s : Script) (t : ℕ) → Stands s t seg.now → WriterStep K.written K.faults K.finished writer.old (summary_below s t) writer.new }
{
    let mut line = Line::new();
    let mut k = 0;
    while summary_line(&mut line, seg, k) {
        writer.put(&line);
        k += 1;
    }
}

/// Whether a tick is still to be played, and what happens in it can be written.
pub(crate) fn goes_on<K: Sink>(seg: &Segment, writer: &Writer<'_, K>) -> bool
    ensures more { IsTrue result → 0 < ticks_left seg.now }
    ensures no_more { (s : Script) (t : ℕ) → Stands s t seg.now → IsFalse result → (writer.now.stopped ≡ true) ⊎ (t ≡ s.end) }
{
    !writer.stopped() && !seg.at_end()
}

/// Plays the segment to its end and writes its report, up to a write that stops.
fn write_report<K: Sink>(seg: &mut Segment, writer: &mut Writer<'_, K>)
    ensures text { (s : Script) → Stands s 0 seg.old → WriterStep K.written K.faults K.finished writer.old (report s) writer.new }
    ensures stands { (s : Script) → Stands s 0 seg.old → (t : ℕ) × Stands s t seg.new }
    ensures at_end { (s : Script) → Stands s 0 seg.old → writer.new.stopped ≡ false → Stands s s.end seg.new }
{
    while goes_on(seg, writer) {
        if seg.skip(u64::MAX) == 0 {
            seg.tick(writer);
        }
    }
    write_summary(seg, writer);
}

/// Plays the segment to its end, and writes the line of each event and then the summary, each line by
/// one `write` call; it finishes no sink. After a write that stops it makes no further call on the sink, and
/// plays no further tick. It takes no memory. `Failed` comes exactly where a write stopped.
pub fn play<K: Sink>(seg: &mut Segment, sink: &mut K) -> Result<(), Failed>
    requires { seg.old.tick ≡ 0 }
    ensures text { (s : Script) → Stands s 0 seg.old → OnOk result (Grows (K.written sink.old) (K.written sink.new) (report s)) }
    ensures at_end { (s : Script) → Stands s 0 seg.old → OnOk result (Stands s s.end seg.new) }
    ensures unfinished { (s : Script) → Stands s 0 seg.old → OnOk result (K.finished sink.new ≡ false) }
    ensures prefix { (s : Script) → Stands s 0 seg.old → OnErr result (GrowsByPrefix (K.written sink.old) (K.written sink.new) (report s)) }
    ensures stands { (s : Script) → Stands s 0 seg.old → (t : ℕ) × Stands s t seg.new }
    ensures cause { (s : Script) → Stands s 0 seg.old → HasCause (K.faults sink.old) (K.faults sink.new) result }
{
    let mut writer = Writer::new(sink);
    write_report(seg, &mut writer);
    if writer.stopped() {
        Err(Failed)
    } else {
        Ok(())
    }
}

/// Writes the report of a script's run.
pub(crate) fn run_script<K: Sink>(alloc: Global, script: &Script, sink: &mut K) -> Status
    requires { IsScript script.now }
    ensures { TextOutcome K.written K.faults K.finished Status.Done (report script.now) sink.old sink.new result }
{
    match Segment::new(alloc, script) {
        Ok(mut seg) => match play(&mut seg, sink) {
            Ok(()) => finish(sink, Status::Done),
            Err(_) => Status::WriteFault,
        },
        Err(_) => Status::Memory,
    }
}
