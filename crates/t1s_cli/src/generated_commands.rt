// The commands `gen` and `load`: a script that is made from three numbers, and the summary of its run.
ghost use Rattle.std.specs.Prelude.{◌≡◌, ◌≢◌, ℕ, Ok, IfOk, OnOk, OnErr};
ghost use Rattle.std.specs.List.{concat};
ghost use Rattle.t1s_base.specs.Causes.{HasCause};
ghost use Rattle.t1s_base.specs.Octets.{Grows, GrowsByPrefix};
ghost use Rattle.t1s_script.specs.Reading.{script_of};
ghost use Rattle.t1s_script.specs.Script.{IsScript};
ghost use Rattle.t1s_script.specs.declared.script.Script.{Script};
ghost use Rattle.t1s_segment.specs.Stands.{Stands};
ghost use Rattle.t1s_report.specs.Report.{summary, summary_below};
ghost use Rattle.t1s_report.specs.WriterStep.{WriterStep};
ghost use Rattle.t1s_generator.specs.Generated.{generated_lines};
ghost use Rattle.t1s_cli.specs.Generated.{AreInRange, GeneratedCall, numbers_of, script_text};
ghost use Rattle.t1s_cli.specs.TextOutcome.{TextOutcome};

use crate::commands::{GeneratedTask, ScriptNumbers};
use crate::run_command::write_summary;
use crate::status::Status;
use crate::text_end::finish;
use crate::unread::play_unread;
use std::alloc::{AllocError, Global};
use t1s_base::{Failed, Line, Sink};
use t1s_generator::Generator;
use t1s_report::Writer;
use t1s_script::{Script, ScriptFault, read_script};
use t1s_segment::Segment;

/// The lines of the script that these numbers make.
fn lines_of(numbers: ScriptNumbers) -> Generator
    requires { AreInRange numbers }
    ensures { result ≡ generated_lines numbers.seed numbers.nodes numbers.frames }
{
    Generator::new(numbers.seed, numbers.nodes, numbers.frames)
}

/// Writes the lines that are left, up to a write that stops.
fn write_lines<K: Sink>(lines: &mut Generator, writer: &mut Writer<'_, K>)
    ensures { WriterStep K.written K.faults K.finished writer.old (concat lines.old) writer.new }
{
    let mut line = Line::new();
    while lines.line(&mut line) {
        writer.put(&line);
    }
}

/// The octets of the lines that are left.
fn octets_of(alloc: Global, lines: &mut Generator) -> Result<Vec<u8>, AllocError>
    ensures { IfOk result (λ octets. octets.items ≡ concat lines.old) }
{
    let mut octets = Vec::new(alloc);
    let mut line = Line::new();
    while lines.line(&mut line) {
        octets.extend_from_slice(line.as_slice())?;
    }
    Ok(octets)
}

/// Writes the script that these numbers make, each line by one `write` call; it finishes no sink. After a write that stops
/// it makes no further call on the sink. It takes no memory.
fn put_script<K: Sink>(numbers: ScriptNumbers, sink: &mut K) -> Result<(), Failed>
    requires { AreInRange numbers }
    ensures text { OnOk result (Grows (K.written sink.old) (K.written sink.new) (script_text numbers)) }
    ensures prefix { OnErr result (GrowsByPrefix (K.written sink.old) (K.written sink.new) (script_text numbers)) }
    ensures cause { HasCause (K.faults sink.old) (K.faults sink.new) result }
{
    let mut lines = lines_of(numbers);
    let mut writer = Writer::new(sink);
    write_lines(&mut lines, &mut writer);
    if writer.stopped() {
        Err(Failed)
    } else {
        Ok(())
    }
}

/// Writes the script that these numbers make, and finishes the sink. It takes no memory.
fn write_script<K: Sink>(numbers: ScriptNumbers, sink: &mut K) -> Status
    requires { AreInRange numbers }
    ensures outcome { TextOutcome K.written K.faults K.finished Status.Done (script_text numbers) sink.old sink.new result }
    ensures takes_none { result ≢ Status.Memory }
{
    match put_script(numbers, sink) {
        Ok(()) => finish(sink, Status::Done),
        Err(_) => Status::WriteFault,
    }
}

/// Writes the summary of the ticks that were played, each line by one `write` call; it finishes no sink. After a write that
/// stops it makes no further call on the sink. It takes no memory.
fn put_summary<K: Sink>(seg: &Segment, sink: &mut K) -> Result<(), Failed>
    ensures text { (s : Script) (t : ℕ) → Stands s t seg.now → OnOk result (Grows (K.written sink.old) (K.written sink.new) (summary_below s t)) }
    ensures prefix { (s : Script) (t : ℕ) → Stands s t seg.now → OnErr result (GrowsByPrefix (K.written sink.old) (K.written sink.new) (summary_below s t)) }
    ensures cause { (s : Script) (t : ℕ) → Stands s t seg.now → HasCause (K.faults sink.old) (K.faults sink.new) result }
{
    let mut writer = Writer::new(sink);
    write_summary(seg, &mut writer);
    if writer.stopped() {
        Err(Failed)
    } else {
        Ok(())
    }
}

/// Plays a script to its end and writes the summary of its run, without the events. All memory is taken before.
fn summarise<K: Sink>(alloc: Global, script: &Script, sink: &mut K) -> Status
    requires { IsScript script.now }
    ensures { TextOutcome K.written K.faults K.finished Status.Done (summary script.now) sink.old sink.new result }
{
    match Segment::new(alloc, script) {
        Ok(mut seg) => {
            play_unread(&mut seg);
            match put_summary(&seg, sink) {
                Ok(()) => finish(sink, Status::Done),
                Err(_) => Status::WriteFault,
            }
        }
        Err(_) => Status::Memory,
    }
}

/// Reads the script that these numbers make. It is refused only where memory is.
fn read_generated(alloc: Global, numbers: ScriptNumbers) -> Result<Script, AllocError>
    requires { AreInRange numbers }
    ensures reads { IfOk result (λ s. script_of (script_text numbers) ≡ Ok s) }
    ensures valid { IfOk result IsScript }
{
    let octets = octets_of(alloc, &mut lines_of(numbers))?;
    match read_script(alloc, octets.as_slice()) {
        Ok(script) => Ok(script),
        Err(ScriptFault::Memory(error)) => Err(error),
        Err(ScriptFault::Refused(_)) => unreachable!(),
    }
}

/// Writes the script that the numbers make, or plays it and writes the summary of its run. It reads no source.
pub(crate) fn generated_command<K: Sink>(alloc: Global, task: GeneratedTask, sink: &mut K) -> Status
    requires { AreInRange (numbers_of task) }
    ensures { GeneratedCall K.written K.faults K.finished task sink.old sink.new result }
{
    match task {
        GeneratedTask::Gen(numbers) => write_script(numbers, sink),
        GeneratedTask::Load(numbers) => match read_generated(alloc, numbers) {
            Ok(script) => summarise(alloc, &script, sink),
            Err(_) => Status::Memory,
        },
    }
}
