// The command `capture K`: what a node hears in a script's run, as a capture.
ghost use Rattle.std.specs.Prelude.{◌≡◌, ◌<◌, OnOk, OnErr};
ghost use Rattle.t1s_base.specs.Limits.{most_nodes};
ghost use Rattle.t1s_base.specs.Causes.{HasCause};
ghost use Rattle.t1s_base.specs.Octets.{Grows, GrowsByPrefix};
ghost use Rattle.t1s_script.specs.Script.{IsScript};
ghost use Rattle.t1s_script.specs.declared.script.Script.{Script};
ghost use Rattle.t1s_segment.specs.Stands.{Stands};
ghost use Rattle.t1s_report.specs.HeardText.{heard_text};
ghost use Rattle.t1s_report.specs.WriterStep.{WriterStep};
ghost use Rattle.t1s_cli.specs.TextOutcome.{TextOutcome};

use crate::run_command::goes_on;
use crate::status::Status;
use crate::text_end::finish;
use crate::unread::Unread;
use std::alloc::Global;
use t1s_base::{Failed, Sink};
use t1s_capture::CaptureWriter;
use t1s_report::Writer;
use t1s_script::Script;
use t1s_segment::Segment;

/// Plays the segment to its end and writes what the node hears, up to a write that stops: the header, at most one
/// text in each tick, and the last octets.
fn write_capture<K: Sink>(seg: &mut Segment, node: u8, writer: &mut Writer<'_, K>)
    requires node { node < most_nodes }
    requires stands { (s : Script) × Stands s 0 seg.old }
    ensures { (s : Script) → Stands s 0 seg.old → WriterStep K.written K.faults K.finished writer.old (heard_text s node) writer.new }
{
    let mut capture = CaptureWriter::new(node);
    writer.put_octets(capture.head().as_slice());
    while goes_on(seg, writer) {
        let calm = seg.skip(u64::MAX);
        if calm == 0 {
            seg.tick(&mut Unread);
            if let Some((heard, own)) = seg.heard(node) {
                writer.put_octets(capture.heard(heard, own).as_slice());
            }
        } else if seg.heard(node).is_some() {
            writer.put_octets(capture.quiet(calm).as_slice());
        }
    }
    writer.put_octets(capture.finish().as_slice());
}

/// Plays the segment to its end, and writes the capture of what the node with this number hears. After a write that
/// stops it makes no further call on the sink, and plays no further tick. It takes no memory.
fn record<K: Sink>(seg: &mut Segment, node: u8, sink: &mut K) -> Result<(), Failed>
    requires node { node < most_nodes }
    requires stands { (s : Script) × Stands s 0 seg.old }
    ensures text { (s : Script) → Stands s 0 seg.old → OnOk result (Grows (K.written sink.old) (K.written sink.new) (heard_text s node)) }
    ensures prefix { (s : Script) → Stands s 0 seg.old → OnErr result (GrowsByPrefix (K.written sink.old) (K.written sink.new) (heard_text s node)) }
    ensures cause { (s : Script) → Stands s 0 seg.old → HasCause (K.faults sink.old) (K.faults sink.new) result }
{
    let mut writer = Writer::new(sink);
    write_capture(seg, node, &mut writer);
    if writer.stopped() {
        Err(Failed)
    } else {
        Ok(())
    }
}

/// Writes what a node of the script hears in its run, as a capture.
pub(crate) fn capture_script<K: Sink>(
    alloc: Global,
    node: u8,
    script: &Script,
    sink: &mut K,
) -> Status
    requires valid { IsScript script.now }
    requires node { node < most_nodes }
    ensures { TextOutcome K.written K.faults K.finished Status.Done (heard_text script.now node) sink.old sink.new result }
{
    match Segment::new(alloc, script) {
        Ok(mut seg) => match record(&mut seg, node, sink) {
            Ok(()) => finish(sink, Status::Done),
            Err(_) => Status::WriteFault,
        },
        Err(_) => Status::Memory,
    }
}
