// The command `pcap K`: the good frames that arrive at a node in a script's run, as a pcap file.
ghost use Rattle.std.specs.Prelude.{◌≡◌, ◌<◌, ◌⊎◌, ℕ, true, IsTrue, IsFalse, OnOk, OnErr};
ghost use Rattle.t1s_base.specs.Causes.{HasCause};
ghost use Rattle.t1s_base.specs.Octets.{Grows, GrowsByPrefix};
ghost use Rattle.t1s_script.specs.Script.{IsScript};
ghost use Rattle.t1s_script.specs.declared.script.Script.{Script};
ghost use Rattle.t1s_segment.specs.Stands.{Stands, ticks_left};
ghost use Rattle.t1s_report.specs.PcapText.{node_pcap};
ghost use Rattle.t1s_report.specs.PcapWriterStep.{as_writer};
ghost use Rattle.t1s_report.specs.WriterStep.{WriterStep};
ghost use Rattle.t1s_cli.specs.TextOutcome.{TextOutcome};

use crate::status::Status;
use crate::text_end::finish;
use std::alloc::Global;
use t1s_base::{Failed, Sink};
use t1s_report::PcapWriter;
use t1s_script::Script;
use t1s_segment::Segment;

/// Whether a tick is still to be played, and what arrives in it can be written.
fn goes_on<K: Sink>(seg: &Segment, pcap: &PcapWriter<'_, K>) -> bool
    ensures more { IsTrue result → 0 < ticks_left seg.now }
    ensures no_more { (s : Script) (t : ℕ) → Stands s t seg.now → IsFalse result → (pcap.now.stopped ≡ true) ⊎ (t ≡ s.end) }
{
    !pcap.stopped() && !seg.at_end()
}

/// Plays the segment to its end and writes the pcap file of the writer's node, up to a write that stops.
fn write_pcap<K: Sink>(seg: &mut Segment, pcap: &mut PcapWriter<'_, K>)
    ensures { (s : Script) → Stands s 0 seg.old → WriterStep K.written K.faults K.finished (as_writer pcap.old) (node_pcap s pcap.old.node) (as_writer pcap.new) }
{
    pcap.put_head();
    while goes_on(seg, pcap) {
        if seg.skip(u64::MAX) == 0 {
            seg.tick(pcap);
        }
    }
}

/// Plays the segment to its end, and writes the pcap file of the node with this number. After a write that stops it makes no
/// further call on the sink, and plays no further tick. It takes no memory.
fn record<K: Sink>(seg: &mut Segment, node: u8, sink: &mut K) -> Result<(), Failed>
    ensures text { (s : Script) → Stands s 0 seg.old → OnOk result (Grows (K.written sink.old) (K.written sink.new) (node_pcap s node)) }
    ensures prefix { (s : Script) → Stands s 0 seg.old → OnErr result (GrowsByPrefix (K.written sink.old) (K.written sink.new) (node_pcap s node)) }
    ensures cause { (s : Script) → Stands s 0 seg.old → HasCause (K.faults sink.old) (K.faults sink.new) result }
{
    let mut pcap = PcapWriter::new(sink, node);
    write_pcap(seg, &mut pcap);
    if pcap.stopped() { Err(Failed) } else { Ok(()) }
}

/// Writes the good frames that arrive at a node in a script's run, as a pcap file.
pub(crate) fn pcap_script<K: Sink>(alloc: Global, node: u8, script: &Script, sink: &mut K) -> Status
    requires { IsScript script.now }
    ensures { TextOutcome K.written K.faults K.finished Status.Done (node_pcap script.now node) sink.old sink.new result }
{
    match Segment::new(alloc, script) {
        Ok(mut seg) => match record(&mut seg, node, sink) {
            Ok(()) => finish(sink, Status::Done),
            Err(_) => Status::WriteFault,
        },
        Err(_) => Status::Memory,
    }
}
