// A watch that writes the frames that arrive at a node.
ghost use Rattle.std.specs.Prelude.{◌≡◌, ◌≤◌, false, length};
ghost use Rattle.t1s_report.specs.PcapText.{pcap_head, event_text, record_of, record_text};
ghost use Rattle.t1s_report.specs.PcapWriterStep.{as_writer};
ghost use Rattle.t1s_report.specs.WriterStep.{WriterStep};

use crate::pcap_texts::{pcap_head, pcap_record};
use t1s_base::{Line, Sink};
use t1s_line::{Event, Watch};
use t1s_pcs_rx::Kind;

/// Writes the pcap file of a node: the header, and as a watch a record for each good arrival at the node, each by one
/// `write` call. After the first write that stops it writes nothing more.
#[derive(Drop)]
pub struct PcapWriter<'a, K: Sink> {
    sink: &'a mut K,
    // the room for a record
    line: Line,
    stopped: bool,
    node: u8,
}

impl<'a, K: Sink> PcapWriter<'a, K> {
    /// A writer for the node with this number, which hasn't stopped.
    pub fn new(sink: &'a mut K, node: u8) -> PcapWriter<'a, K>
        ensures same_reference { result.sink.ghost_name ≡ sink.entry.ghost_name }
        ensures sink { result.sink.now ≡ sink.old }
        ensures goes_on { result.stopped ≡ false }
        ensures node { result.node ≡ node }
    {
        PcapWriter {
            sink,
            line: Line::new(),
            stopped: false,
            node,
        }
    }

    /// Whether a write of this writer stopped.
    pub fn stopped(&self) -> bool
        ensures { result ≡ self.now.stopped }
    {
        self.stopped
    }

    /// Writes the header, unless a write stopped before.
    pub fn put_head(&mut self)
        ensures text { WriterStep K.written K.faults K.finished (as_writer self.old) pcap_head (as_writer self.new) }
        ensures node { self.new.node ≡ self.old.node }
    {
        if !self.stopped {
            self.stopped = self.sink.write(pcap_head().as_slice()).is_err();
        }
    }

    /// Writes the record of a frame that arrives at this tick, unless a write stopped before.
    fn put_record(&mut self, tick: u64, frame: &[u8])
        requires { length frame.now ≤ 1522 }
        ensures text { WriterStep K.written K.faults K.finished (as_writer self.old) (record_text (record_of tick frame.now)) (as_writer self.new) }
        ensures node { self.new.node ≡ self.old.node }
    {
        pcap_record(&mut self.line, tick, frame);
        self.put_line();
    }

    /// Writes what stands in the room for a record, unless a write stopped before.
    fn put_line(&mut self)
        ensures text { WriterStep K.written K.faults K.finished (as_writer self.old) self.old.line (as_writer self.new) }
        ensures node { self.new.node ≡ self.old.node }
    {
        if !self.stopped {
            self.stopped = self.sink.write(self.line.as_slice()).is_err();
        }
    }
}

impl<'a, K: Sink> Watch for PcapWriter<'a, K> {
    ghost use Rattle.std.specs.Prelude.{◌≡◌};

    ghost sees = { λ before event after. (after.node ≡ before.node) × WriterStep K.written K.faults K.finished (as_writer before) (event_text before.node event) (as_writer after) };

    /// Writes the record of a good arrival at the node, and nothing of any other event.
    fn event(&mut self, e: &Event<'_>) {
        if let Event::Arrive {
            tick,
            node,
            kind,
            frame,
        } = *e
        {
            if kind == Kind::Good && node == self.node {
                self.put_record(tick, frame);
            }
        }
    }
}
