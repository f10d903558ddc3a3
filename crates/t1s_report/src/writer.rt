// What writes to a sink until a write stops, and a watch that writes what it is told.
ghost use Rattle.std.specs.Prelude.{◌≡◌, false};
ghost use Rattle.t1s_report.specs.EventLines.{event_line};
ghost use Rattle.t1s_report.specs.WriterStep.{WriterStep};

use crate::event_lines::event_line;
use t1s_base::{Line, Sink};
use t1s_line::{Event, Watch};

/// Writes each text by one `write` call. After the first write that stops it writes nothing more. As a watch it writes
/// the line of each event.
#[derive(Drop)]
pub struct Writer<'a, K: Sink> {
    sink: &'a mut K,
    // the room for the line of an event
    line: Line,
    stopped: bool,
}

impl<'a, K: Sink> Writer<'a, K> {
    /// A writer that hasn't stopped.
    pub fn new(sink: &'a mut K) -> Writer<'a, K>
        ensures same_reference { result.sink.ghost_name ≡ sink.entry.ghost_name }
        ensures sink { result.sink.now ≡ sink.old }
        ensures goes_on { result.stopped ≡ false }
    {
        Writer {
            sink,
            line: Line::new(),
            stopped: false,
        }
    }

    /// Whether a write of this writer stopped.
    pub fn stopped(&self) -> bool
        ensures { result ≡ self.now.stopped }
    {
        self.stopped
    }

    /// Writes octets, if there are any, unless a write stopped before.
    pub fn put_octets(&mut self, octets: &[u8])
        ensures { WriterStep K.written K.faults K.finished self.old octets.now self.new }
    {
        if !self.stopped && !octets.is_empty() {
            self.stopped = self.sink.write(octets).is_err();
        }
    }

    /// Writes a line, unless a write stopped before.
    pub fn put(&mut self, line: &Line)
        ensures { WriterStep K.written K.faults K.finished self.old line.now self.new }
    {
        self.put_octets(line.as_slice());
    }
}

impl<'a, K: Sink> Watch for Writer<'a, K> {
    ghost sees = { λ before event after. WriterStep K.written K.faults K.finished before (event_line event) after };

    /// Writes the line of the event.
    fn event(&mut self, e: &Event<'_>) {
        event_line(&mut self.line, e);
        if !self.stopped {
            self.stopped = self.sink.write(self.line.as_slice()).is_err();
        }
    }
}
