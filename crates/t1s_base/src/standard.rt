// Sources and sinks over std's readers and writers: the edge of the program.
ghost use Rattle.std.specs.Prelude.{◌≡◌, ◌≤◌, true, false, length, take, None, IfErr, OnOk, OnErr};
ghost use Rattle.std.specs.Io.{ReadsAtMost};
ghost use Rattle.std.specs.Io.KnownBytes.{ReadConsumes, Appends, Keeps};
ghost use Rattle.t1s_base.specs.Causes.{HasCause, count_after_fault};

use crate::calls::raise;
use crate::{Failed, Sink, Source, WriteStop};
use std::io::{Read, Write};
use std::marker::Model;

/// A source over a reader, as standard input. It tells no octets, and counts the reader's errors.
#[derive(Drop)]
pub struct StdSource<R: Read> {
    inner: R,
    faults: u64,
}

impl<R: Read> Model for StdSource<R> {
    ghost use Rattle.t1s_base.specs.Memory.{ReaderState};

    ghost Value = { ReaderState };

    ghost view = { λ source. record { remaining = R.remaining source.inner; faults = source.faults } };
}

impl<R: Read> StdSource<R> {
    /// A source over this reader, with no fault yet.
    pub fn new(inner: R) -> StdSource<R>
        ensures { result ≡ record { remaining = R.remaining inner; faults = 0 } }
    {
        StdSource { inner, faults: 0 }
    }
}

impl<R: Read> Source for StdSource<R> {
    ghost left = { λ _. None };

    ghost faults = { λ source. source.faults };

    /// One read of the reader. Each error of it is a fault.
    fn read(&mut self, into: &mut [u8]) -> Result<usize, Failed>
        ensures bound { ReadsAtMost result into.new }
        ensures passed { ReadConsumes self.old.remaining self.new.remaining result into.new }
        ensures counted { OnErr result (self.new.faults ≡ count_after_fault self.old.faults) }
        ensures cause { HasCause self.old.faults self.new.faults result }
    {
        match self.inner.read(into) {
            Ok(count) => Ok(count),
            Err(_) => {
                raise(&mut self.faults);
                Err(Failed)
            }
        }
    }
}

/// A sink over a writer, as standard output. It tells no octets, and counts the writer's errors.
#[derive(Drop)]
pub struct StdSink<W: Write> {
    inner: W,
    faults: u64,
    finished: bool,
}

impl<W: Write> Model for StdSink<W> {
    ghost use Rattle.t1s_base.specs.Memory.{WriterState};

    ghost Value = { WriterState };

    ghost view = { λ sink. record { contents = W.contents sink.inner; faults = sink.faults; finished = sink.finished } };
}

impl<W: Write> StdSink<W> {
    /// A sink over this writer, with no fault yet, that isn't finished.
    pub fn new(inner: W) -> StdSink<W>
        ensures { result ≡ record { contents = W.contents inner; faults = 0; finished = false } }
    {
        StdSink {
            inner,
            faults: 0,
            finished: false,
        }
    }
}

/// Writes the piece, in as many calls as the writer needs. It stops at an error, and at a call that
/// takes nothing.
fn write_whole<W: Write>(writer: &mut W, piece: &[u8]) -> Result<(), WriteStop>
    ensures bound { IfErr result (λ stop. stop.taken ≤ length piece.now) }
    ensures whole { OnOk result (Appends (W.contents writer.old) (W.contents writer.new) piece.now) }
    ensures prefix { IfErr result (λ stop. Appends (W.contents writer.old) (W.contents writer.new) (take stop.taken piece.now)) }
{
    let mut taken = 0;
    while taken < piece.len() {
        match writer.write(&piece[taken..]) {
            Ok(0) | Err(_) => return Err(WriteStop { taken }),
            Ok(count) => taken += count,
        }
    }
    Ok(())
}

impl<W: Write> Sink for StdSink<W> {
    ghost written = { λ _. None };

    ghost faults = { λ sink. sink.faults };

    ghost finished = { λ sink. sink.finished };

    /// Hands the whole piece to the writer. An error of it, and a call that takes nothing, is a fault.
    fn write(&mut self, piece: &[u8]) -> Result<(), WriteStop>
        ensures bound { IfErr result (λ stop. stop.taken ≤ length piece.now) }
        ensures whole { OnOk result (Appends self.old.contents self.new.contents piece.now) }
        ensures prefix { IfErr result (λ stop. Appends self.old.contents self.new.contents (take stop.taken piece.now)) }
        ensures unfinished { self.new.finished ≡ false }
        ensures counted { OnErr result (self.new.faults ≡ count_after_fault self.old.faults) }
        ensures cause { HasCause self.old.faults self.new.faults result }
    {
        self.finished = false;
        match write_whole(&mut self.inner, piece) {
            Ok(()) => Ok(()),
            Err(stop) => {
                raise(&mut self.faults);
                Err(stop)
            }
        }
    }

    /// Flushes the writer. An error of it is a fault.
    fn finish(&mut self) -> Result<(), Failed>
        ensures finished { OnOk result (self.new.finished ≡ true) }
        ensures as_before { OnErr result (self.new.finished ≡ self.old.finished) }
        ensures passed { Keeps self.old.contents self.new.contents }
        ensures counted { OnErr result (self.new.faults ≡ count_after_fault self.old.faults) }
        ensures cause { HasCause self.old.faults self.new.faults result }
    {
        match self.inner.flush() {
            Ok(()) => {
                self.finished = true;
                Ok(())
            }
            Err(_) => {
                raise(&mut self.faults);
                Err(Failed)
            }
        }
    }
}
