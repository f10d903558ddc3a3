// A source and a sink that count their calls, for calls of the program in which one of these fails.
ghost use Rattle.std.specs.Prelude.{Some};

use crate::tests::{ROOM, owned};
use crate::{Status, workbench};
use std::alloc::{AllocError, Global};
use std::process::Abort;
use t1s_base::{Failed, MemSink, MemSource, Sink, Source, WriteStop};

/// Counts its reads, and fails in a planned one.
#[derive(Drop)]
struct CountedSource {
    octets: MemSource,
    calls: u64,
}

impl Source for CountedSource {
    ghost left = { λ source. Some source.octets.left };

    ghost faults = { λ source. source.octets.calls.failed };

    fn read(&mut self, into: &mut [u8]) -> Result<usize, Failed> {
        self.calls = self.calls.saturating_add(1);
        self.octets.read(into)
    }
}

/// Counts its calls, and fails in a planned one.
#[derive(Drop)]
struct CountedSink {
    octets: MemSink,
    calls: u64,
}

impl Sink for CountedSink {
    ghost written = { λ sink. Some sink.octets.octets };

    ghost faults = { λ sink. sink.octets.calls.failed };

    ghost finished = { λ sink. sink.octets.finished };

    fn write(&mut self, piece: &[u8]) -> Result<(), WriteStop> {
        self.calls = self.calls.saturating_add(1);
        self.octets.write(piece)
    }

    fn finish(&mut self) -> Result<(), Failed> {
        self.calls = self.calls.saturating_add(1);
        self.octets.finish()
    }
}

/// A source of these octets whose read with this number fails. Calls are counted from 1, so none fails with the number 0.
fn source_failing(alloc: Global, octets: &[u8], read: u64) -> Result<CountedSource, AllocError> {
    let fails = Vec::from_slice(alloc, &[read])?;
    let octets = Vec::from_slice(alloc, octets)?;
    Ok(CountedSource {
        octets: MemSource::new(octets, fails),
        calls: 0,
    })
}

/// An empty sink whose call with this number fails.
fn sink_failing(alloc: Global, call: u64) -> Result<CountedSink, AllocError> {
    let fails = Vec::from_slice(alloc, &[call])?;
    Ok(CountedSink {
        octets: MemSink::with_room(alloc, ROOM, fails)?,
        calls: 0,
    })
}

/// What the program is called with, and the numbers of the read and of the call of the sink that fail.
#[derive(Clone, Copy)]
pub(crate) struct Plan<'a> {
    pub(crate) words: &'a [&'a str],
    pub(crate) input: &'a [u8],
    pub(crate) read: u64,
    pub(crate) write: u64,
}

/// How often such a call of the program has called the source and the sink, and how many octets it has written.
#[derive(Clone, Copy)]
pub(crate) struct CallCounts {
    pub(crate) reads: u64,
    pub(crate) writes: u64,
    pub(crate) octets: usize,
}

/// Calls the program, and sees that it gives this answer and has written the first octets of the text.
pub(crate) fn check_plan(
    rt: &impl Abort,
    alloc: Global,
    plan: &Plan<'_>,
    status: Status,
    text: &[u8],
) -> Result<CallCounts, AllocError> {
    let words = owned(alloc, plan.words)?;
    let mut source = source_failing(alloc, plan.input, plan.read)?;
    let mut sink = sink_failing(alloc, plan.write)?;
    let answer = workbench(alloc, words.as_slice(), &mut source, &mut sink);
    let (read, write) = (plan.read, plan.write);
    assert_eq!(rt; answer, status, "read {read}, write {write}");
    let is_begin = text.starts_with(sink.octets.written());
    assert!(rt; is_begin, "read {read}, write {write}");
    Ok(CallCounts {
        reads: source.calls,
        writes: sink.calls,
        octets: sink.octets.written().len(),
    })
}
