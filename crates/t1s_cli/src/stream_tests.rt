use crate::fault_tests::length_of_lines;
use crate::offer_rows::{ONE_FRAME, ONE_FRAME_REPORT};
use crate::offer_tests::joined;
use crate::tests::owned;
use crate::{Status, workbench};
use std::alloc::{AllocError, Global};
use std::io;
use std::io::{Read, Write};
use std::test::Fail;
use t1s_base::{StdSink, StdSource};

/// Gives a script in its first read, counts its reads, and fails in a planned one.
#[derive(Drop)]
struct FailingReader {
    fails: u64,
    reads: u64,
}

impl Read for FailingReader {
    fn read(&mut self, buf: &mut [u8]) -> io::Result<usize> {
        self.reads = self.reads.saturating_add(1);
        if self.reads == self.fails {
            return Err(io::ErrorKind::Other.into());
        }
        if self.reads > 1 {
            return Ok(0);
        }
        let count = buf.len().min(ONE_FRAME.len());
        buf[..count].copy_from_slice(&ONE_FRAME[..count]);
        Ok(count)
    }
}

/// Counts its calls and the octets that it takes. In a planned call it fails, or takes nothing.
#[derive(Drop)]
struct FailingWriter {
    fails: u64,
    takes_nothing: bool,
    calls: u64,
    taken: usize,
}

impl Write for FailingWriter {
    fn write(&mut self, buf: &[u8]) -> io::Result<usize> {
        self.calls = self.calls.saturating_add(1);
        if self.calls == self.fails {
            return if self.takes_nothing {
                Ok(0)
            } else {
                Err(io::ErrorKind::Other.into())
            };
        }
        self.taken = self.taken.saturating_add(buf.len());
        Ok(buf.len())
    }

    fn flush(&mut self) -> io::Result<()> {
        self.calls = self.calls.saturating_add(1);
        if self.calls == self.fails {
            return Err(io::ErrorKind::Other.into());
        }
        Ok(())
    }
}

/// Runs the script over a reader and a writer.
fn run_streams(
    alloc: Global,
    reader: &mut FailingReader,
    writer: &mut FailingWriter,
) -> Result<Status, AllocError> {
    let words = owned(alloc, &["run"])?;
    let mut source = StdSource::new(reader);
    let mut sink = StdSink::new(writer);
    Ok(workbench(alloc, words.as_slice(), &mut source, &mut sink))
}

/// The read and the call of the writer that fail, whether it takes nothing instead, the answer, and how many calls are made of both.
type StreamRow = (u64, u64, bool, Status, u64, u64);

#[test]
fn a_stream_that_fails_ends_the_run(rt: HostRuntime) -> Result<(), Fail> {
    let report = joined(rt.alloc(), ONE_FRAME_REPORT)?;
    let table: [StreamRow; 9] = [
        (1, 0, false, Status::ReadFault, 1, 0),
        (2, 0, false, Status::ReadFault, 2, 0),
        (0, 1, false, Status::WriteFault, 2, 1),
        (0, 1, true, Status::WriteFault, 2, 1),
        (0, 13, false, Status::WriteFault, 2, 13),
        (0, 13, true, Status::WriteFault, 2, 13),
        (0, 22, true, Status::WriteFault, 2, 22),
        (0, 23, false, Status::WriteFault, 2, 23),
        (0, 0, false, Status::Done, 2, 23),
    ];
    for row in table {
        let (fails, write_fails, takes_nothing, status, reads, calls) = row;
        let mut reader = FailingReader { fails, reads: 0 };
        let mut writer = FailingWriter {
            fails: write_fails,
            takes_nothing,
            calls: 0,
            taken: 0,
        };
        let answer = run_streams(rt.alloc(), &mut reader, &mut writer)?;
        assert_eq!(rt; answer, status, "{row:?}");
        assert_eq!(rt; (reader.reads, writer.calls), (reads, calls), "{row:?}");
        let length = length_of_lines(report.as_slice(), calls.saturating_sub(1));
        assert_eq!(rt; writer.taken, length, "{row:?}");
    }
    Ok(())
}
