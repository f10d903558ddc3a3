use crate::{
    Failed, Ids, Line, MemSink, MemSource, NoRoom, NullSink, QuietSource, Sink, Source, StdSink,
    StdSource, WriteStop, laws, put_number, put_text, read_number,
};
use std::io;
use std::io::{Read, Write};
use std::test::Fail;

/// Reads at most three octets, and answers them.
fn read_three<S: Source>(source: &mut S) -> Result<(usize, [u8; 3]), Failed> {
    let mut into = [0; 3];
    let count = source.read(&mut into)?;
    Ok((count, into))
}

/// Writes a piece.
fn write_to<K: Sink>(sink: &mut K, piece: &[u8]) -> Result<(), WriteStop> {
    sink.write(piece)
}

#[test]
fn sources_in_memory_give_what_fits_and_fail_as_planned(rt: HostRuntime) -> Result<(), Fail> {
    let octets = Vec::from_slice(rt.alloc(), b"abcde")?;
    let mut quiet = QuietSource::new(octets);
    assert_eq!(rt; read_three(&mut quiet), Ok((3, *b"abc")));
    assert_eq!(rt; read_three(&mut quiet), Ok((2, *b"de\0")));
    assert_eq!(rt; read_three(&mut quiet), Ok((0, [0; 3])));
    let octets = Vec::from_slice(rt.alloc(), b"abcde")?;
    let mut planned = MemSource::new(octets, Vec::from_slice(rt.alloc(), &[2, 4])?);
    assert_eq!(rt; read_three(&mut planned), Ok((3, *b"abc")));
    assert_eq!(rt; read_three(&mut planned), Err(Failed));
    assert_eq!(rt; read_three(&mut planned), Ok((2, *b"de\0")));
    assert_eq!(rt; read_three(&mut planned), Err(Failed));
    assert_eq!(rt; read_three(&mut planned), Ok((0, [0; 3])));
    Ok(())
}

#[test]
fn sinks_in_memory_keep_what_fits_and_fail_as_planned(rt: HostRuntime) -> Result<(), Fail> {
    let fails = Vec::from_slice(rt.alloc(), &[2, 5])?;
    let mut sink = MemSink::with_room(rt.alloc(), 5, fails)?;
    assert_eq!(rt; write_to(&mut sink, b"abc"), Ok(()));
    assert_eq!(rt; write_to(&mut sink, b"d"), Err(WriteStop { taken: 0 }));
    assert_eq!(rt; write_to(&mut sink, b"def"), Err(WriteStop { taken: 0 }));
    assert_eq!(rt; write_to(&mut sink, b"de"), Ok(()));
    assert_eq!(rt; sink.finish(), Err(Failed));
    assert_eq!(rt; sink.finish(), Ok(()));
    assert_eq!(rt; sink.written(), &b"abcde"[..]);
    let mut null = NullSink::new();
    assert_eq!(rt; write_to(&mut null, b"abc"), Ok(()));
    assert_eq!(rt; null.finish(), Ok(()));
    Ok(())
}

/// Gives one octet a read, and fails at the second.
#[derive(Drop)]
struct Stuttering {
    reads: u8,
}

impl Read for Stuttering {
    fn read(&mut self, buf: &mut [u8]) -> io::Result<usize> {
        self.reads = self.reads.saturating_add(1);
        if self.reads == 2 {
            return Err(io::ErrorKind::Other.into());
        }
        if self.reads > 3 || buf.is_empty() {
            return Ok(0);
        }
        buf[0] = b'a';
        Ok(1)
    }
}

#[test]
fn a_reader_that_fails_is_a_fault_and_no_end(rt: HostRuntime) {
    let mut source = StdSource::new(Stuttering { reads: 0 });
    assert_eq!(rt; read_three(&mut source), Ok((1, *b"a\0\0")));
    assert_eq!(rt; read_three(&mut source), Err(Failed));
    assert_eq!(rt; read_three(&mut source), Ok((1, *b"a\0\0")));
    assert_eq!(rt; read_three(&mut source), Ok((0, [0; 3])));
}

/// Takes two octets a write until there is no room, then none. Its first flush fails.
#[derive(Drop)]
struct Narrow {
    room: usize,
    flushes: u8,
}

impl Write for Narrow {
    fn write(&mut self, buf: &[u8]) -> io::Result<usize> {
        let count = buf.len().min(self.room).min(2);
        self.room -= count;
        Ok(count)
    }

    fn flush(&mut self) -> io::Result<()> {
        self.flushes = self.flushes.saturating_add(1);
        if self.flushes == 1 {
            return Err(io::ErrorKind::Other.into());
        }
        Ok(())
    }
}

#[test]
fn a_writer_that_takes_nothing_is_a_fault(rt: HostRuntime) {
    let mut sink = StdSink::new(Narrow {
        room: 8,
        flushes: 0,
    });
    assert_eq!(rt; write_to(&mut sink, b"abcde"), Ok(()));
    assert_eq!(rt; write_to(&mut sink, b"fghi"), Err(WriteStop { taken: 3 }));
    assert_eq!(rt; write_to(&mut sink, b"i"), Err(WriteStop { taken: 0 }));
    assert_eq!(rt; write_to(&mut sink, b""), Ok(()));
    assert_eq!(rt; sink.finish(), Err(Failed));
    assert_eq!(rt; sink.finish(), Ok(()));
}

#[test]
fn lines_hold_4096_octets(rt: HostRuntime) {
    laws::numbers_have_one_text();
    let mut line = Line::new();
    assert_eq!(rt; put_number(&mut line, 0), Ok(()));
    assert_eq!(rt; put_text(&mut line, b" beacon "), Ok(()));
    assert_eq!(rt; put_number(&mut line, u64::MAX), Ok(()));
    assert_eq!(rt; line.as_slice(), &b"0 beacon 18446744073709551615"[..]);
    assert_eq!(rt; put_text(&mut line, &[b'x'; 4068]), Err(NoRoom));
    assert_eq!(rt; put_text(&mut line, &[b'x'; 4066]), Ok(()));
    assert_eq!(rt; put_number(&mut line, 10), Err(NoRoom));
    assert_eq!(rt; put_number(&mut line, 9), Ok(()));
    assert_eq!(rt; line.as_slice().len(), 4096);
    assert_eq!(rt; put_text(&mut line, b""), Ok(()));
}

#[test]
fn numbers_have_one_to_ten_digits(rt: HostRuntime) {
    let table: [(&[u8], Option<u64>); 11] = [
        (b"0", Some(0)),
        (b"7", Some(7)),
        (b"8256", Some(8256)),
        (b"9999999999", Some(9_999_999_999)),
        (b"", None),
        (b"00", None),
        (b"07", None),
        (b"10000000000", None),
        (b"+1", None),
        (b"1 ", None),
        (b"12a", None),
    ];
    for (text, number) in table {
        assert_eq!(rt; read_number(text), number);
    }
}

#[test]
fn a_node_has_one_to_four_ids(rt: HostRuntime) {
    let mut ids = Ids::one(255);
    assert_eq!(rt; ids.add(255), Err(255));
    assert_eq!(rt; ids.add(0), Ok(()));
    let two = ids.copy();
    assert_eq!(rt; ids.add(2), Ok(()));
    assert_eq!(rt; ids.add(0), Err(0));
    assert_eq!(rt; ids.add(1), Ok(()));
    assert_eq!(rt; ids.add(3), Err(3));
    let held = [ids.get(0), ids.get(1), ids.get(2), ids.get(3), ids.get(4)];
    assert_eq!(rt; held, [Some(255), Some(0), Some(2), Some(1), None]);
    assert!(rt; ids.has(1) && !ids.has(3));
    assert!(rt; two.has(255) && two.has(0) && !two.has(2));
    assert_eq!(rt; two.get(2), None);
}
