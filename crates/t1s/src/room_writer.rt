//! A writer with a fixed room in front of another one.
ghost use Rattle.std.specs.Prelude.{◌≡◌, ◌≤◌, [], length, drop, OnOk};
ghost use Rattle.std.specs.Io.KnownBytes.{append_known, Keeps};

use arrayvec::ArrayVec;
use std::io::{Error, ErrorKind, Result, Write};

/// How many octets the room holds: 64 KiB.
const ROOM: usize = 65_536;

/// Holds octets in a room of 64 KiB, which takes no memory, and passes them on where it is full and where it is flushed.
/// An octet that couldn't be passed on stays held.
#[derive(Drop)]
pub struct RoomWriter<W: Write> {
    inner: W,
    held: ArrayVec<u8, ROOM>,
    // how many of the octets that are held were passed on, by a call that stopped at a later one
    passed: usize,
    ghost within: { passed ≤ length held.items },
}

impl<W: Write> RoomWriter<W> {
    /// A writer that holds nothing yet.
    pub fn new(inner: W) -> RoomWriter<W>
        ensures inner { result.inner ≡ inner }
        ensures empty { result.held.items ≡ [] }
    {
        RoomWriter {
            inner,
            held: ArrayVec::new(),
            passed: 0,
        }
    }

    /// Passes on all that is held. It stops at an error, and at a call that takes nothing.
    fn pass_on(&mut self) -> Result<()>
        ensures empty { OnOk result (self.new.held.items ≡ []) }
        ensures bytes { Keeps (append_known (W.contents self.old.inner) (drop self.old.passed self.old.held.items)) (append_known (W.contents self.new.inner) (drop self.new.passed self.new.held.items)) }
    {
        while self.passed < self.held.len() {
            match self.inner.write(&self.held.as_slice()[self.passed..]) {
                Ok(0) => return Err(Error::from(ErrorKind::WriteZero)),
                Ok(count) => self.passed += count,
                Err(error) => return Err(error),
            }
        }
        self.passed = 0;
        self.held.clear();
        Ok(())
    }
}

impl<W: Write> Write for RoomWriter<W> {
    ghost contents = { λ w. append_known (W.contents w.inner) (drop w.passed w.held.items) };

    /// Takes as many octets as the room holds, and passes on first what it holds where it is full.
    fn write(&mut self, buf: &[u8]) -> Result<usize> {
        if self.held.is_full() {
            self.pass_on()?;
        }
        let count = buf.len().min(self.held.remaining_capacity());
        match self.held.try_extend_from_slice(&buf[..count]) {
            Ok(()) => Ok(count),
            Err(_) => unreachable!(),
        }
    }

    /// Passes on what is held, and flushes the writer after it.
    fn flush(&mut self) -> Result<()>
        ensures bytes { Keeps (append_known (W.contents self.old.inner) (drop self.old.passed self.old.held.items)) (append_known (W.contents self.new.inner) (drop self.new.passed self.new.held.items)) }
        ensures empty { OnOk result (self.new.held.items ≡ []) }
    {
        self.pass_on()?;
        self.inner.flush()
    }
}

#[cfg(test)]
mod tests {
    use super::*;
    use std::test::Fail;

    /// Counts the calls that it takes, and their octets.
    #[derive(Drop)]
    struct Tally {
        calls: usize,
        octets: usize,
    }

    impl Write for Tally {
        fn write(&mut self, buf: &[u8]) -> Result<usize> {
            self.calls = self.calls.saturating_add(1);
            self.octets = self.octets.saturating_add(buf.len());
            Ok(buf.len())
        }

        fn flush(&mut self) -> Result<()> {
            Ok(())
        }
    }

    #[test]
    fn octets_are_passed_on_where_the_room_is_full_and_at_a_flush(
        rt: HostRuntime,
    ) -> std::result::Result<(), Fail> {
        let piece = [0x5A; 1000];
        let mut writer = RoomWriter::new(Tally {
            calls: 0,
            octets: 0,
        });
        for _ in 0..65 {
            writer.write_all(&piece)?;
        }
        assert_eq!(rt; writer.inner.calls, 0);
        writer.write_all(&piece)?;
        assert_eq!(rt; writer.inner.calls, 1);
        assert_eq!(rt; writer.inner.octets, 65_536);
        writer.flush()?;
        assert_eq!(rt; writer.inner.calls, 2);
        assert_eq!(rt; writer.inner.octets, 66_000);
        Ok(())
    }
}
