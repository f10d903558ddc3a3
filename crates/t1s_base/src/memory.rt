// Sources and sinks in memory.
ghost use Rattle.std.specs.Prelude.{◌≡◌, [], ◌++◌, true, false, not, length, take, drop, min, Some, None, is_ok, IsOk, IfOk, IfErr, OnOk, OnErr};
ghost use Rattle.t1s_base.specs.Memory.{no_calls, is_next_listed, after_call, after_fault, is_taken};

use crate::calls::Calls;
use crate::{Failed, Sink, Source, WriteStop};
use std::alloc::{AllocError, Global};
use std::marker::Model;

/// A source over octets in memory that never fails. Contracts see the list of the octets that are left.
#[derive(Drop)]
pub struct QuietSource {
    octets: Vec<u8>,
    at: usize,
}

impl Model for QuietSource {
    ghost use Rattle.std.specs.Prelude.{◌≤◌, List, ℕ, length, drop};

    ghost Value = { List ℕ };

    ghost view = { λ source. drop source.at source.octets.items };

    ghost invariant = { λ source. source.at ≤ length source.octets.items };
}

/// Copies as many octets as fit into the first places of `into`, and answers how many.
fn copy_prefix(from: &[u8], into: &mut [u8]) -> usize
    ensures count { result ≡ min (length into.old) (length from.now) }
    ensures octets { into.new ≡ take result from.now ++ drop result into.old }
{
    let count = into.len().min(from.len());
    into[..count].copy_from_slice(&from[..count]);
    count
}

impl QuietSource {
    /// A source that has these octets left.
    pub fn new(bytes: Vec<u8>) -> QuietSource
        ensures { result ≡ bytes.items }
    {
        QuietSource {
            octets: bytes,
            at: 0,
        }
    }
}

impl Source for QuietSource {
    ghost left = { λ source. Some source };

    ghost faults = { λ _. 0 };

    /// Gives as many octets as fit, and leaves the rest of `into` as it was.
    fn read(&mut self, into: &mut [u8]) -> Result<usize, Failed>
        ensures never_fails { IsOk result }
        ensures count { IfOk result (λ count. count ≡ min (length into.old) (length self.old)) }
        ensures into { IfOk result (λ count. into.new ≡ take count self.old ++ drop count into.old) }
        ensures left { IfOk result (λ count. self.new ≡ drop count self.old) }
    {
        let count = copy_prefix(&self.octets[self.at..], into);
        self.at += count;
        Ok(count)
    }
}

/// A source over octets in memory whose planned calls fail.
#[derive(Drop)]
pub struct MemSource {
    octets: QuietSource,
    calls: Calls,
}

impl Model for MemSource {
    ghost use Rattle.t1s_base.specs.Memory.{SourceState};

    ghost Value = { SourceState };

    ghost view = { λ source. record { left = source.octets; calls = source.calls } };
}

impl MemSource {
    /// A source that has these octets left. The calls with the numbers in `fails`, counted from 1, fail.
    pub fn new(bytes: Vec<u8>, fails: Vec<u64>) -> MemSource
        ensures { result ≡ record { left = bytes.items; calls = no_calls fails.items } }
    {
        MemSource {
            octets: QuietSource::new(bytes),
            calls: Calls::new(fails),
        }
    }
}

impl Source for MemSource {
    ghost left = { λ source. Some source.left };

    ghost faults = { λ source. source.calls.failed };

    /// Gives as many octets as fit, and leaves the rest of `into` as it was. The listed calls fail, and no other.
    fn read(&mut self, into: &mut [u8]) -> Result<usize, Failed>
        ensures answer { is_ok result ≡ not (is_next_listed self.old.calls) }
        ensures count { IfOk result (λ count. count ≡ min (length into.old) (length self.old.left)) }
        ensures into { IfOk result (λ count. into.new ≡ take count self.old.left ++ drop count into.old) }
        ensures ok { IfOk result (λ count. self.new ≡ record { left = drop count self.old.left; calls = after_call self.old.calls }) }
        ensures err { OnErr result ((self.new ≡ record self.old { calls = after_fault self.old.calls }) × (into.new ≡ into.old)) }
    {
        if self.calls.count() {
            self.calls.fail();
            return Err(Failed);
        }
        self.octets.read(into)
    }
}

/// A sink that keeps what is written, up to a room that was made before, and whose planned calls fail.
#[derive(Drop)]
pub struct MemSink {
    octets: Vec<u8>,
    room: usize,
    calls: Calls,
    finished: bool,
}

impl Model for MemSink {
    ghost use Rattle.std.specs.Prelude.{◌≤◌, length};
    ghost use Rattle.std.specs.Vec.{vec_capacity};
    ghost use Rattle.t1s_base.specs.Memory.{SinkState};

    ghost Value = { SinkState };

    ghost view = { λ sink. record { octets = sink.octets.items; room = sink.room; calls = sink.calls; finished = sink.finished } };

    ghost invariant = { λ sink. (length sink.octets.items ≤ sink.room) × (sink.room ≤ vec_capacity sink.octets) };
}

impl MemSink {
    /// An empty sink for `room` octets. The `write` and `finish` calls with the numbers in `fails`,
    /// counted together from 1, fail.
    pub fn with_room(alloc: Global, room: usize, fails: Vec<u64>) -> Result<MemSink, AllocError>
        ensures { IfOk result (λ sink. sink ≡ record { octets = []; room = room; calls = no_calls fails.items; finished = false }) }
    {
        Ok(MemSink {
            octets: Vec::with_capacity(alloc, room)?,
            room,
            calls: Calls::new(fails),
            finished: false,
        })
    }

    /// All octets that were written.
    pub fn written(&self) -> &[u8]
        ensures { result.now ≡ self.now.octets }
    {
        &self.octets
    }
}

impl Sink for MemSink {
    ghost written = { λ sink. Some sink.octets };

    ghost faults = { λ sink. sink.calls.failed };

    ghost finished = { λ sink. sink.finished };

    /// The listed calls fail, and a piece that doesn't fit in the room; both take nothing. No other call fails.
    fn write(&mut self, piece: &[u8]) -> Result<(), WriteStop>
        ensures answer { is_ok result ≡ is_taken self.old piece.now }
        ensures ok { OnOk result (self.new ≡ record self.old {
          octets = self.old.octets ++ piece.now;
          calls = after_call self.old.calls;
          finished = false;
        }) }
        ensures err { OnErr result (self.new ≡ record self.old { calls = after_fault self.old.calls; finished = false }) }
        ensures none_taken { IfErr result (λ stop. stop.taken ≡ 0) }
    {
        self.finished = false;
        let is_listed = self.calls.count();
        if is_listed || self.room - self.octets.len() < piece.len() {
            self.calls.fail();
            return Err(WriteStop { taken: 0 });
        }
        match self.octets.extend_from_slice(piece) {
            Ok(()) => Ok(()),
            Err(_) => unreachable!(),
        }
    }

    /// The listed calls fail, and no other.
    fn finish(&mut self) -> Result<(), Failed>
        ensures answer { is_ok result ≡ not (is_next_listed self.old.calls) }
        ensures ok { OnOk result (self.new ≡ record self.old { calls = after_call self.old.calls; finished = true }) }
        ensures err { OnErr result (self.new ≡ record self.old { calls = after_fault self.old.calls }) }
    {
        if self.calls.count() {
            self.calls.fail();
            return Err(Failed);
        }
        self.finished = true;
        Ok(())
    }
}

/// A sink that takes everything and doesn't tell it. Contracts see whether it is finished.
#[derive(Drop)]
pub struct NullSink {
    finished: bool,
}

impl Model for NullSink {
    ghost use Rattle.std.specs.Prelude.{Bool};

    ghost Value = { Bool };

    ghost view = { λ sink. sink.finished };
}

impl NullSink {
    /// A sink that isn't finished.
    pub fn new() -> NullSink
        ensures { result ≡ false }
    {
        NullSink { finished: false }
    }
}

impl Sink for NullSink {
    ghost written = { λ _. None };

    ghost faults = { λ _. 0 };

    ghost finished = { λ sink. sink };

    fn write(&mut self, _piece: &[u8]) -> Result<(), WriteStop>
        ensures never_fails { IsOk result }
        ensures unfinished { self.new ≡ false }
    {
        self.finished = false;
        Ok(())
    }

    fn finish(&mut self) -> Result<(), Failed>
        ensures never_fails { IsOk result }
        ensures finished { self.new ≡ true }
    {
        self.finished = true;
        Ok(())
    }
}
