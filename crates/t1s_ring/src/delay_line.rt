//! The line of nibbles between the MAC and the transmitter.
ghost use Rattle.std.specs.Prelude.{◌≡◌, ◌<◌, ◌↔◌, [], ◌∷◌, ◌++◌, length, drop, slice_get, IfOk, IfErr, IfSome, OnOk, IsOk, IsErr};
ghost use Rattle.t1s_ring.specs.DelayLine.{line_room, IsLine};

use circular_buffer::HeapCircularBuffer;
use std::alloc::{AllocError, Global};
use std::marker::Model;

/// The most nibbles that a line holds.
const LINE_ROOM: usize = 97;

/// A queue of at most 97 nibbles, each below 16. Contracts see it as their list, the oldest first.
#[derive(Debug, Drop)]
pub struct DelayLine {
    nibbles: HeapCircularBuffer<u8>,
}

impl Model for DelayLine {
    ghost use Rattle.std.specs.Prelude.{◌≡◌, List, ℕ};
    ghost use Rattle.t1s_ring.specs.DelayLine.{line_room, IsLine};

    ghost Value = { List ℕ };

    ghost view = { λ line. line.nibbles.items };

    ghost invariant = { λ line. (line.nibbles.capacity ≡ line_room) × IsLine line.nibbles.items };
}

impl DelayLine {
    /// An empty line. This is the only call that takes memory, for 97 nibbles.
    pub fn new(alloc: Global) -> Result<DelayLine, AllocError>
        ensures { IfOk result (λ line. line ≡ []) }
    {
        let nibbles = HeapCircularBuffer::with_capacity(alloc, LINE_ROOM)?;
        Ok(DelayLine { nibbles })
    }

    /// Appends a nibble, which is below 16. A line that holds 97 nibbles stays as it is, and hands
    /// the nibble back.
    pub fn push(&mut self, nibble: u8) -> Result<(), u8>
        requires { nibble < 16 }
        ensures taken { IsOk result ↔ (length self.old < line_room) }
        ensures full { IsErr result ↔ (length self.old ≡ line_room) }
        ensures ok { OnOk result (self.new ≡ self.old ++ nibble ∷ []) }
        ensures err { IfErr result (λ back. (back ≡ nibble) × (self.new ≡ self.old)) }
        ensures bounds { IsLine self.new }
    {
        self.nibbles.try_push_back(nibble)
    }

    /// Takes the oldest nibble, and None from an empty line.
    pub fn pop(&mut self) -> Option<u8>
        ensures value { result ≡ slice_get self.old 0 }
        ensures rest { self.new ≡ drop 1 self.old }
        ensures nibble { IfSome result (λ nibble. nibble < 16) }
        ensures bounds { IsLine self.new }
    {
        self.nibbles.pop_front()
    }

    /// How many nibbles the line holds.
    pub fn len(&self) -> u8
        ensures len { result ≡ length self.now }
        ensures bounds { IsLine self.now }
    {
        self.nibbles.len() as u8
    }

    /// Drops every nibble.
    pub fn clear(&mut self)
        ensures { self.new ≡ [] }
    {
        self.nibbles.clear();
    }
}
