//! Rings of frames, at rest and lent.
ghost use Rattle.std.specs.Prelude.{◌≡◌, ◌<◌, ◌≤◌, ◌↔◌, [], length, slice_get, IfOk, IfErr, OnOk, IsOk, IsErr};
ghost use Rattle.t1s_ring.specs.Queue.{empty_queue, with_last, without_head, IsQueue};

use crate::Queued;
use circular_buffer::HeapCircularBuffer;
use std::alloc::{AllocError, Global};
use std::marker::Model;

/// A queue of frames in a fixed room. Contracts see it as its frames, the oldest first, and its room.
#[derive(Debug, Drop)]
pub struct FrameRing {
    frames: HeapCircularBuffer<Queued>,
}

impl Model for FrameRing {
    ghost use Rattle.t1s_ring.specs.Queue.{Queue, queue, IsQueue};

    ghost Value = { Queue };

    ghost view = { λ ring. queue ring.frames.items ring.frames.capacity };

    ghost invariant = { λ ring. IsQueue (queue ring.frames.items ring.frames.capacity) };
}

impl FrameRing {
    /// An empty ring with room for so many frames, of 1 to 64. This is the only call that takes memory.
    pub fn with_room(alloc: Global, room: u8) -> Result<FrameRing, AllocError>
        requires least { 1 ≤ room }
        requires most { room ≤ 64 }
        ensures { IfOk result (λ ring. ring ≡ empty_queue room) }
    {
        let frames = HeapCircularBuffer::with_capacity(alloc, room as usize)?;
        Ok(FrameRing { frames })
    }

    /// How many frames the ring holds.
    pub fn len(&self) -> u8
        ensures len { result ≡ length self.now.frames }
        ensures bounds { IsQueue self.now }
    {
        self.frames.len() as u8
    }

    /// Appends a frame at the back. A ring that holds as many frames as its room stays as it is, and
    /// hands the frame back.
    pub fn offer(&mut self, q: Queued) -> Result<(), Queued>
        ensures taken { IsOk result ↔ (length self.old.frames < self.old.room) }
        ensures full { IsErr result ↔ (length self.old.frames ≡ self.old.room) }
        ensures ok { OnOk result (self.new ≡ with_last self.old q) }
        ensures err { IfErr result (λ back. (back ≡ q) × (self.new ≡ self.old)) }
        ensures bounds { IsQueue self.new }
    {
        self.frames.try_push_back(q)
    }

    /// Lends the ring for a sending of its head. An empty ring is handed back as it was.
    pub fn lend(self) -> Result<LentRing, FrameRing>
        ensures lent { IsOk result ↔ (0 < length self.frames) }
        ensures empty { IsErr result ↔ (self.frames ≡ []) }
        ensures ok { IfOk result (λ lent. lent ≡ self) }
        ensures err { IfErr result (λ ring. ring ≡ self) }
        ensures bounds { IsQueue self }
    {
        let FrameRing { frames } = self;
        if frames.is_empty() {
            Err(FrameRing { frames })
        } else {
            Ok(LentRing { lent: frames })
        }
    }
}

/// A ring whose head is being sent. Contracts see it as a `FrameRing`, and its list is not empty.
#[derive(Debug, Drop)]
pub struct LentRing {
    lent: HeapCircularBuffer<Queued>,
}

impl Model for LentRing {
    ghost use Rattle.std.specs.Prelude.{◌<◌, length};
    ghost use Rattle.t1s_ring.specs.Queue.{Queue, queue, IsQueue};

    ghost Value = { Queue };

    ghost view = { λ ring. queue ring.lent.items ring.lent.capacity };

    ghost invariant = { λ ring. IsQueue (queue ring.lent.items ring.lent.capacity) × (0 < length ring.lent.items) };
}

impl LentRing {
    /// The first frame of the ring.
    pub fn head(&self) -> &Queued
        ensures head { slice_get self.now.frames 0 ≡ Some result.now }
        ensures bounds { IsQueue self.now }
    {
        match self.lent.front() {
            Some(head) => head,
            None => unreachable!(),
        }
    }

    /// Appends a frame at the back, after the head. A ring that holds as many frames as its room, the
    /// head counted, stays as it is, and hands the frame back.
    pub fn offer(&mut self, q: Queued) -> Result<(), Queued>
        ensures taken { IsOk result ↔ (length self.old.frames < self.old.room) }
        ensures full { IsErr result ↔ (length self.old.frames ≡ self.old.room) }
        ensures ok { OnOk result (self.new ≡ with_last self.old q) }
        ensures err { IfErr result (λ back. (back ≡ q) × (self.new ≡ self.old)) }
        ensures head { slice_get self.new.frames 0 ≡ slice_get self.old.frames 0 }
        ensures bounds { IsQueue self.new }
    {
        self.lent.try_push_back(q)
    }

    /// Ends the loan, and keeps every frame.
    pub fn keep(self) -> FrameRing
        ensures kept { result ≡ self }
        ensures held { 0 < length result.frames }
        ensures bounds { IsQueue result }
    {
        let LentRing { lent } = self;
        FrameRing { frames: lent }
    }

    /// Ends the loan, and removes the head alone.
    pub fn spend(self) -> FrameRing
        ensures spent { result ≡ without_head self }
        ensures held { 0 < length self.frames }
        ensures bounds { IsQueue result }
    {
        let LentRing { mut lent } = self;
        let after_head = lent.len() - 1;
        lent.truncate_front(after_head);
        FrameRing { frames: lent }
    }
}
