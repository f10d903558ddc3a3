//! What a step of the MAC tells.
use plca_data::MacOut;

/// What became of a frame in a step, with the number of its offer.
#[derive(Clone, Copy, Debug, PartialEq, Eq)]
pub enum MacNote {
    None,
    /// The jam of a collision begins.
    Jam(u16),
    /// The frame leaves the queue, as its 16th jam ends.
    Drop(u16),
    /// The frame leaves the queue, as its last nibble ends.
    Sent(u16),
}

/// What the MAC gives out in a tick, and what became of a frame.
#[derive(Clone, Copy, Debug, PartialEq, Eq)]
pub struct MacStep {
    pub out: MacOut,
    pub note: MacNote,
}
