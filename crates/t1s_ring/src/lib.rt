//! The queue of frames that a station has to send, and the line of nibbles that its data path delays.
//!
//! The MAC owns a `FrameRing` and lends it for a sending: the head of a `LentRing` stays its head until
//! `spend` removes it, while `offer` still appends at the back. Contracts see both as a `Queue`, the list of
//! the frames and the room (`specs/Queue.antt`), and a `DelayLine` as its list (`specs/DelayLine.antt`).
#![tactic(auto)]

mod delay_line;
mod queued;
mod ring;

pub use delay_line::DelayLine;
pub use queued::Queued;
pub use ring::{FrameRing, LentRing};

#[cfg(test)]
mod tests;
