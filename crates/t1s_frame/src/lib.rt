//! Ethernet frames of 64 to 1522 octets, their frame check sequence, and the nibbles that carry them.
//!
//! The layer above sees a `Frame` as the list of its octets, of which `IsFrame` holds always: `Frame::octets` says so.
//! The definitions stand in `specs/FrameCheck.antt` (the frame check sequence), `specs/Frame.antt`
//! (padding, a frame, its nibbles) and `specs/Arrivals.antt` (how a received piece is classified). `PieceNibbles` packs
//! the nibbles of a received piece into octets as they come (`specs/PackedNibbles.antt`).
#![tactic(auto)]

mod arrivals;
mod check_sequence;
mod frames;
pub mod laws;
mod piece_nibbles;
mod table;
#[cfg(test)]
mod tests;

pub use arrivals::{Arrival, classify};
pub use check_sequence::fcs;
pub use frames::{Frame, FrameFault};
pub use piece_nibbles::{MOST_NIBBLES, PieceNibbles};
