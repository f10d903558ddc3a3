//! The grammar of bursts on the line: beacons, commits and runs of pieces.
//!
//! The layer above uses `Place`, which stands for the beginning of a burst and judges the next symbol
//! (`Place::take`), and `put_piece`, which writes the piece that carries a frame. The grammar speaks of whole lists, in
//! `specs/Burst.antt`; what a `Place` keeps of a list stands in `specs/Prefixes.antt`, and its step as a table on counts
//! in `specs/PlaceTable.antt`. The piece of a frame is in `specs/Sent.antt`, and how a piece is read in `specs/Reading.antt`.
//! That a sent piece is read as its frame is a law, in the module `laws`.
#![tactic(auto)]

pub mod laws;
mod piece_text;
mod place;
#[cfg(test)]
mod tests;

pub use piece_text::{PieceText, PutFault, put_piece};
pub use place::{Place, PlaceFault};
