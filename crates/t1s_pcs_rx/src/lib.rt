//! The receiver of the line: from what a node hears, tick by tick, to the class of a burst and its pieces.
//!
//! The layer above uses `PcsRx::hear`, which takes one tick: it leaves the receiver as one step of the table, and its
//! event is the table's. Views of pieces stand in `specs/Views.antt`, what a receiver keeps in `specs/Receiver.antt`,
//! the table in `specs/ReceiveTable.antt`, and what a view leaves once its loan is over in `specs/Leaves.antt`. That the
//! pieces of a burst that is heard whole are handed on, each in the last tick of its closer, is a law, in the module
//! `laws`, stated in `specs/Laws.antt`; and so is what comes of a burst that is heard from any of its ticks on, stated in
//! `specs/Tails.antt`.
#![tactic(auto)]

pub mod laws;
mod piece;
mod piece_reader;
mod reader;
mod receiver;
#[cfg(test)]
mod tests;

pub use piece::{Closer, Kind, PieceView};
pub use piece_reader::PieceReader;
pub use receiver::{PcsRx, RxEvent};
