//! The half-duplex MAC of a station (IEEE 802.3 clause 4): deference, sending, jam, and backoff.
//!
//! The layer above steps a `Mac` once a tick. Contracts see it as a `MacState`, and `Mac::step` is `mac_step` of it,
//! with every draw of a backoff. The table stands in `specs/MacTable.antt`, deference in `specs/DeferenceTable.antt`, the draws in
//! `specs/Draws.antt`, and what the table says of whole runs in `specs/Laws.antt`.
#![tactic(auto)]

mod deference;
mod draws;
pub mod laws;
mod mac;
mod outcome;
mod picked_draws;
mod states;
mod steps;

pub use draws::{Draws, ListDraws, SeedDraws};
pub use mac::Mac;
pub use outcome::{MacNote, MacStep};
pub use picked_draws::PickedDraws;

#[cfg(test)]
mod tests;
