//! Reception: what the receiver of a node makes of all that the node hears, and what becomes there of a frame that it hears alone.
//!
//! This crate is definitions and laws, which hold of every script, fit or not. What a receiver completes over any ticks stands in
//! `specs/Receptions.antt`, the pieces that a capture shows, with their starts, in `specs/ShownPieces.antt`, and how the two
//! correspond at a node of a script in `specs/HeardPieces.antt`. The laws are in the module `laws`.
#![tactic(auto)]

pub mod laws;
