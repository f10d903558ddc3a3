//! Captures: what a node heard, as octets.
//!
//! The layer above uses [`Decoder`]: it takes a capture octet by octet, however the octets were cut, hands out
//! each item at its octet, and refuses at the first octet that leaves the grammar. Captures stand in
//! `specs/Captures.antt`, what octets that begin a capture are made of in `specs/PrefixParts.antt`, the first offence and its
//! reasons in `specs/Offences.antt`, the pieces and counts of a capture in `specs/Pieces.antt`, the items that are handed
//! out and their octets in `specs/DecodedItems.antt`, what a decoder stands for in `specs/Stands.antt`, and what its answers
//! say in `specs/Answers.antt`, and in `specs/Advances.antt` where it is fed in place.
//!
//! [`CaptureWriter`] writes a capture: the octets that it gives out are together the text of the items that `cut` in
//! `specs/Cut.antt` cuts from the ticks that were handed in. What it keeps and what it stands for is in
//! `specs/WriterTable.antt`. That octets have one reading, that no capture begins another, and what is cut from ticks, in
//! the words of the grammar (`specs/CutRows.antt`), are laws, in the module `laws`.
#![tactic(auto)]

mod capture_reader;
mod decoder;
mod format;
mod held_item;
mod items;
pub mod laws;
mod octets;
mod progress;
mod row;
mod stage;
mod stretch;
#[cfg(test)]
mod tests;
mod writer;
#[cfg(test)]
mod writer_tests;

pub use decoder::{Advance, Decoder, Held, Next};
pub use items::{Counts, Item, Refusal, Why};
pub use octets::Octets;
pub use writer::CaptureWriter;
