//! Scripts that are made from a seed, a number of nodes and a number of frames.
//!
//! The layer above uses that the lines which a [`Generator`] gives, one after the other, are the text of the
//! definition (`generated` in `specs/Generated.antt`). The law in `laws` says of that text that it is read as a
//! script, and that this script is fit. `specs/Progress.antt` is only what the code keeps between two lines.
#![tactic(auto)]

mod fields;
mod generator;
pub mod laws;
mod progress;
#[cfg(test)]
mod tests;
mod texts;

pub use generator::Generator;
