//! The lines of a value change dump of a segment (VCD, IEEE Std 1364).
//!
//! The layer above uses that each call appends exactly the text of the changes or of the declarations that its clause names.
//! What a dump is stands in `specs/Dumps.antt`, the wires of a node in `specs/Wires.antt`, and which value a wire has at a tick
//! in `specs/Values.antt`.
#![tactic(auto)]

mod heard;
mod texts;
mod wires;

pub use heard::{Heard, put_heard, put_heard_scope};
pub use texts::{number, text};
pub use wires::{put_change, put_drive, put_falls, put_scope, put_start, put_time};

#[cfg(test)]
mod wire_tests;
