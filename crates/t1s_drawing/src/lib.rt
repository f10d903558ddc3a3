//! The report of a run as a picture or as a value change dump.
//!
//! The program uses that `draw` writes exactly the text that its definition gives for the report that it reads, or refuses
//! the line that is none of a report, and that each of its answers has the cause that its clauses name. A picture that
//! isn't refused is an XML document, by a small grammar of XML; its bars are exactly the parts of the drives that the
//! report tells (`laws`). A dump that isn't refused is a valid one, and shows the run that the report tells (`laws`).
//!
//! What a line says stands in `specs/ReadLines.antt`, the shapes that it gives in `specs/Shapes.antt` and
//! `specs/Progress.antt`, their texts in `specs/Elements.antt` and `specs/ShapeTexts.antt`, what it changes in a dump in
//! `specs/Dump.antt`, and the whole text in `specs/Written.antt`. The grammar of XML stands in `specs/Xml.antt`, the law of
//! the bars in `specs/BarLaws.antt`, that of dumps in `specs/DumpLaws.antt`.
//!
//! It takes no memory: a report is drawn as it is read, and what is kept is a line of at most 4096 octets and, for each of
//! 32 nodes at most, what it drives and since when, whether it has a pulse, and how many signs stand at it in the latest tick.
#![tactic(auto)]

mod drawing;
mod drawn_shapes;
mod dump;
mod fields;
pub mod laws;
mod parsing;
mod program;
mod progress;
mod pulses;
mod report;
mod shapes;
mod signs;
mod status;
mod texts;
mod window;
mod writing;

pub use program::draw;
pub use progress::Reason;
pub use status::Status;

#[cfg(test)]
mod draw_tests;
