//! The run of a segment: all nodes over one cable, tick by tick.
//!
//! The layer above uses that `Segment::tick` plays the next tick of the world of the script: it tells the
//! watch exactly the events of that tick, in the order of the report. Between ticks `Segment::heard` tells
//! what a node heard in the last one. The world of a script stands in `t1s_line`, and the relation between a
//! segment and its script in `specs/Stands.antt`.
//!
//! What a tick is, is written once: an `Engine` plays any nodes that are a `NodeMachine`, and stands for the run
//! of their machine. A segment is the engine over the nodes of a script, which `track.rt` makes machines. The acts that
//! are still to come, and how the offers stand, are kept by `t1s_acts`.
#![tactic(auto)]

mod calm;
mod engine;
mod machine;
mod offer_phase;
mod phases;
mod segment;
mod totals;
mod track;

pub use engine::Engine;
pub use machine::{DriveReport, HearReport, NodeMachine};
pub use segment::Segment;
pub use t1s_line::{Event, NodeTotals, OfferOutcome, Wait, Watch};
