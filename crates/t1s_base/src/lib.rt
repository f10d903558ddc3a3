//! Where octets come from and where they go, and how lines and numbers are written and read.
//!
//! Every layer above reads from a [`Source`] and writes to a [`Sink`]. Their contract: a call is
//! refused only where the object's count of faults rose in that call, and what is written is
//! appended. `specs/Causes.antt` says what a cause is, `specs/Octets.antt` what becomes of the octets,
//! `specs/Memory.antt` what the sources and sinks of this crate keep, and `specs/Numbers.antt` which
//! texts are numbers. `specs/Limits.antt` says how large a segment and a run may be, and `specs/NodeIds.antt` what the
//! IDs of a node are.
#![tactic(auto)]

mod calls;
pub mod laws;
mod limits;
mod lines;
mod memory;
mod node_ids;
mod numbers;
mod sinks;
mod sources;
mod standard;
#[cfg(test)]
mod tests;

pub use limits::{EARLY_LAST_NODE, EARLY_MOST_TICKS, LAST_NODE, MOST_NODES, MOST_TICKS};
pub use lines::{Line, NoRoom, put_number, put_text};
pub use memory::{MemSink, MemSource, NullSink, QuietSource};
pub use node_ids::Ids;
pub use numbers::read_number;
pub use sinks::{Sink, WriteStop};
pub use sources::{Failed, Source};
pub use standard::{StdSink, StdSource};
