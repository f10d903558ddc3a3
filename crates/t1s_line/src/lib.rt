//! The run of a script, in definitions: its nodes, what they drive and hear in every tick, and what happens there.
//!
//! Nearly all of this crate is definitions and laws. `specs/World.antt` is the world of a script: the machine of its
//! nodes, each as it is at first, what it drives and hears, the events of a tick, and what is counted. Offers and noise
//! stand in `specs/Acts.antt`. What a node of a segment does in a tick stands in `specs/Track.antt`, over the whole node
//! of `t1s_node`, and what comes of a tick, over any nodes, in `specs/Outcomes.antt` and `specs/Runs.antt`. What the laws
//! on a run speak of, as relations, is in `specs/Happenings.antt`. The layer above shows that what it keeps stands for this
//! world. What holds of the drives of a run is in the module `laws`.
#![tactic(auto)]

mod events;
pub mod laws;
mod offers;
mod totals;
mod track;

pub use events::{Event, Watch};
pub use offers::{OfferOutcome, OfferState, Wait};
pub use totals::NodeTotals;
pub use track::Track;
