//! One node of a segment: PLCA control, the MAC, the transmitter and the data path with its delay line, tick by tick.
//!
//! The layer above uses `Node`: once a tick it drives, and then hears. `Node::drive` is `node_drive` and `Node::hear` is
//! `node_hear` of `specs/Node.antt`, on plain data; the carrier reading stands in `specs/CarrierTable.antt`.
//! The drive phase of the parts that drive the line is `core_drive` in `specs/Core.antt`: the tables of the four parts in
//! their order, each fed with what the last tick left. What holds in every run of these is in the module `laws`.
#![tactic(auto)]

mod carrier;
pub mod laws;
mod node;
mod settings;

pub use node::Node;
pub use settings::{Driven, NodeHeard, NodeSet};

#[cfg(test)]
mod tests;
