//! What one node does over the waves that pass it: the drives of a cable, its own among them, as they come to its place.
//!
//! Nothing here runs. `specs/` says, of the waves that have come before a tick, what a node keeps as this tick finds it:
//! its carrier, its receiver, control and transmitter, and what it drives. The module `laws` has the law that it is so in
//! every tick, whatever the cable: it names no other node, and no distance; and the law of what a node drives while the
//! opportunity is its own.
#![tactic(auto)]

pub mod laws;
