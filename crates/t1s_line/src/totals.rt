//! What is counted at a node.

/// What is counted at a node over the ticks that were played.
#[derive(Clone, Copy, PartialEq, Eq, Debug)]
pub struct NodeTotals {
    /// The node's number.
    pub node: u8,
    /// Frames whose last nibble ended without collision.
    pub sent: u64,
    /// Offers that were refused since the ring was full.
    pub full: u64,
    /// Jams.
    pub jam: u64,
    /// Frames that were dropped.
    pub drop: u64,
    /// Good arrivals.
    pub good: u64,
    /// Arrivals that were not good.
    pub bad: u64,
    /// Ticks in which the node heard more than one signal, or any while it drove.
    pub clash: u64,
}
