//! A node of a segment.
use t1s_node::Node;

/// A node of a segment, with what the last tick left for the events of the next.
#[derive(Drop)]
pub struct Track {
    /// The node's number.
    pub no: u8,
    /// The tick at which it starts.
    pub start: u64,
    pub node: Node,
    /// Whether its status was OK after the last drive phase.
    pub ok: bool,
    /// Whether it drove in the last tick.
    pub driving: bool,
}
