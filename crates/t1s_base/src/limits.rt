//! How large a segment and a run may be. The first two versions of the script have smaller ones.

/// The most nodes of a segment.
pub const MOST_NODES: u8 = 32;

/// The greatest number of a node: nodes are numbered from 0.
pub const LAST_NODE: u8 = MOST_NODES - 1;

/// The most ticks of a run.
pub const MOST_TICKS: u64 = 20_000_000;

/// The greatest number of a node in the first two versions of the script.
pub const EARLY_LAST_NODE: u8 = 15;

/// The most ticks of a run in the first two versions of the script.
pub const EARLY_MOST_TICKS: u64 = 2_000_000;
