//! The PLCA data path: what stands between a MAC and the line (IEEE 802.3 clause 148.4.5).
//!
//! It makes the nibbles of a frame wait in a `DelayLine` until the node's transmit opportunity comes. Where the wait
//! would be too long it signals a collision, so that the MAC jams, and holds the MAC off by carrier until the
//! opportunity comes; the frame is then sent anew. The layer above uses that `DataPath::step` is `data_path_step` over the
//! list of the line, for every state and input: the table stands in `specs/DataPathTable.antt`, the ranges of
//! its numbers in `specs/Ranges.antt`, and what holds in every run of it, in the module `laws`, in `specs/Laws.antt`.
#![tactic(auto)]

mod data_path;
pub mod laws;

pub use data_path::DataPath;

#[cfg(test)]
mod tests;

use t1s_symbols::Class;

/// What a MAC gives out in one tick.
#[derive(Clone, Copy, Debug, PartialEq, Eq)]
pub enum MacOut {
    /// Nothing new: the MAC is silent, or a nibble goes on.
    Nothing,
    /// A nibble, below 16, which lasts four ticks.
    Nibble(u8),
    /// The sending, or the jam that cut it, has ended.
    Ended,
}

/// What the data path is told in a tick.
#[derive(Clone, Copy, Debug, PartialEq, Eq)]
pub struct DataIn {
    /// Control takes part in the cycle of opportunities, after its step of this tick.
    pub active: bool,
    /// The node holds its own opportunity, after control's step of this tick.
    pub own: bool,
    /// The transmitter had ended a closer when the tick before was over.
    pub closed: bool,
    /// Carrier is sensed, as the tick before left it.
    pub crs: bool,
    /// What the receiver takes the last burst for, as the tick before left it.
    pub class: Class,
    /// In the tick before the node drove and heard another signal.
    pub hit: bool,
    /// What the MAC gives out in this tick.
    pub mac: MacOut,
}
