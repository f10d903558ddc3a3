//! The transmitter of a node: it spells what PLCA control tells it, and what the delay line holds, as symbols.
//!
//! The layer above steps a `PcsTx` once a tick and drives the quarter that it answers: `PcsTx::step` is the
//! transmit table on plain data (`transmit_step` in `specs/TransmitTable.antt`), over the state of
//! `specs/State.antt`. It tells a `TxIn` and reads a `TxReport`. That a piece is
//! spelled of what is popped for it is a law, in the module `laws`, over the runs of `specs/Runs.antt`.
#![tactic(auto)]

pub mod laws;
mod states;
mod transmitter;

pub use transmitter::PcsTx;

/// What PLCA control tells the transmitter in a tick (IEEE Std 802.3 148.4.4, `tx_cmd`).
#[derive(Clone, Copy, PartialEq, Eq, Debug)]
pub enum TxCmd {
    /// Nothing is asked: the line is left silent.
    None,
    /// A beacon goes out.
    Beacon,
    /// The opportunity is taken: the line is held until data follows.
    Commit,
}

/// What the transmitter is told in a tick.
#[derive(Clone, Copy, PartialEq, Eq, Debug)]
pub struct TxIn {
    /// What PLCA control tells it.
    pub cmd: TxCmd,
    /// The frame has been given to the delay line whole.
    pub ended: bool,
    /// The frame has met a collision, or has lost a nibble.
    pub bad: bool,
}

/// What the transmitter has done, as its last step left it.
#[derive(Clone, Copy, PartialEq, Eq, Debug)]
pub enum TxReport {
    /// Nothing is driven.
    Quiet,
    /// A beacon or a commit is driven.
    Leading,
    /// A piece is driven, until its closer ends.
    Framing,
    /// The closer of a piece has just ended: `good` where it closed a good piece.
    Closed { good: bool },
}

#[cfg(test)]
mod tests;
