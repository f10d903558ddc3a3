//! `PcsTx`, the machine that a node steps once a tick.
ghost use Rattle.std.specs.Prelude.{◌≡◌, IsTrue, IfSome};
ghost use Rattle.t1s_symbols.specs.Ranges.{IsQuarter};
ghost use Rattle.t1s_pcs_tx.specs.State.{tx_start, IsTxState, quarter_of, first_h_begins};
ghost use Rattle.t1s_pcs_tx.specs.TransmitTable.{transmit_step, report_of};

use crate::states::{Quiet, State};
use crate::{TxIn, TxReport};
use std::marker::Model;
use t1s_ring::DelayLine;
use t1s_scramble::Scrambler;
use t1s_symbols::Quarter;

/// A symbol takes four ticks: the last of its quarters.
const LAST_PART: u8 = 3;

/// The transmitter of a node: the state, the quarter of its symbol that was driven last, and the scrambler, which
/// is kept from piece to piece. Contracts see it as a `TxState`.
#[derive(Drop)]
pub struct PcsTx {
    state: State,
    part: u8,
    scrambler: Scrambler,
}

impl Model for PcsTx {
    ghost use Rattle.t1s_pcs_tx.specs.State.{TxState, IsTxState, stage_of};

    ghost Value = { TxState };

    ghost view = { λ tx. record { stage = stage_of tx.state; part = tx.part; past = tx.scrambler } };

    ghost invariant = { λ tx. IsTxState (record { stage = stage_of tx.state; part = tx.part; past = tx.scrambler }) };
}

impl PcsTx {
    /// A transmitter that drives nothing, with its scrambler at the start.
    pub fn start() -> PcsTx
        ensures { result ≡ tx_start }
    {
        PcsTx {
            state: State::Quiet(Quiet),
            part: 0,
            scrambler: Scrambler::new(),
        }
    }

    /// What the last step left to report. A closer is reported with its last quarter.
    pub fn report(&self) -> TxReport
        ensures { result ≡ report_of self.now }
    {
        self.state.report(self.part == LAST_PART)
    }

    /// The last step has begun the first H of a piece, in its first quarter.
    pub fn begins_first_h(&self) -> bool
        ensures { result ≡ first_h_begins self.now }
    {
        self.state.is_first_h() && self.part == 0
    }

    /// The quarter that the last step drove, if it drove one.
    fn quarter(&self) -> Option<Quarter>
        ensures quarter { result ≡ quarter_of self.now }
        ensures range { IfSome result IsQuarter }
    {
        let sym = self.state.symbol()?;
        Some(Quarter {
            sym,
            part: self.part,
        })
    }

    /// One tick: the quarter that is driven in it. The next quarter of the symbol goes out while it has one left; at a
    /// symbol boundary the next symbol is chosen, which may take a nibble from the delay line.
    #[tactic(auto, unfolding(crate::specs::TransmitTable::transmit_step))]
    pub fn step(self, inp: TxIn, line: &mut DelayLine) -> (PcsTx, Option<Quarter>)
        ensures state { result.0 ≡ (transmit_step self inp line.old).state }
        ensures driven { result.1 ≡ (transmit_step self inp line.old).driven }
        ensures line { line.new ≡ (transmit_step self inp line.old).line }
        ensures quarter { IfSome result.1 IsQuarter }
        ensures bounds { IsTxState result.0 }
    {
        let PcsTx {
            state,
            part,
            mut scrambler,
        } = self;
        let next = if state.is_quiet() || part == LAST_PART {
            let state = state.step(inp, line, &mut scrambler);
            PcsTx {
                state,
                part: 0,
                scrambler,
            }
        } else {
            PcsTx {
                state,
                part: part + 1,
                scrambler,
            }
        };
        let quarter = next.quarter();
        (next, quarter)
    }
}
