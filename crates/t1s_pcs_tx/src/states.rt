//! The typed states of the transmitter. Each is consumed at the end of its symbol, and leaves the next one.
ghost use Rattle.std.specs.Prelude.{◌≡◌, ◌<◌, IsTrue, IfSome, Bool, List};
ghost use Rattle.t1s_symbols.specs.Ranges.{IsSymbol};
ghost use Rattle.t1s_pcs_tx.specs.State.{Starting as Begun, stage_of, closing_stage, symbol_of, is_first_h, stage_in_range, report_by};
ghost use Rattle.t1s_pcs_tx.specs.TransmitTable.{choice, choice_after, data_choice, command_choice, is_quiet};

use crate::{TxCmd, TxIn, TxReport};
use t1s_ring::DelayLine;
use t1s_scramble::Scrambler;
use t1s_symbols::Symbol;

/// How many symbols stand for the first nibbles of a preamble: J, J, H, H.
const STARTING_SYMBOLS: u8 = 4;

/// How many of these are J.
const STARTING_SYNCS: u8 = 2;

/// Nothing is driven.
#[derive(Drop)]
pub struct Quiet;

/// A beacon is driven.
#[derive(Drop)]
pub struct Beaconing;

/// The line is held until data follows.
#[derive(Drop)]
pub struct Committing;

/// A piece begins: the place of the symbol among J, J, H and H.
#[derive(Drop)]
pub struct Starting {
    pub place: u8,
}

/// The nibbles of a piece go out: the one that is driven, scrambled.
#[derive(Drop)]
pub struct Sending {
    pub nibble: u8,
}

/// A piece ends.
#[derive(Drop)]
pub enum Closing {
    /// T is driven, of a piece that has been good so far or not.
    End { good: bool },
    /// The closer is driven: R of a good piece, and else K.
    Closer { good: bool },
}

/// The states of the transmitter.
#[derive(Drop)]
pub enum State {
    Quiet(Quiet),
    Beaconing(Beaconing),
    Committing(Committing),
    Starting(Starting),
    Sending(Sending),
    Closing(Closing),
}

/// What is driven next where no piece is open, by what is told: a piece begins where the line holds a nibble,
/// which it takes.
fn command_state(cmd: TxCmd, line: &mut DelayLine) -> State
    ensures row { (past : List Bool) → choice (stage_of result) past line.new ≡ command_choice cmd past line.old }
    ensures range { IsTrue (stage_in_range (stage_of result)) }
{
    match cmd {
        TxCmd::None => State::Quiet(Quiet),
        TxCmd::Beacon => State::Beaconing(Beaconing),
        TxCmd::Commit => match line.pop() {
            Some(_) => State::Starting(Starting { place: 0 }),
            None => State::Committing(Committing),
        },
    }
}

/// What is driven next among the nibbles of a piece: the next one, or T where the line is empty.
fn data_state(inp: TxIn, line: &mut DelayLine, scrambler: &mut Scrambler) -> State
    ensures row { choice (stage_of result) scrambler.new line.new ≡ data_choice scrambler.old inp line.old }
    ensures range { IsTrue (stage_in_range (stage_of result)) }
{
    match line.pop() {
        Some(plain) => State::Sending(Sending {
            nibble: scrambler.scramble(plain),
        }),
        None => State::Closing(Closing::End {
            good: inp.ended && !inp.bad,
        }),
    }
}

impl Starting {
    /// The next of the four symbols, for which the line loses a nibble, and then the nibbles of the piece.
    fn step(self, inp: TxIn, line: &mut DelayLine, scrambler: &mut Scrambler) -> State
        requires { self.place < 4 }
        ensures row { choice (stage_of result) scrambler.new line.new ≡ choice_after (Begun self.place) scrambler.old inp line.old }
        ensures range { IsTrue (stage_in_range (stage_of result)) }
    {
        if self.place + 1 < STARTING_SYMBOLS {
            let _ = line.pop();
            return State::Starting(Starting {
                place: self.place + 1,
            });
        }
        data_state(inp, line, scrambler)
    }
}

impl Closing {
    /// The closer after T, which is R where the piece has stayed good, and then what is told.
    fn step(self, inp: TxIn, line: &mut DelayLine) -> State
        ensures row { (past : List Bool) → choice (stage_of result) past line.new ≡ choice_after (closing_stage self) past inp line.old }
        ensures range { IsTrue (stage_in_range (stage_of result)) }
    {
        match self {
            Closing::End { good } => State::Closing(Closing::Closer {
                good: good && !inp.bad,
            }),
            Closing::Closer { .. } => command_state(inp.cmd, line),
        }
    }
}

impl State {
    /// Whether no symbol is driven, so that each tick is a symbol boundary.
    pub fn is_quiet(&self) -> bool
        ensures { result ≡ is_quiet (stage_of self.now) }
    {
        matches!(self, State::Quiet(_))
    }

    /// The first H of a piece is driven.
    pub fn is_first_h(&self) -> bool
        ensures { result ≡ is_first_h (stage_of self.now) }
    {
        matches!(self, State::Starting(starting) if starting.place == STARTING_SYNCS)
    }

    /// What follows at a symbol boundary: the rows of the table for the state.
    pub fn step(self, inp: TxIn, line: &mut DelayLine, scrambler: &mut Scrambler) -> State
        requires { IsTrue (stage_in_range (stage_of self)) }
        ensures row { choice (stage_of result) scrambler.new line.new ≡ choice_after (stage_of self) scrambler.old inp line.old }
        ensures range { IsTrue (stage_in_range (stage_of result)) }
    {
        match self {
            State::Quiet(_) | State::Beaconing(_) | State::Committing(_) => command_state(
                inp.cmd, line,
            ),
            State::Starting(starting) => starting.step(inp, line, scrambler),
            State::Sending(_) => data_state(inp, line, scrambler),
            State::Closing(closing) => closing.step(inp, line),
        }
    }

    /// The symbol of the state, if it has one.
    pub fn symbol(&self) -> Option<Symbol>
        requires { IsTrue (stage_in_range (stage_of self.now)) }
        ensures symbol { result ≡ symbol_of (stage_of self.now) }
        ensures range { IfSome result IsSymbol }
    {
        match self {
            State::Quiet(_) => None,
            State::Beaconing(_) => Some(Symbol::N),
            State::Committing(_) => Some(Symbol::J),
            State::Starting(starting) if starting.place < STARTING_SYNCS => Some(Symbol::J),
            State::Starting(_) => Some(Symbol::H),
            State::Sending(sending) => Some(Symbol::Nibble(sending.nibble)),
            State::Closing(Closing::End { .. }) => Some(Symbol::T),
            State::Closing(Closing::Closer { good: true }) => Some(Symbol::R),
            State::Closing(Closing::Closer { good: false }) => Some(Symbol::K),
        }
    }

    /// What is reported in the state, by whether its symbol has ended.
    pub fn report(&self, ended: bool) -> TxReport
        ensures { result ≡ report_by (stage_of self.now) ended }
    {
        match self {
            State::Quiet(_) => TxReport::Quiet,
            State::Beaconing(_) | State::Committing(_) => TxReport::Leading,
            State::Closing(Closing::Closer { good }) if ended => TxReport::Closed { good: *good },
            State::Starting(_) | State::Sending(_) | State::Closing(_) => TxReport::Framing,
        }
    }
}
