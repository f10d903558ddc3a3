//! `DataPath`, the machine that a node steps once a tick.
ghost use Rattle.std.specs.Prelude.{◌≡◌, ◌≤◌, ℕ, false, ◌&&◌, IsTrue, List, []};
ghost use Rattle.std.specs.Fn.{iterate};
ghost use Rattle.t1s_symbols.specs.CalmSteps.{AreCalm, IsCalmFor};
ghost use Rattle.plca_data.specs.CalmData.{keeps, calm_ticks, passed, path_after, IsCalmData};
ghost use Rattle.plca_data.specs.DataPathTable.{data_path_start, carrier, collision, ready, begun, ended, bad, idle, hold, collide, delay_pending, pending, wait_mac, transmit, data_path_step, is_nibble, is_full, pushed};
ghost use Rattle.plca_data.specs.Ranges.{IsMacOut, in_range};

use crate::{DataIn, MacOut};
use std::marker::Model;
use t1s_ring::DelayLine;
use t1s_symbols::Class;

/// How long a jammed frame waits until it may be sent anew, in ticks.
const PENDING_TICKS: u16 = 512;

/// A state of the table of the data path.
#[derive(Clone, Copy)]
enum State {
    /// Control takes no part, and the MAC is silent.
    Silent,
    /// No frame is in work.
    Idle,
    /// The first nibbles of a frame wait in the line for the opportunity.
    Hold,
    /// The MAC is told of a collision, until its jam has ended.
    Collide,
    /// The jam has ended, and the frame waits for so many ticks more, this one counted.
    DelayPending(u16),
    /// The frame waits for the opportunity.
    Pending,
    /// The opportunity is there: the frame's first nibble is awaited.
    WaitMac,
    /// The frame goes through the line: whether the MAC has ended it, and whether the piece is bad.
    Transmit { ended: bool, bad: bool },
}

/// The data path of one node.
#[derive(Clone, Copy)]
pub struct DataPath {
    state: State,
}

impl Model for DataPath {
    ghost use Rattle.plca_data.specs.declared.data_path.State.{State};

    ghost Value = { State };

    ghost use Rattle.plca_data.specs.Ranges.{in_range};
    ghost use Rattle.std.specs.Prelude.{IsTrue};

    ghost view = { λ d. d.state };

    ghost invariant = { λ d. IsTrue (in_range d.state) };

    ghost inverse = { λ d. record { state = d } };
}

/// Pushes the nibble that the MAC gives, if it gives one: whether a full line refused it.
fn push(mac: MacOut, line: &mut DelayLine) -> bool
    requires { IsMacOut mac }
    ensures line { line.new ≡ pushed mac line.old }
    ensures refused { result ≡ (is_nibble mac && is_full line.old) }
{
    match mac {
        MacOut::Nibble(nibble) => line.push(nibble).is_err(),
        MacOut::Nothing | MacOut::Ended => false,
    }
}

/// The nibbles that wait are lost: the line is emptied, and the MAC is to be told of a collision.
fn lose(line: &mut DelayLine) -> State
    ensures state { result ≡ State.Collide }
    ensures line { line.new ≡ [] }
{
    line.clear();
    State::Collide
}

/// The frame begins to go through the line, with the nibble that the MAC gives, if it gives one.
fn begin(mac: MacOut, line: &mut DelayLine) -> State
    requires { IsMacOut mac }
    ensures state { result ≡ State.Transmit false false }
    ensures line { line.new ≡ pushed mac line.old }
{
    let _refused = push(mac, line);
    State::Transmit {
        ended: false,
        bad: false,
    }
}

/// The rows of `Silent` and `Idle`, and of each state that has lost the opportunity.
fn idle(inp: DataIn, line: &mut DelayLine) -> State
    requires { IsMacOut inp.mac }
    ensures row { (result, line.new) ≡ idle inp line.old }
    ensures range { IsTrue (in_range result) }
{
    match (inp.active, inp.mac) {
        (false, MacOut::Nibble(_)) => State::Collide,
        (false, _) => State::Silent,
        (true, MacOut::Nibble(_)) => {
            let _refused = push(inp.mac, line);
            State::Hold
        }
        (true, _) => State::Idle,
    }
}

/// The rows of `Hold`.
fn hold(inp: DataIn, line: &mut DelayLine) -> State
    requires { IsMacOut inp.mac }
    ensures row { (result, line.new) ≡ hold inp line.old }
    ensures range { IsTrue (in_range result) }
{
    match inp.mac {
        _ if !inp.active => lose(line),
        _ if inp.own => begin(inp.mac, line),
        _ if inp.crs && matches!(inp.class, Class::Run | Class::Other) => lose(line),
        MacOut::Nibble(nibble) => match line.push(nibble) {
            Ok(()) => State::Hold,
            Err(_) => lose(line),
        },
        MacOut::Ended => {
            line.clear();
            State::Idle
        }
        MacOut::Nothing => State::Hold,
    }
}

/// The rows of `Collide`.
fn collide(inp: DataIn) -> State
    ensures row { (line : List ℕ) → (result, line) ≡ collide inp line }
    ensures range { IsTrue (in_range result) }
{
    match (inp.mac, inp.active) {
        (MacOut::Ended, false) => State::Silent,
        (MacOut::Ended, true) => State::DelayPending(PENDING_TICKS),
        (MacOut::Nothing | MacOut::Nibble(_), _) => State::Collide,
    }
}

/// The rows of `DelayPending`.
fn delay_pending(ticks: u16, inp: DataIn) -> State
    requires { IsTrue (in_range (State.DelayPending ticks)) }
    ensures row { (line : List ℕ) → (result, line) ≡ delay_pending ticks inp line }
    ensures range { IsTrue (in_range result) }
{
    match (inp.mac, inp.active, ticks) {
        (MacOut::Nibble(_), _, _) => State::Collide,
        (_, false, _) => State::Silent,
        (_, true, 1) => State::Pending,
        (_, true, _) => State::DelayPending(ticks - 1),
    }
}

/// The rows of `Pending`.
fn pending(inp: DataIn) -> State
    ensures row { (line : List ℕ) → (result, line) ≡ pending inp line }
    ensures range { IsTrue (in_range result) }
{
    match (inp.mac, inp.active, inp.own) {
        (MacOut::Nibble(_), _, _) => State::Collide,
        (_, false, _) => State::Silent,
        (_, true, true) => State::WaitMac,
        (_, true, false) => State::Pending,
    }
}

/// The rows of `WaitMac`.
fn wait_mac(inp: DataIn, line: &mut DelayLine) -> State
    requires { IsMacOut inp.mac }
    ensures row { (result, line.new) ≡ wait_mac inp line.old }
    ensures range { IsTrue (in_range result) }
{
    match inp.mac {
        _ if !inp.own => idle(inp, line),
        MacOut::Nibble(_) => begin(inp.mac, line),
        MacOut::Nothing | MacOut::Ended => State::WaitMac,
    }
}

/// The rows of `Transmit`.
fn transmit(ended: bool, bad: bool, inp: DataIn, line: &mut DelayLine) -> State
    requires { IsMacOut inp.mac }
    ensures row { (result, line.new) ≡ transmit ended bad inp line.old }
    ensures range { IsTrue (in_range result) }
{
    if !inp.own || inp.closed {
        line.clear();
    }
    if !inp.own {
        return idle(inp, line);
    }
    if inp.closed {
        return State::WaitMac;
    }
    let refused = push(inp.mac, line);
    State::Transmit {
        ended: ended || inp.mac == MacOut::Ended,
        bad: bad || inp.hit || refused,
    }
}

/// Whether a tick of this input leaves the line as it is, and the state too, but for the ticks of `DelayPending` and
/// their end.
fn keeps(state: State, inp: DataIn) -> bool
    ensures { result ≡ keeps state inp }
{
    let nibble = matches!(inp.mac, MacOut::Nibble(_));
    let ended_now = matches!(inp.mac, MacOut::Ended);
    let taken = inp.crs && matches!(inp.class, Class::Run | Class::Other);
    match state {
        State::Silent => !inp.active && !nibble,
        State::Idle | State::DelayPending(_) => inp.active && !nibble,
        State::Hold => inp.active && !inp.own && !taken && !nibble && !ended_now,
        State::Collide => !ended_now,
        State::Pending => inp.active && !inp.own && !nibble,
        State::WaitMac => inp.own && !nibble,
        State::Transmit { ended, bad } => {
            let flags = (ended || !ended_now) && (bad || !inp.hit);
            inp.own && !inp.closed && !nibble && flags
        }
    }
}

/// For how many ticks of this input a state is calm, up to `most`.
fn calm_ticks(state: State, inp: DataIn, most: u64) -> u64
    requires { IsTrue (in_range state) }
    ensures { result ≡ calm_ticks state inp most }
{
    if !keeps(state, inp) {
        return 0;
    }
    match state {
        State::DelayPending(ticks) => u64::from(ticks - 1).min(most),
        _ => most,
    }
}

/// The state that so many calm ticks of this input leave.
fn passed(state: State, inp: DataIn, n: u64) -> State
    requires range { IsTrue (in_range state) }
    requires calm { n ≤ calm_ticks state inp n }
    ensures state { result ≡ passed state n }
    ensures range { IsTrue (in_range result) }
{
    match state {
        State::DelayPending(ticks) => State::DelayPending(ticks - n as u16),
        _ => state,
    }
}

impl DataPath {
    /// The data path at the start of its node: silent.
    pub fn start() -> DataPath
        ensures start { result ≡ data_path_start }
        ensures range { IsTrue (in_range result) }
    {
        DataPath {
            state: State::Silent,
        }
    }

    /// The carrier that the MAC is shown, by the carrier that is sensed: the MAC defers to it.
    pub fn carrier(&self, crs: bool) -> bool
        ensures carrier { result ≡ carrier self.now crs }
    {
        match self.state {
            State::Idle => crs,
            State::Hold | State::WaitMac => false,
            _ => true,
        }
    }

    /// The MAC is told of a collision: it jams and backs off.
    pub fn collision(&self) -> bool
        ensures collision { result ≡ collision self.now }
    {
        match self.state {
            State::Collide => true,
            State::Transmit { ended: _, bad } => bad,
            _ => false,
        }
    }

    /// A frame waits for its opportunity.
    pub fn ready(&self) -> bool
        ensures ready { result ≡ ready self.now }
    {
        matches!(self.state, State::Hold | State::Pending)
    }

    /// The frame goes through the line.
    pub fn begun(&self) -> bool
        ensures begun { result ≡ begun self.now }
    {
        matches!(self.state, State::Transmit { ended: _, bad: _ })
    }

    /// The MAC has ended the frame that goes through the line.
    pub fn ended(&self) -> bool
        ensures ended { result ≡ ended self.now }
    {
        match self.state {
            State::Transmit { ended, bad: _ } => ended,
            _ => false,
        }
    }

    /// The piece that carries this frame is bad.
    pub fn bad(&self) -> bool
        ensures bad { result ≡ bad self.now }
    {
        match self.state {
            State::Transmit { ended: _, bad } => bad,
            _ => false,
        }
    }

    /// One tick of the table of the data path, which pushes the MAC's nibble to the line or clears the line. It asks
    /// that this nibble is below 16. A line that holds 97 nibbles refuses a push and stays as it is: a frame that
    /// waits then meets a collision, one that goes through the line becomes a bad piece, and each other row goes on.
    pub fn step(self, inp: DataIn, line: &mut DelayLine) -> DataPath
        requires { IsMacOut inp.mac }
        ensures row { (result, line.new) ≡ data_path_step self inp line.old }
        ensures range { IsTrue (in_range result) }
    {
        let state = match self.state {
            State::Silent | State::Idle => idle(inp, line),
            State::Hold => hold(inp, line),
            State::Collide => collide(inp),
            State::DelayPending(ticks) => delay_pending(ticks, inp),
            State::Pending => pending(inp),
            State::WaitMac => wait_mac(inp, line),
            State::Transmit { ended, bad } => transmit(ended, bad, inp, line),
        };
        DataPath { state }
    }

    /// For how many ticks of this input, one after the other, the data path does nothing but count: the greatest
    /// number up to `most`. A calm tick neither pushes to the line nor clears it, and changes nothing but the ticks of
    /// `DelayPending`.
    ///
    /// `DelayPending` is calm until its last tick, and each other state without end, where the input leaves it as it
    /// is: in `Hold` and `Transmit` with no nibble from the MAC, and in `Transmit` with both flags as they are.
    pub fn calm_for(&self, inp: DataIn, most: u64) -> u64
        ensures { (line : List ℕ) → IsCalmFor (path_after inp) (IsCalmData inp) (self.now, line) most result }
    {
        calm_ticks(self.state, inp, most)
    }

    /// So many ticks of this input at once. It asks that all of them are calm, as `calm_for` tells, and leaves what
    /// as many steps leave, over any line, which these leave as it is.
    pub fn pass(self, inp: DataIn, n: u64) -> DataPath
        requires { (line : List ℕ) → AreCalm (path_after inp) (IsCalmData inp) (self, line) n }
        ensures steps { (line : List ℕ) → (result, line) ≡ iterate (path_after inp) n (self, line) }
        ensures range { IsTrue (in_range result) }
    {
        let state = passed(self.state, inp, n);
        DataPath { state }
    }
}
