//! PLCA control and PLCA status of one node (IEEE Std 802.3, clause 148).
//!
//! Once a tick `Control::step` takes what the node hears and what its data path and transmitter say, and
//! gives the transmitter's command. The layer above uses that `Control::step` is `control_step` and
//! `Status::step` is `status_step`: the tables stand in `specs/ControlTable.antt` and
//! `specs/StatusTable.antt`, the ranges of their counts in `specs/Ranges.antt`.
#![tactic(auto)]

ghost use Rattle.std.specs.Prelude.{◌≡◌, ℕ, ◌+◌, ◌≤◌, ◌-◌, ◌*◌, true, IsTrue};
ghost use Rattle.std.specs.Fn.{iterate};
ghost use Rattle.t1s_base.specs.NodeIds.{IsIds};
ghost use Rattle.t1s_symbols.specs.CalmSteps.{AreCalm, IsCalmFor};
ghost use Rattle.plca_control.specs.CalmControl.{calm_ticks, passed, control_after, IsCalmControl, status_calm_ticks, status_passed, status_after, IsCalmStatus};
ghost use Rattle.plca_control.specs.ControlTable.{mine, reach, control_row, control_start, control_step, is_active, is_own};
ghost use Rattle.plca_control.specs.Ranges.{IsControlSet, in_range, set_in_range, status_in_range};
ghost use Rattle.plca_control.specs.StatusTable.{status_is_ok, status_start, status_step};

use std::marker::Model;
use t1s_base::Ids;
use t1s_pcs_tx::{TxCmd, TxReport};
use t1s_symbols::Class;

pub mod laws;
#[cfg(test)]
mod tests;

/// What a node's control is set to.
#[derive(Clone, Copy)]
pub struct ControlSet {
    /// The node's IDs. A node that has ID 0 gives the beacons; one whose first ID is 255 takes no part.
    pub ids: Ids,
    /// The number of transmit opportunities in a cycle, 1 to 254.
    pub count: u8,
    /// The length of a transmit opportunity that nobody takes, 16 to 255 ticks.
    pub to: u8,
    /// How many further frames may follow the first one of an opportunity.
    pub burst: u8,
}

/// What control is told in a tick: all of it as the tick before left it.
#[derive(Clone, Copy, PartialEq, Eq, Debug)]
pub struct ControlIn {
    /// Carrier is sensed.
    pub crs: bool,
    /// What the receiver takes the last burst for.
    pub class: Class,
    /// The data path holds a frame that waits for its opportunity.
    pub ready: bool,
    /// The data path has begun to send.
    pub begun: bool,
    /// What the transmitter has done.
    pub tx: TxReport,
}

/// What control gives out in a tick.
#[derive(Clone, Copy, PartialEq, Eq, Debug)]
pub struct ControlOut {
    /// What the transmitter is told.
    pub cmd: TxCmd,
    /// The node takes part in the cycle of opportunities.
    pub active: bool,
    /// The node holds an opportunity of its own.
    pub own: bool,
}

/// How long a beacon lasts, in ticks.
const BEACON_TICKS: u8 = 20;

/// How long a commit waits for its frame, in ticks.
const COMMIT_TICKS: u16 = 288;

/// How long a burst waits for its next frame, in ticks.
const BURST_TICKS: u8 = 128;

/// How many opportunities of silence a recovery takes.
const RECOVER_OPPORTUNITIES: u32 = 258;

/// From this ID on there is no opportunity.
const NO_OPPORTUNITY: u16 = 255;

/// A node with this first ID takes no part.
const NO_PART: u8 = 255;

/// How long the status stays OK once control has stopped taking part, in ticks.
const HYSTERESIS_TICKS: u32 = 130090;

/// A state of the table of control, with its counts.
#[derive(Clone, Copy)]
enum State {
    /// Takes no part.
    Disabled,
    /// A node that gives the beacons has heard silence for so many ticks.
    Recover(u32),
    /// Waits for carrier.
    Resync,
    /// Hears what may be a beacon.
    Early,
    /// Gives a beacon, for so many ticks with this one.
    Beacon(u8),
    /// Waits for its beacon to end on the line.
    Syncing,
    /// In the opportunity of this ID, for so many ticks with this one.
    WaitTo(u8, u8),
    /// In the opportunity of this ID, which a node has taken.
    Receive(u8),
    /// Has taken its own opportunity of this ID: ticks left for the frame to begin, and further frames.
    Commit(u8, u16, u8),
    /// Its frame goes out in the opportunity of this ID: further frames.
    Transmit(u8, u8),
    /// A further frame may follow in the opportunity of this ID: ticks left for it to begin, and further frames after it.
    Burst(u8, u8, u8),
    /// Waits for the end of its own carrier in the opportunity of this ID.
    Drain(u8),
}

/// PLCA control of one node.
#[derive(Clone, Copy)]
pub struct Control {
    set: ControlSet,
    state: State,
}

impl Model for Control {
    ghost use Rattle.plca_control.specs.State.{ControlState};

    ghost Value = { ControlState };

    ghost use Rattle.plca_control.specs.Ranges.{in_range};
    ghost use Rattle.std.specs.Prelude.{IsTrue};

    ghost view = { λ c. record { set = c.set; state = c.state } };

    ghost invariant = { λ c. IsTrue (in_range c.set c.state) };

    ghost inverse = { λ c. record { set = c.set; state = c.state } };
}

/// Whether an ID is one of the node's own.
fn is_mine(set: &ControlSet, c: u16) -> bool
    requires { IsIds set.now.ids }
    ensures answer { result ≡ mine set.now c }
    ensures octet { result ≡ true → c ≤ 255 }
{
    match u8::try_from(c) {
        Ok(id) => set.ids.has(id),
        Err(_) => false,
    }
}

/// The instant at which the opportunity of ID `c` begins.
fn reach(set: &ControlSet, ready: bool, c: u16) -> (State, TxCmd)
    requires { IsTrue (set_in_range set.now) }
    ensures row { result ≡ reach set.now ready c }
    ensures ranges { IsTrue (in_range set.now result.0) }
{
    let gives_beacons = set.ids.has(0);
    if gives_beacons && c >= u16::from(set.count) {
        (State::Beacon(BEACON_TICKS), TxCmd::Beacon)
    } else if is_mine(set, c) && ready {
        let own = State::Commit(c as u8, COMMIT_TICKS, set.burst);
        (own, TxCmd::Commit)
    } else if !gives_beacons && c >= NO_OPPORTUNITY {
        (State::Resync, TxCmd::None)
    } else {
        (State::WaitTo(c as u8, set.to), TxCmd::None)
    }
}

/// The row of `Recover(q)`.
fn recover(set: &ControlSet, q: u32, inp: ControlIn) -> (State, TxCmd)
    requires { IsTrue (in_range set.now (State.Recover q)) }
    ensures row { result ≡ control_row set.now (State.Recover q) inp }
    ensures ranges { IsTrue (in_range set.now result.0) }
{
    if inp.crs {
        (State::Recover(0), TxCmd::None)
    } else if q == RECOVER_OPPORTUNITIES * u32::from(set.to) {
        (State::Beacon(BEACON_TICKS), TxCmd::Beacon)
    } else {
        (State::Recover(q + 1), TxCmd::None)
    }
}

/// The row of `Early`.
fn early(set: &ControlSet, inp: ControlIn) -> (State, TxCmd)
    requires { IsTrue (set_in_range set.now) }
    ensures row { result ≡ control_row set.now State.Early inp }
    ensures ranges { IsTrue (in_range set.now result.0) }
{
    match (inp.crs, inp.class) {
        (true, _) => (State::Early, TxCmd::None),
        (false, Class::Beacon) => reach(set, inp.ready, 0),
        (false, _) => (State::Resync, TxCmd::None),
    }
}

/// The row of `WaitTo(c, n)`.
fn wait_to(set: &ControlSet, c: u8, n: u8, inp: ControlIn) -> (State, TxCmd)
    requires { IsTrue (in_range set.now (State.WaitTo c n)) }
    ensures row { result ≡ control_row set.now (State.WaitTo c n) inp }
    ensures ranges { IsTrue (in_range set.now result.0) }
{
    match (inp.crs, n) {
        (true, _) => (State::Receive(c), TxCmd::None),
        (false, 1) => reach(set, inp.ready, u16::from(c) + 1),
        (false, _) => (State::WaitTo(c, n - 1), TxCmd::None),
    }
}

/// The row of `Receive(c)`.
fn receive(set: &ControlSet, c: u8, inp: ControlIn) -> (State, TxCmd)
    requires { IsTrue (in_range set.now (State.Receive c)) }
    ensures row { result ≡ control_row set.now (State.Receive c) inp }
    ensures ranges { IsTrue (in_range set.now result.0) }
{
    match (inp.crs, inp.class) {
        (true, _) => (State::Receive(c), TxCmd::None),
        (false, Class::Beacon) if set.ids.has(0) => (State::Recover(0), TxCmd::None),
        (false, Class::Beacon) => reach(set, inp.ready, 0),
        (false, _) => reach(set, inp.ready, u16::from(c) + 1),
    }
}

/// The row of `Commit(c, n, b)`.
fn commit(set: &ControlSet, c: u8, n: u16, b: u8, inp: ControlIn) -> (State, TxCmd)
    requires { IsTrue (in_range set.now (State.Commit c n b)) }
    ensures row { result ≡ control_row set.now (State.Commit c n b) inp }
    ensures ranges { IsTrue (in_range set.now result.0) }
{
    match (inp.begun, n) {
        (true, _) => (State::Transmit(c, b), TxCmd::Commit),
        (false, 1) => (State::Drain(c), TxCmd::None),
        (false, _) => (State::Commit(c, n - 1, b), TxCmd::Commit),
    }
}

/// The row of `Transmit(c, b)`.
fn transmit(set: &ControlSet, c: u8, b: u8, inp: ControlIn) -> (State, TxCmd)
    requires { IsTrue (in_range set.now (State.Transmit c b)) }
    ensures row { result ≡ control_row set.now (State.Transmit c b) inp }
    ensures ranges { IsTrue (in_range set.now result.0) }
{
    match inp.tx {
        TxReport::Closed { good } if good && b > 0 => {
            (State::Burst(c, BURST_TICKS, b - 1), TxCmd::Commit)
        }
        TxReport::Closed { good: _ } => (State::Drain(c), TxCmd::None),
        _ => (State::Transmit(c, b), TxCmd::Commit),
    }
}

/// The row of `Burst(c, n, b)`.
fn burst(set: &ControlSet, c: u8, n: u8, b: u8, inp: ControlIn) -> (State, TxCmd)
    requires { IsTrue (in_range set.now (State.Burst c n b)) }
    ensures row { result ≡ control_row set.now (State.Burst c n b) inp }
    ensures ranges { IsTrue (in_range set.now result.0) }
{
    match (inp.begun, n) {
        (true, _) => (State::Transmit(c, b), TxCmd::Commit),
        (false, 1) => (State::Drain(c), TxCmd::None),
        (false, _) => (State::Burst(c, n - 1, b), TxCmd::Commit),
    }
}

/// One row of the table: the new state and the command.
fn row(set: &ControlSet, state: State, inp: ControlIn) -> (State, TxCmd)
    requires { IsTrue (in_range set.now state) }
    ensures row { result ≡ control_row set.now state inp }
    ensures ranges { IsTrue (in_range set.now result.0) }
{
    match state {
        State::Disabled => (State::Disabled, TxCmd::None),
        State::Recover(q) => recover(set, q, inp),
        State::Resync if inp.crs => (State::Early, TxCmd::None),
        State::Resync => (State::Resync, TxCmd::None),
        State::Early => early(set, inp),
        State::Beacon(1) => (State::Syncing, TxCmd::None),
        State::Beacon(n) => (State::Beacon(n - 1), TxCmd::Beacon),
        State::Syncing if inp.crs => (State::Syncing, TxCmd::None),
        State::Syncing => reach(set, inp.ready, 0),
        State::WaitTo(c, n) => wait_to(set, c, n, inp),
        State::Receive(c) => receive(set, c, inp),
        State::Commit(c, n, b) => commit(set, c, n, b, inp),
        State::Transmit(c, b) => transmit(set, c, b, inp),
        State::Burst(c, n, b) => burst(set, c, n, b, inp),
        State::Drain(c) if inp.crs => (State::Drain(c), TxCmd::None),
        State::Drain(c) => reach(set, inp.ready, u16::from(c) + 1),
    }
}

/// For how many ticks of this input a state is calm, up to `most`.
fn calm_ticks(set: &ControlSet, state: State, inp: ControlIn, most: u64) -> u64
    requires { IsTrue (in_range set.now state) }
    ensures { result ≡ calm_ticks set.now state inp most }
{
    let ticks = match state {
        State::Disabled => most,
        State::Recover(_) if inp.crs => most,
        State::Recover(q) => u64::from(RECOVER_OPPORTUNITIES * u32::from(set.to) - q),
        State::Early | State::Syncing | State::Receive(_) | State::Drain(_) if inp.crs => most,
        State::Resync if !inp.crs => most,
        State::WaitTo(_, n) if !inp.crs => u64::from(n - 1),
        _ => 0,
    };
    ticks.min(most)
}

/// The state that so many calm ticks of this input leave.
fn passed(set: &ControlSet, state: State, inp: ControlIn, n: u64) -> State
    requires range { IsTrue (in_range set.now state) }
    requires calm { n ≤ calm_ticks set.now state inp n }
    ensures state { result ≡ passed state inp n }
    ensures ranges { IsTrue (in_range set.now result) }
{
    match state {
        State::Recover(_) if inp.crs && n > 0 => State::Recover(0),
        State::Recover(q) if !inp.crs => State::Recover(q + n as u32),
        State::WaitTo(c, left) => State::WaitTo(c, left - n as u8),
        _ => state,
    }
}

impl Control {
    /// Control at the start of its node: disabled where the first ID is 255, else recovering where ID 0 is one of its own,
    /// else without a cycle to follow.
    pub fn start(set: ControlSet) -> Control
        requires { IsControlSet set }
        ensures start { result ≡ control_start set }
        ensures ranges { IsTrue (in_range result.set result.state) }
    {
        let state = match set.ids.get(0) {
            Some(NO_PART) => State::Disabled,
            _ if set.ids.has(0) => State::Recover(0),
            _ => State::Resync,
        };
        Control { set, state }
    }

    /// One tick of the table of control: the control that it leaves, and what it gives out.
    pub fn step(self, inp: ControlIn) -> (Control, ControlOut)
        ensures row { result ≡ control_step self inp }
        ensures ranges { IsTrue (in_range result.0.set result.0.state) }
    {
        let (state, cmd) = row(&self.set, self.state, inp);
        let active = match state {
            State::Disabled | State::Recover(_) | State::Resync | State::Early => false,
            _ => true,
        };
        let own = match state {
            State::Commit(_, _, _) | State::Transmit(_, _) | State::Burst(_, _, _) => true,
            _ => false,
        };
        (
            Control {
                set: self.set,
                state,
            },
            ControlOut { cmd, active, own },
        )
    }

    /// For how many ticks of this input, one after the other, control does nothing but count: the greatest number
    /// up to `most`. In such a calm tick the command is None, and nothing is changed but the ticks of Recover and of
    /// WaitTo.
    ///
    /// Under carrier Disabled, Recover, Early, Syncing, Receive and Drain are calm without end; in silence Disabled
    /// and Resync are, Recover is until its last tick, and WaitTo until its last tick. No other state is calm.
    pub fn calm_for(&self, inp: ControlIn, most: u64) -> u64
        ensures { IsCalmFor (control_after inp) (IsCalmControl inp) self.now most result }
    {
        calm_ticks(&self.set, self.state, inp, most)
    }

    /// So many ticks of this input at once. It asks that all of them are calm, as `calm_for` tells, and leaves what
    /// as many steps leave.
    pub fn pass(self, inp: ControlIn, n: u64) -> Control
        requires { AreCalm (control_after inp) (IsCalmControl inp) self n }
        ensures steps { result ≡ iterate (control_after inp) n self }
        ensures ranges { IsTrue (in_range result.set result.state) }
    {
        let state = passed(&self.set, self.state, inp, n);
        Control {
            set: self.set,
            state,
        }
    }
}

/// A state of the table of status.
#[derive(Clone, Copy)]
enum StatusState {
    /// Control takes no part.
    Inactive,
    /// Control takes part.
    Active,
    /// Control has stopped taking part: ticks left until the status ends.
    Hysteresis(u32),
}

/// For how many ticks of this `active` a state is calm, up to `most`.
fn status_calm_ticks(state: StatusState, active: bool, most: u64) -> u64
    requires { IsTrue (status_in_range state) }
    ensures { result ≡ status_calm_ticks state active most }
{
    let ticks = match (state, active) {
        (StatusState::Inactive, false) | (StatusState::Active, true) => most,
        (StatusState::Hysteresis(n), false) => u64::from(n - 1),
        _ => 0,
    };
    ticks.min(most)
}

/// The state that so many calm ticks of this `active` leave.
fn status_passed(state: StatusState, active: bool, n: u64) -> StatusState
    requires range { IsTrue (status_in_range state) }
    requires calm { n ≤ status_calm_ticks state active n }
    ensures state { result ≡ status_passed state n }
    ensures ranges { IsTrue (status_in_range result) }
{
    match state {
        StatusState::Hysteresis(left) if !active => StatusState::Hysteresis(left - n as u32),
        _ => state,
    }
}

/// PLCA status of one node: whether control takes part in a cycle, with a hysteresis of 130090 ticks.
#[derive(Clone, Copy)]
pub struct Status {
    state: StatusState,
}

impl Model for Status {
    ghost use Rattle.plca_control.specs.declared.StatusState.{StatusState};

    ghost Value = { StatusState };

    ghost use Rattle.plca_control.specs.Ranges.{status_in_range};
    ghost use Rattle.std.specs.Prelude.{IsTrue};

    ghost view = { λ s. s.state };

    ghost invariant = { λ s. IsTrue (status_in_range s.state) };

    ghost inverse = { λ s. record { state = s } };
}

impl Status {
    /// The status at the start of its node: not OK.
    pub fn start() -> Status
        ensures { result ≡ status_start }
    {
        Status {
            state: StatusState::Inactive,
        }
    }

    /// The status is OK.
    pub fn is_ok(&self) -> bool
        ensures { result ≡ status_is_ok self.now }
    {
        match self.state {
            StatusState::Inactive => false,
            StatusState::Active | StatusState::Hysteresis(_) => true,
        }
    }

    /// One tick of the table of status, with the `active` of control in this tick.
    pub fn step(self, active: bool) -> Status
        ensures row { result ≡ status_step self active }
        ensures ranges { IsTrue (status_in_range result) }
    {
        let state = match (self.state, active) {
            (_, true) => StatusState::Active,
            (StatusState::Inactive, false) => StatusState::Inactive,
            (StatusState::Active, false) => StatusState::Hysteresis(HYSTERESIS_TICKS),
            (StatusState::Hysteresis(1), false) => StatusState::Inactive,
            (StatusState::Hysteresis(n), false) => StatusState::Hysteresis(n - 1),
        };
        Status { state }
    }

    /// For how many ticks of this `active`, one after the other, the status does nothing but count: the greatest
    /// number up to `most`. In such a calm tick nothing is changed but the ticks of Hysteresis.
    ///
    /// Where control takes part Active is calm without end; where it takes none Inactive is, and Hysteresis until its
    /// last tick. No other state is calm.
    pub fn calm_for(&self, active: bool, most: u64) -> u64
        ensures { IsCalmFor (status_after active) (IsCalmStatus active) self.now most result }
    {
        status_calm_ticks(self.state, active, most)
    }

    /// So many ticks of this `active` at once. It asks that all of them are calm, as `calm_for` tells, and leaves
    /// what as many steps leave.
    pub fn pass(self, active: bool, n: u64) -> Status
        requires { AreCalm (status_after active) (IsCalmStatus active) self n }
        ensures steps { result ≡ iterate (status_after active) n self }
        ensures ranges { IsTrue (status_in_range result) }
    {
        let state = status_passed(self.state, active, n);
        Status { state }
    }
}
