//! Runs of the two tables, stretch by stretch.

ghost use Rattle.std.specs.Prelude.{◌≡◌};

use super::{Control, ControlIn, ControlOut, ControlSet, State, Status};
use std::process::Abort;
use t1s_base::Ids;
use t1s_pcs_tx::{TxCmd, TxReport};
use t1s_symbols::Class;

const SILENCE: ControlIn = ControlIn {
    crs: false,
    class: Class::None,
    ready: false,
    begun: false,
    tx: TxReport::Quiet,
};

const CARRIER: ControlIn = ControlIn {
    crs: true,
    ..SILENCE
};

const BEACON_HEARD: ControlIn = ControlIn {
    class: Class::Beacon,
    ..SILENCE
};

const READY: ControlIn = ControlIn {
    ready: true,
    ..SILENCE
};

const BEGUN: ControlIn = ControlIn {
    begun: true,
    ..SILENCE
};

const CLOSED: ControlIn = ControlIn {
    tx: TxReport::Closed { good: true },
    ..SILENCE
};

const BAD: ControlIn = ControlIn {
    tx: TxReport::Closed { good: false },
    ..SILENCE
};

const OUTSIDE: ControlOut = ControlOut {
    cmd: TxCmd::None,
    active: false,
    own: false,
};

const WAITING: ControlOut = ControlOut {
    cmd: TxCmd::None,
    active: true,
    own: false,
};

const BEACON: ControlOut = ControlOut {
    cmd: TxCmd::Beacon,
    active: true,
    own: false,
};

const OWNER: ControlOut = ControlOut {
    cmd: TxCmd::Commit,
    active: true,
    own: true,
};

/// The same input for so many ticks, and what each of them must give out.
type Stretch = (ControlIn, u32, ControlOut);

/// A cycle of 3 opportunities of 16 ticks, with bursts of 2 further frames.
fn set_of(ids: Ids) -> ControlSet
    ensures count { result.count ≡ 3 }
    ensures to { result.to ≡ 16 }
{
    ControlSet {
        ids,
        count: 3,
        to: 16,
        burst: 2,
    }
}

fn check(rt: &impl Abort, ids: Ids, stretches: &[Stretch]) {
    let mut control = Control::start(set_of(ids));
    for (inp, ticks, want) in stretches {
        for _ in 0..*ticks {
            let (next, out) = control.step(*inp);
            assert!(rt; out == *want);
            control = next;
        }
    }
}

#[test]
fn a_disabled_node_takes_no_part(rt: HostRuntime) {
    check(
        &rt,
        Ids::one(255),
        &[
            (SILENCE, 9, OUTSIDE),
            (BEACON_HEARD, 1, OUTSIDE),
            (READY, 9, OUTSIDE),
        ],
    );
}

#[test]
fn a_coordinator_gives_beacons(rt: HostRuntime) {
    check(
        &rt,
        Ids::one(0),
        &[
            (SILENCE, 9, OUTSIDE),
            (CARRIER, 1, OUTSIDE),
            (SILENCE, 4128, OUTSIDE),
            (SILENCE, 20, BEACON),
            (CARRIER, 24, WAITING),
            (SILENCE, 48, WAITING),
            (SILENCE, 20, BEACON),
            (SILENCE, 1, WAITING),
            (READY, 288, OWNER),
            (SILENCE, 1, WAITING),
            (SILENCE, 32, WAITING),
            (SILENCE, 1, BEACON),
        ],
    );
}

#[test]
fn a_follower_keeps_its_turn(rt: HostRuntime) {
    check(
        &rt,
        Ids::one(1),
        &[
            (SILENCE, 9, OUTSIDE),
            (BEACON_HEARD, 9, OUTSIDE),
            (CARRIER, 24, OUTSIDE),
            (SILENCE, 1, OUTSIDE),
            (CARRIER, 24, OUTSIDE),
            (BEACON_HEARD, 16, WAITING),
            (READY, 1, OWNER),
            (BEGUN, 99, OWNER),
            (CLOSED, 1, OWNER),
            (SILENCE, 127, OWNER),
            (BEGUN, 1, OWNER),
            (CLOSED, 1, OWNER),
            (BEGUN, 1, OWNER),
            (CLOSED, 1, WAITING),
            (CARRIER, 4, WAITING),
            (READY, 9, WAITING),
            (CARRIER, 24, WAITING),
            (BEACON_HEARD, 16, WAITING),
            (READY, 288, OWNER),
            (READY, 1, WAITING),
        ],
    );
}

/// Two IDs.
fn two(rt: &impl Abort, first: u8, further: u8) -> Ids {
    let mut ids = Ids::one(first);
    assert!(rt; ids.add(further).is_ok());
    ids
}

#[test]
fn a_node_takes_the_opportunity_of_each_id(rt: HostRuntime) {
    check(
        &rt,
        two(&rt, 2, 0),
        &[
            (SILENCE, 4128, OUTSIDE),
            (SILENCE, 20, BEACON),
            (SILENCE, 1, WAITING),
            (READY, 1, OWNER),
            (BEGUN, 9, OWNER),
            (BAD, 1, WAITING),
            (CARRIER, 4, WAITING),
            (READY, 16, WAITING),
            (READY, 1, OWNER),
            (BEGUN, 9, OWNER),
            (BAD, 1, WAITING),
            (CARRIER, 4, WAITING),
            (READY, 20, BEACON),
        ],
    );
    check(
        &rt,
        two(&rt, 255, 0),
        &[(SILENCE, 4129, OUTSIDE), (BEACON_HEARD, 9, OUTSIDE)],
    );
}

#[test]
fn a_commit_without_a_frame_ends(rt: HostRuntime) {
    let last = Control {
        set: set_of(Ids::one(1)),
        state: State::Commit(1, 1, 0),
    };
    let (control, out) = last.step(SILENCE);
    assert!(rt; matches!(control.state, State::Drain(1)));
    assert!(rt; out == WAITING);
    let (control, out) = last.step(BEGUN);
    assert!(rt; matches!(control.state, State::Transmit(1, 0)));
    assert!(rt; out == OWNER);
}

#[test]
fn the_status_outlasts_a_short_absence(rt: HostRuntime) {
    let mut status = Status::start();
    assert!(rt; !status.is_ok());
    status = status.step(true);
    for _ in 0..130090 {
        status = status.step(false);
        assert!(rt; status.is_ok());
    }
    assert!(rt; status.step(true).is_ok());
    assert!(rt; !status.step(false).is_ok());
}

/// More ticks than are asked for anywhere else.
const MOST: u64 = 5000;

/// For how many ticks of an input control is calm, up to `MOST`, and what it gives out in the tick after these.
type Calm = (ControlIn, u64, ControlOut);

/// Passes calm ticks, and then steps once with the same input.
fn check_calm(rt: &impl Abort, ids: Ids, stretches: &[Calm]) {
    let mut control = Control::start(set_of(ids));
    for (inp, ticks, want) in stretches {
        let calm = control.calm_for(*inp, MOST);
        assert!(rt; calm == *ticks);
        let (next, out) = control.pass(*inp, calm).step(*inp);
        assert!(rt; out == *want);
        control = next;
    }
}

#[test]
fn control_acts_after_its_calm_ticks(rt: HostRuntime) {
    check_calm(&rt, Ids::one(255), &[(CARRIER, MOST, OUTSIDE)]);
    check_calm(
        &rt,
        Ids::one(0),
        &[(SILENCE, 4128, BEACON), (SILENCE, 0, BEACON)],
    );
    check_calm(
        &rt,
        Ids::one(0),
        &[(CARRIER, MOST, OUTSIDE), (SILENCE, 4128, BEACON)],
    );
    check_calm(
        &rt,
        Ids::one(1),
        &[
            (SILENCE, MOST, OUTSIDE),
            (CARRIER, 0, OUTSIDE),
            (CARRIER, MOST, OUTSIDE),
            (BEACON_HEARD, 0, WAITING),
            (CARRIER, 0, WAITING),
            (CARRIER, MOST, WAITING),
            (BEACON_HEARD, 0, WAITING),
            (READY, 15, OWNER),
            (SILENCE, 0, OWNER),
            (BEGUN, 0, OWNER),
            (CLOSED, 0, OWNER),
            (BEGUN, 0, OWNER),
            (CLOSED, 0, OWNER),
            (BEGUN, 0, OWNER),
            (CLOSED, 0, WAITING),
            (CARRIER, MOST, WAITING),
            (SILENCE, 0, WAITING),
            (SILENCE, 15, WAITING),
        ],
    );
}

#[test]
fn the_status_changes_after_its_calm_ticks(rt: HostRuntime) {
    let status = Status::start();
    assert!(rt; status.calm_for(false, 9) == 9);
    assert!(rt; status.calm_for(true, 9) == 0);
    let status = status.step(true);
    assert!(rt; status.calm_for(true, 9) == 9);
    assert!(rt; status.calm_for(false, 9) == 0);
    let status = status.step(false);
    let calm = status.calm_for(false, u64::MAX);
    assert!(rt; calm == 130089);
    let status = status.pass(false, calm);
    assert!(rt; status.is_ok());
    assert!(rt; status.calm_for(false, 9) == 0);
    assert!(rt; !status.step(false).is_ok());
}
