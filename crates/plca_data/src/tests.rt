//! The data path and its line, stretch by stretch, by the signals that it shows.

ghost use Rattle.plca_data.specs.Ranges.{IsMacOut};

use super::*;
use std::process::Abort;
use std::test::Fail;
use t1s_ring::DelayLine;

const OUTSIDE: DataIn = DataIn {
    active: false,
    own: false,
    closed: false,
    crs: false,
    class: Class::None,
    hit: false,
    mac: MacOut::Nothing,
};

const ACTIVE: DataIn = DataIn {
    active: true,
    ..OUTSIDE
};

const NIBBLE: DataIn = DataIn {
    mac: MacOut::Nibble(5),
    ..ACTIVE
};

const ENDED: DataIn = DataIn {
    mac: MacOut::Ended,
    ..ACTIVE
};

const ENDED_OUTSIDE: DataIn = DataIn {
    active: false,
    ..ENDED
};

const TAKEN: DataIn = DataIn {
    crs: true,
    class: Class::Run,
    ..ACTIVE
};

const OWN: DataIn = DataIn {
    own: true,
    ..ACTIVE
};

const OWN_NIBBLE: DataIn = DataIn {
    own: true,
    ..NIBBLE
};

const OWN_ENDED: DataIn = DataIn { own: true, ..ENDED };

const OWN_CLOSED: DataIn = DataIn {
    closed: true,
    ..OWN
};

const OWN_HIT: DataIn = DataIn { hit: true, ..OWN };

/// What a data path shows where the carrier that is sensed is off.
#[derive(Clone, Copy, Debug, PartialEq, Eq)]
struct Signals {
    carrier: bool,
    collision: bool,
    ready: bool,
    begun: bool,
    ended: bool,
    bad: bool,
}

/// In `Silent` and `DelayPending`.
const CLOSED_OFF: Signals = Signals {
    carrier: true,
    collision: false,
    ready: false,
    begun: false,
    ended: false,
    bad: false,
};

/// In `Idle` and `WaitMac`.
const FREE: Signals = Signals {
    carrier: false,
    ..CLOSED_OFF
};

const HOLD: Signals = Signals {
    ready: true,
    ..FREE
};

const COLLIDE: Signals = Signals {
    collision: true,
    ..CLOSED_OFF
};

const PENDING: Signals = Signals {
    ready: true,
    ..CLOSED_OFF
};

const BEGUN: Signals = Signals {
    begun: true,
    ..CLOSED_OFF
};

const BEGUN_ENDED: Signals = Signals {
    ended: true,
    ..BEGUN
};

const BEGUN_BAD: Signals = Signals {
    collision: true,
    bad: true,
    ..BEGUN
};

const BEGUN_BAD_ENDED: Signals = Signals {
    ended: true,
    ..BEGUN_BAD
};

/// The same input for so many ticks, what each of them must show, and how many nibbles the line holds then.
type Stretch = (DataIn, u16, Signals, u8);

fn shown(data: &DataPath) -> Signals {
    Signals {
        carrier: data.carrier(false),
        collision: data.collision(),
        ready: data.ready(),
        begun: data.begun(),
        ended: data.ended(),
        bad: data.bad(),
    }
}

/// The same input, and nothing from the MAC where it gives what is no nibble.
fn sound(inp: DataIn) -> DataIn
    ensures { IsMacOut result.mac }
{
    match inp.mac {
        MacOut::Nibble(nibble) if nibble >= 16 => DataIn {
            mac: MacOut::Nothing,
            ..inp
        },
        _ => inp,
    }
}

fn check(
    rt: &impl Abort,
    mut data: DataPath,
    line: &mut DelayLine,
    stretches: &[Stretch],
) -> DataPath {
    for (inp, ticks, want, held) in stretches {
        for _ in 0..*ticks {
            data = data.step(sound(*inp), line);
            assert!(rt; shown(&data) == *want);
        }
        assert!(rt; line.len() == *held);
    }
    data
}

#[test]
fn a_frame_waits_in_the_line_and_goes_through_it(rt: HostRuntime) -> Result<(), Fail> {
    let mut line = DelayLine::new(rt.alloc())?;
    let data = check(
        &rt,
        DataPath::start(),
        &mut line,
        &[
            (OUTSIDE, 2, CLOSED_OFF, 0),
            (ACTIVE, 3, FREE, 0),
            (NIBBLE, 3, HOLD, 3),
            (ACTIVE, 3, HOLD, 3),
            (OWN, 1, BEGUN, 3),
            (OWN_NIBBLE, 2, BEGUN, 5),
            (OWN_ENDED, 1, BEGUN_ENDED, 5),
            (OWN, 3, BEGUN_ENDED, 5),
        ],
    );
    let _last = check(
        &rt,
        data,
        &mut line,
        &[
            (OWN_CLOSED, 1, FREE, 0),
            (OWN, 3, FREE, 0),
            (OWN_NIBBLE, 1, BEGUN, 1),
            (OWN_HIT, 1, BEGUN_BAD, 1),
            (OWN_ENDED, 1, BEGUN_BAD_ENDED, 1),
            (ACTIVE, 1, FREE, 0),
            (NIBBLE, 1, HOLD, 1),
            (ENDED, 1, FREE, 0),
        ],
    );
    Ok(())
}

#[test]
fn a_frame_that_met_a_collision_is_awaited_anew(rt: HostRuntime) -> Result<(), Fail> {
    let mut line = DelayLine::new(rt.alloc())?;
    let data = check(
        &rt,
        DataPath::start(),
        &mut line,
        &[
            (ACTIVE, 1, FREE, 0),
            (NIBBLE, 3, HOLD, 3),
            (TAKEN, 1, COLLIDE, 0),
            (NIBBLE, 3, COLLIDE, 0),
            (ENDED, 1, CLOSED_OFF, 0),
            (ACTIVE, 511, CLOSED_OFF, 0),
            (ACTIVE, 9, PENDING, 0),
            (OWN, 1, FREE, 0),
            (OWN_NIBBLE, 1, BEGUN, 1),
        ],
    );
    let _last = check(
        &rt,
        data,
        &mut line,
        &[
            (OUTSIDE, 1, CLOSED_OFF, 0),
            (ACTIVE, 1, FREE, 0),
            (NIBBLE, 1, HOLD, 1),
            (OUTSIDE, 1, COLLIDE, 0),
            (ENDED, 1, CLOSED_OFF, 0),
            (NIBBLE, 1, COLLIDE, 0),
            (ENDED_OUTSIDE, 1, CLOSED_OFF, 0),
            (ACTIVE, 1, FREE, 0),
        ],
    );
    Ok(())
}

#[test]
fn a_full_line_collides_unless_the_opportunity_is_there(rt: HostRuntime) -> Result<(), Fail> {
    let mut line = DelayLine::new(rt.alloc())?;
    let stretches = [(ACTIVE, 1, FREE, 0), (NIBBLE, 97, HOLD, 97)];
    let full = check(&rt, DataPath::start(), &mut line, &stretches);
    assert_eq!(rt; line.pop(), Some(5));
    let begun = full.step(OWN_NIBBLE, &mut line);
    assert!(rt; shown(&begun) == BEGUN);
    assert_eq!(rt; line.len(), 97);
    let refused = begun.step(OWN_NIBBLE, &mut line);
    assert!(rt; shown(&refused) == BEGUN_BAD);
    assert_eq!(rt; line.len(), 97);

    line.clear();
    let full = check(&rt, DataPath::start(), &mut line, &stretches);
    let refused = full.step(NIBBLE, &mut line);
    assert!(rt; shown(&refused) == COLLIDE);
    assert_eq!(rt; line.len(), 0);
    Ok(())
}

/// More ticks than are asked for anywhere else.
const MOST: u64 = 900;

/// For how many ticks of an input the data path is calm, up to `MOST`, and what it shows after one tick more.
type Calm = (DataIn, u64, Signals);

/// Passes the calm ticks of an input, and then steps once with it.
fn step_after_calm(data: DataPath, inp: DataIn, line: &mut DelayLine) -> (u64, DataPath)
    requires { IsMacOut inp.mac }
{
    let calm = data.calm_for(inp, MOST);
    (calm, data.pass(inp, calm).step(inp, line))
}

fn check_calm(rt: &impl Abort, line: &mut DelayLine, stretches: &[Calm]) {
    let mut data = DataPath::start();
    for (inp, ticks, want) in stretches {
        let (calm, next) = step_after_calm(data, sound(*inp), line);
        assert!(rt; calm == *ticks);
        assert!(rt; shown(&next) == *want);
        data = next;
    }
}

#[test]
fn the_data_path_acts_after_its_calm_ticks(rt: HostRuntime) -> Result<(), Fail> {
    let mut line = DelayLine::new(rt.alloc())?;
    check_calm(
        &rt,
        &mut line,
        &[
            (OUTSIDE, MOST, CLOSED_OFF),
            (ACTIVE, 0, FREE),
            (ENDED, MOST, FREE),
            (NIBBLE, 0, HOLD),
            (ACTIVE, MOST, HOLD),
            (NIBBLE, 0, HOLD),
            (TAKEN, 0, COLLIDE),
            (NIBBLE, MOST, COLLIDE),
            (ENDED, 0, CLOSED_OFF),
            (ACTIVE, 511, PENDING),
            (ACTIVE, MOST, PENDING),
        ],
    );
    check_calm(
        &rt,
        &mut line,
        &[
            (ACTIVE, 0, FREE),
            (NIBBLE, 0, HOLD),
            (OWN, 0, BEGUN),
            (OWN, MOST, BEGUN),
            (OWN_NIBBLE, 0, BEGUN),
            (OWN_HIT, 0, BEGUN_BAD),
            (OWN_HIT, MOST, BEGUN_BAD),
            (OWN_ENDED, 0, BEGUN_BAD_ENDED),
            (OWN_ENDED, MOST, BEGUN_BAD_ENDED),
            (OWN_CLOSED, 0, FREE),
            (OWN, MOST, FREE),
        ],
    );
    Ok(())
}
