//! The laws of control: what holds in every run of its table from its start.

ghost use Rattle.plca_control.specs.Laws.{CommandTellsOwn, BeaconsLastTwenty, OwnBeginsReady, HoldsUntilBegun, TransmitsUntilClosed, PausesUntilBegun, StaysInRange};

/// Where `own` is true the command is Commit; where it is false the command is None or Beacon.
pub fn command_tells_own()
    ensures { CommandTellsOwn }
{}

/// Each command Beacon is one of exactly 20 in a row.
pub fn beacons_last_twenty()
    ensures { BeaconsLastTwenty }
{}

/// `own` begins only in a tick in which `ready` is true.
pub fn own_begins_ready()
    ensures { OwnBeginsReady }
{}

/// Once begun, `own` stays until `begun` is seen or 288 ticks have passed.
pub fn holds_until_begun()
    ensures { HoldsUntilBegun }
{}

/// Once `begun` is seen, control is in Transmit, and `own` stays, until the report is Closed.
pub fn transmits_until_closed()
    ensures { TransmitsUntilClosed }
{}

/// Where `own` stays after a Closed, it does so until `begun` is seen again or 128 ticks have passed.
pub fn pauses_until_begun()
    ensures { PausesUntilBegun }
{}

/// Control keeps what it is set to, and its counts stay in their ranges.
pub fn stays_in_range()
    ensures { StaysInRange }
{}
