//! The world of a segment: what every node keeps, drives and hears in every tick, over the whole past.
//!
//! Nearly all of this crate is definitions and lemmas: `specs/Hearing.antt` says what a node hears,
//! `specs/World.antt` is the recursion on ticks over any machine that a node may be, `specs/Drives.antt`
//! says what a drive is, and `specs/Events.antt` how events are told. The layers above show that what
//! they keep, in bounded room, stands for this world, and cite the lemmas of `proofs/`.
#![tactic(auto)]

pub mod laws;

ghost use Rattle.std.specs.Prelude.{◌≡◌};
ghost use Rattle.t1s_world.specs.Hearing.{heard_with};

use t1s_symbols::{Heard, Quarter};

/// What is heard in a tick in which one more node may drive a quarter.
pub fn heard_with(heard: Heard, quarter: Option<Quarter>) -> Heard
    ensures { result ≡ heard_with heard quarter }
{
    match (heard, quarter) {
        (_, None) => heard,
        (Heard::Nothing, Some(quarter)) => Heard::One(quarter),
        (_, Some(_)) => Heard::Many,
    }
}

#[cfg(test)]
mod tests {
    use super::*;
    use t1s_symbols::Symbol;

    const BEACON: Quarter = Quarter {
        sym: Symbol::N,
        part: 0,
    };

    const COMMIT: Quarter = Quarter {
        sym: Symbol::J,
        part: 3,
    };

    #[test]
    fn one_signal_is_heard_alone_and_two_as_many(rt: HostRuntime) {
        let rows = [
            (Heard::Nothing, None, Heard::Nothing),
            (Heard::Nothing, Some(COMMIT), Heard::One(COMMIT)),
            (Heard::One(BEACON), None, Heard::One(BEACON)),
            (Heard::One(BEACON), Some(COMMIT), Heard::Many),
            (Heard::One(BEACON), Some(BEACON), Heard::Many),
            (Heard::Many, None, Heard::Many),
            (Heard::Many, Some(COMMIT), Heard::Many),
        ];
        for (heard, quarter, want) in rows {
            assert_eq!(rt; heard_with(heard, quarter), want);
        }
    }
}
