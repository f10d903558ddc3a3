//! The harness: where the nodes hang on the pair, and how far a signal has to go between them.
//!
//! A node hangs on the trunk at a place, by a stub that begins there, and drives and hears at the end of its stub. So
//! the way between two nodes is the trunk between their places and the stub of each, and a node is at no distance from
//! itself. `specs/Distances.antt` says it, and how far a node is from any point of the cable, on the trunk or within a
//! stub; the lemmas of `proofs/Distances.antt` are for the layers above.
//!
//! Places, stubs and distances are whole bit times (ticks of 100 ns).
#![tactic(auto)]

ghost use Rattle.std.specs.Prelude.{◌≡◌};
ghost use Rattle.t1s_harness.specs.Distances.{between, farthest, span};

/// Where a node hangs on the pair.
#[derive(Clone, Copy, Debug, Eq, PartialEq)]
pub struct Tap {
    /// the place on the trunk at which its stub begins, in ticks
    pub place: u8,
    /// the length of its stub, in ticks
    pub stub: u8,
}

/// The way between two nodes, in ticks: along the trunk, and along the stub of each.
pub fn between(a: &Tap, b: &Tap) -> u16
    ensures { result ≡ between a.now b.now }
{
    u16::from(a.place.abs_diff(b.place)) + u16::from(a.stub) + u16::from(b.stub)
}

/// The greatest distance of a node from one of these, in ticks; 0 where there is none.
fn farthest(tap: &Tap, taps: &[Tap]) -> u16
    ensures { result ≡ farthest tap.now taps.now }
{
    let mut most = 0;
    for other in taps {
        most = between(tap, other).max(most);
    }
    most
}

/// The span: the greatest distance of two of these nodes, in ticks; 0 where there are fewer than two.
pub fn span(taps: &[Tap]) -> u16
    ensures { result ≡ span taps.now }
{
    let mut most = 0;
    for i in 0..taps.len() {
        most = farthest(&taps[i], &taps[i + 1..]).max(most);
    }
    most
}

#[cfg(test)]
mod tests {
    use super::*;

    const fn tap(place: u8, stub: u8) -> Tap {
        Tap { place, stub }
    }

    #[test]
    fn the_way_between_two_nodes_has_both_stubs(rt: HostRuntime) {
        let rows = [
            (tap(0, 0), tap(9, 4), 13),
            (tap(9, 4), tap(0, 0), 13),
            (tap(7, 3), tap(7, 4), 7),
            (tap(5, 31), tap(4, 31), 63),
            (tap(255, 31), tap(0, 31), 317),
            (tap(0, 255), tap(255, 255), 765),
        ];
        for (a, b, want) in rows {
            assert_eq!(rt; between(&a, &b), want);
        }
    }

    #[test]
    fn the_span_is_the_greatest_distance_of_two_nodes(rt: HostRuntime) {
        assert_eq!(rt; span(&[]), 0);
        assert_eq!(rt; span(&[tap(9, 31)]), 0);
        assert_eq!(rt; span(&[tap(0, 0), tap(9, 4)]), 13);
        assert_eq!(rt; span(&[tap(7, 3), tap(7, 4)]), 7);
        assert_eq!(rt; span(&[tap(0, 0), tap(9, 0), tap(5, 31)]), 36);
        assert_eq!(rt; span(&[tap(4, 31), tap(0, 0), tap(9, 0)]), 36);
        assert_eq!(rt; span(&[tap(0, 31), tap(255, 31), tap(7, 0)]), 317);
        assert_eq!(rt; span(&[tap(255, 255), tap(255, 255)]), 510);
    }
}
