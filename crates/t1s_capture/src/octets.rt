//! A few octets of a capture.
ghost use Rattle.std.specs.Prelude.{◌≡◌, ◌≤◌, ◌+◌, ◌<◌, [], ◌∷◌, ◌++◌, length};
ghost use Rattle.t1s_capture.specs.Captures.{count_octets};

use arrayvec::ArrayVec;
use std::marker::Model;

/// The most octets that a writer gives out at once.
const MOST: usize = 16;

/// What a writer gives out at once: at most 16 octets, in fixed room, in the order in which they stand in the capture.
/// Making and reading it takes no memory and has no refusals.
#[derive(Debug, Drop)]
pub struct Octets {
    held: ArrayVec<u8, MOST>,
}

impl Model for Octets {
    ghost use Rattle.std.specs.Prelude.{ℕ, List};

    ghost Value = { List ℕ };

    ghost view = { λ o. o.held.items };
}

impl Octets {
    /// No octets.
    pub fn new() -> Octets
        ensures { result ≡ [] }
    {
        Octets {
            held: ArrayVec::new(),
        }
    }

    /// The octets in their order, at most 16 of them.
    pub fn as_slice(&self) -> &[u8]
        ensures octets { result.now ≡ self.now }
        ensures few { length result.now ≤ 16 }
    {
        self.held.as_slice()
    }

    /// One octet.
    pub(crate) fn one(octet: u8) -> Octets
        ensures { result ≡ octet ∷ [] }
    {
        let mut octets = Octets::new();
        octets.held.push(octet);
        octets
    }

    /// An octet, and a count of ticks as four octets, the high one first.
    pub(crate) fn counted(octet: u8, count: u32) -> Octets
        ensures { result ≡ octet ∷ count_octets count }
    {
        let mut octets = Octets::new();
        octets.held.push(octet);
        octets.held.push((count / 16777216) as u8);
        octets.held.push((count / 65536 % 256) as u8);
        octets.held.push((count / 256 % 256) as u8);
        octets.held.push((count % 256) as u8);
        octets
    }

    /// These octets and one more.
    pub(crate) fn with(self, octet: u8) -> Octets
        requires { length self < 16 }
        ensures { result ≡ self ++ octet ∷ [] }
    {
        let mut octets = self;
        octets.held.push(octet);
        octets
    }
}
