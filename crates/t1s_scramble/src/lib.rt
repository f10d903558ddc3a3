//! The scrambler and the descrambler of the line, four bits at a time.
//!
//! A scrambled bit is the bit that came in, exclusive or the scrambled bits of 14 and 17 bits ago; a
//! descrambler takes them off again. The layer above uses `Scrambler::scramble` and
//! `Descrambler::descramble`: each extends the whole list of the definition (`scrambled`, `descrambled` in
//! `specs/Scrambled.antt`) by one nibble, low bit first. Contracts see either side as its history, the
//! newest seventeen bits on the line, the newest first. `proofs/Nibbles.antt` lifts them to lists of nibbles. The
//! law that a descrambler finds its step by itself is in the module `laws`.
#![tactic(auto)]

ghost use Rattle.std.specs.Prelude.{◌≡◌, ◌<◌, List, [], ◌∷◌, Bool};
ghost use Rattle.t1s_scramble.specs.Scrambled.{start_history, scrambled_nibble, descrambled_nibble, scrambler_after, descrambler_after};

use register::Register;
use std::marker::Model;

pub mod laws;
mod register;

/// The scrambler of a transmitter.
#[derive(Drop)]
pub struct Scrambler {
    past: Register,
}

impl Model for Scrambler {
    ghost Value = { List Bool };

    ghost view = { λ s. s.past };
}

impl Scrambler {
    /// A scrambler at the start: its seventeen bits are zero.
    pub fn new() -> Scrambler
        ensures { result ≡ start_history }
    {
        Scrambler {
            past: Register::new(),
        }
    }

    /// The next nibble of the scrambled list.
    pub fn scramble(&mut self, nibble: u8) -> u8
        requires { nibble < 16 }
        ensures nibble { result ≡ scrambled_nibble self.old nibble }
        ensures history { self.new ≡ scrambler_after self.old (nibble ∷ []) }
        ensures range { result < 16 }
    {
        let scrambled = self.past.mixed(nibble);
        self.past.push(scrambled);
        scrambled
    }
}

/// The descrambler of a receiver.
#[derive(Drop)]
pub struct Descrambler {
    past: Register,
}

impl Model for Descrambler {
    ghost Value = { List Bool };

    ghost view = { λ s. s.past };
}

impl Descrambler {
    /// A descrambler at the start: its seventeen bits are zero.
    pub fn new() -> Descrambler
        ensures { result ≡ start_history }
    {
        Descrambler {
            past: Register::new(),
        }
    }

    /// The next nibble of the descrambled list. It is right from the sixth nibble on, whatever was heard before.
    pub fn descramble(&mut self, nibble: u8) -> u8
        requires { nibble < 16 }
        ensures nibble { result ≡ descrambled_nibble self.old nibble }
        ensures history { self.new ≡ descrambler_after self.old (nibble ∷ []) }
        ensures range { result < 16 }
    {
        let plain = self.past.mixed(nibble);
        self.past.push(nibble);
        plain
    }
}

#[cfg(test)]
mod tests {
    use super::*;

    const PLAIN: [u8; 12] = [0x5, 0x5, 0x5, 0x5, 0x5, 0x5, 0x5, 0x5, 0x5, 0x5, 0x5, 0xD];

    const SCRAMBLED: [u8; 12] = [0x5, 0x5, 0x5, 0x1, 0xA, 0xA, 0xA, 0xF, 0xB, 0xA, 0xE, 0xD];

    #[test]
    fn a_preamble_is_scrambled_and_read_back_in_any_state(rt: HostRuntime) {
        let mut scrambler = Scrambler::new();
        let mut in_step = Descrambler::new();
        let mut elsewhere = Descrambler::new();
        for heard in [0xC, 0x3, 0x9, 0xF, 0x6, 0x1] {
            let _ = elsewhere.descramble(heard);
        }
        let mut differed = false;
        for (i, (plain, want)) in PLAIN.iter().zip(SCRAMBLED.iter()).enumerate() {
            assert!(rt; *plain < 16 && *want < 16);
            assert_eq!(rt; scrambler.scramble(*plain), *want, "nibble {i}");
            assert_eq!(rt; in_step.descramble(*want), *plain, "nibble {i}");
            let read = elsewhere.descramble(*want);
            differed |= read != *plain;
            assert!(rt; i < 5 || read == *plain, "nibble {i}");
        }
        assert!(rt; differed);
    }
}
