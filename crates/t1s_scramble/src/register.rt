//! The newest seventeen bits on the line, which both sides keep.

ghost use Rattle.std.specs.Prelude.{◌≡◌, ◌<◌, ◌^◌, List, Bool};
ghost use Rattle.t1s_scramble.specs.Bits.{bits_of};
ghost use Rattle.t1s_scramble.specs.Scrambled.{start_history, history_after, scrambled_nibble, descrambled_nibble};

use std::marker::Model;

/// Seventeen bits: bit 0 is the oldest, bit 16 the newest.
#[derive(Drop)]
pub struct Register {
    bits: u32,
}

impl Model for Register {
    ghost use Rattle.std.specs.Prelude.{◌<◌, ◌^◌, List, Bool};
    ghost use Rattle.t1s_scramble.specs.Register.{history_of};

    ghost Value = { List Bool };

    ghost view = { λ r. history_of r.bits };

    ghost invariant = { λ r. r.bits < 2 ^ 17 };
}

impl Register {
    pub fn new() -> Register
        ensures { result ≡ start_history }
    {
        Register { bits: 0 }
    }

    /// The nibble with the bits of 14 and 17 bits ago on each of its four. None of these is one of the
    /// four, so this is the next nibble of the scrambled list and of the descrambled list alike.
    pub fn mixed(&self, nibble: u8) -> u8
        requires { nibble < 16 }
        ensures scrambled { result ≡ scrambled_nibble self.now nibble }
        ensures descrambled { result ≡ descrambled_nibble self.now nibble }
        ensures range { result < 16 }
    {
        let taps = self.bits ^ (self.bits >> 3);
        (u32::from(nibble) ^ (taps & 0xF)) as u8
    }

    /// Takes in the four bits of a nibble, and forgets the oldest four.
    pub fn push(&mut self, nibble: u8)
        requires { nibble < 16 }
        ensures { self.new ≡ history_after self.old (bits_of nibble) }
    {
        self.bits = (u32::from(nibble) << 13) | (self.bits >> 4);
    }
}
