//! The reading of pieces: their nibbles, descrambled and packed, and the frames in them.
ghost use Rattle.std.specs.Prelude.{◌≡◌, ◌≤◌, length};
ghost use Rattle.t1s_symbols.specs.Ranges.{IsSymbol};
ghost use Rattle.t1s_pcs_rx.specs.PieceReading.{reading_after, reading_start, without_nibbles, HasRoom};
ghost use Rattle.t1s_pcs_rx.specs.Views.{frame_of, kind_of};

use crate::piece::{Closer, Kind};
use std::marker::Model;
use t1s_frame::{Arrival, PieceNibbles};
use t1s_scramble::Descrambler;
use t1s_symbols::Symbol;

/// The first nibbles of a piece, in which the descrambler finds its step. They are not taken.
const STEP_FINDING: u16 = 9;

/// Reads the pieces of bursts, symbol by symbol. Contracts see the history of its descrambler, and the nibbles of the
/// piece from the tenth on. It takes no memory beyond itself, and its room is cleared once, when it is made.
#[derive(Drop)]
pub struct PieceReader {
    descrambler: Descrambler,
    nibbles: PieceNibbles,
}

impl Model for PieceReader {
    ghost use Rattle.t1s_pcs_rx.specs.PieceReading.{PieceReading};

    ghost Value = { PieceReading };

    ghost view = { λ r. record {
      history = r.descrambler;
      nibbles = r.nibbles;
    } };
}

impl PieceReader {
    /// A reader that has heard nothing.
    pub fn new() -> PieceReader
        ensures { result ≡ reading_start }
    {
        PieceReader {
            descrambler: Descrambler::new(),
            nibbles: PieceNibbles::new(),
        }
    }

    /// Takes a symbol that may stand where it does. Each nibble moves the descrambler, and is taken from the tenth of its
    /// piece on; an H lets the nibbles of the piece before go. `groups` counts the nibbles of the piece before it.
    pub fn take(&mut self, groups: u16, sym: Symbol)
        requires symbol { IsSymbol sym }
        requires room { HasRoom sym self.old.nibbles }
        ensures { self.new ≡ reading_after groups self.old sym }
    {
        match sym {
            Symbol::H => self.nibbles.clear(),
            Symbol::Nibble(nibble) => {
                let plain = self.descrambler.descramble(nibble);
                if STEP_FINDING <= groups {
                    self.nibbles.push(plain);
                }
            }
            _ => {}
        }
    }

    /// Lets the nibbles of the piece go.
    pub fn clear(&mut self)
        ensures { self.new ≡ without_nibbles self.old }
    {
        self.nibbles.clear();
    }

    /// The kind of the piece that ends here, by its closer and its nibbles.
    pub fn kind(&self, closer: Closer) -> Kind
        ensures { result ≡ kind_of closer self.now.nibbles }
    {
        match closer {
            Closer::R => match self.nibbles.arrival() {
                Arrival::Good => Kind::Good,
                Arrival::BadFcs => Kind::BadFcs,
                Arrival::Odd => Kind::Odd,
                Arrival::Runt => Kind::Runt,
                Arrival::NoSfd => Kind::NoSfd,
            },
            Closer::K => Kind::Errored,
            Closer::S => Kind::Jabber,
        }
    }

    /// The octets of the frame of a piece of this kind, at most 1522: none where the kind is not `Good`.
    pub fn frame(&self, kind: Kind) -> &[u8]
        ensures value { result.now ≡ frame_of kind self.now.nibbles }
        ensures fits { length result.now ≤ 1522 }
    {
        match kind {
            Kind::Good => self.nibbles.octets(),
            _ => &[],
        }
    }
}
