//! The nibbles of a piece, packed into octets as they come.
ghost use Rattle.std.specs.Prelude.{◌≡◌, ◌≤◌, ◌<◌, [], ◌∷◌, ◌++◌, length, drop, nat_eq};
ghost use Rattle.std.specs.List.{starts_with};
ghost use Rattle.t1s_frame.specs.Arrivals.{arrival_of, octets_of};
ghost use Rattle.t1s_frame.specs.PackedNibbles.{packed_octet, is_delimiter};

use crate::arrivals::{Arrival, has_check};
use crate::frames::SHORTEST;
use std::marker::Model;

/// The most nibbles of a piece from the tenth on: three up to the end of the start-of-frame delimiter, and two for each
/// octet of the longest frame.
pub const MOST_NIBBLES: usize = 3047;

/// The room for them, with one nibble before the first: so the octets of a frame lie on whole octets.
const ROOM: usize = 1524;

/// The nibbles of a piece from the tenth on, at most 3047, in fixed room. They are packed into octets as they come, low
/// nibble first, so that the octets of a frame are lent and not joined. Its room is cleared once, when it is made: to
/// let all nibbles go costs the same however many they are.
#[derive(Drop)]
pub struct PieceNibbles {
    packed: [u8; ROOM],
    /// The place of the next nibble, two an octet. The place 0 is left out.
    end: usize,
}

impl Model for PieceNibbles {
    ghost use Rattle.std.specs.Prelude.{ℕ, List};
    ghost use Rattle.t1s_frame.specs.PackedNibbles.{packed_nibbles, IsEnd};

    ghost Value = { List ℕ };

    ghost view = { λ n. packed_nibbles n.packed n.end };

    ghost invariant = { λ n. IsEnd n.end };
}

impl PieceNibbles {
    /// No nibbles.
    pub fn new() -> PieceNibbles
        ensures { result ≡ [] }
    {
        PieceNibbles {
            packed: [0; ROOM],
            end: 1,
        }
    }

    /// Lets all nibbles go.
    pub fn clear(&mut self)
        ensures { self.new ≡ [] }
    {
        self.end = 1;
    }

    /// Takes one more nibble, which is below 16 and for which there must be room.
    pub fn push(&mut self, nibble: u8)
        requires range { nibble < 16 }
        requires room { length self.old < MOST_NIBBLES }
        ensures { self.new ≡ self.old ++ nibble ∷ [] }
    {
        let place = self.end / 2;
        self.packed[place] = with_nibble(self.packed[place], self.end, nibble);
        self.end += 1;
    }

    /// How many nibbles there are.
    pub fn count(&self) -> usize
        ensures { result ≡ length self.now }
    {
        self.end - 1
    }

    /// Whether they begin with the last nibbles of the preamble and the nibble that ends the start-of-frame delimiter.
    fn is_delimited(&self) -> bool
        ensures { result ≡ starts_with nat_eq self.now (5 ∷ 5 ∷ 13 ∷ []) }
    {
        if self.end < 4 {
            return false;
        }
        is_delimiter(self.packed[0], self.packed[1])
    }

    /// The octets after the first three nibbles, the low nibble of each first. An odd last nibble is left out.
    pub fn octets(&self) -> &[u8]
        ensures value { result.now ≡ octets_of (drop 3 self.now) }
        ensures fits { length result.now ≤ 1522 }
    {
        &self.packed[2..(self.end / 2).max(2)]
    }

    /// The class of the piece: `NoSfd`, `Odd`, `Runt`, `BadFcs` or `Good`, the first that holds (IEEE 802.3 clause 3.4).
    pub fn arrival(&self) -> Arrival
        ensures { result ≡ arrival_of self.now }
    {
        if !self.is_delimited() {
            return Arrival::NoSfd;
        }
        if self.count() % 2 == 0 {
            return Arrival::Odd;
        }
        let octets = self.octets();
        if octets.len() < SHORTEST {
            return Arrival::Runt;
        }
        if !has_check(octets) {
            return Arrival::BadFcs;
        }
        Arrival::Good
    }
}

/// An octet with a nibble more: the low one at an even place, and the high one at an odd place.
fn with_nibble(octet: u8, place: usize, nibble: u8) -> u8
    requires { nibble < 16 }
    ensures { result ≡ packed_octet octet place nibble }
{
    if place % 2 == 0 {
        nibble
    } else {
        octet % 16 + 16 * nibble
    }
}

/// Whether the last nibble of one octet and both nibbles of the next are the end of the preamble and of the delimiter.
fn is_delimiter(first: u8, second: u8) -> bool
    ensures { result ≡ is_delimiter first second }
{
    first / 16 == 5 && second % 16 == 5 && second / 16 == 13
}
