//! How a received piece is classified.
ghost use Rattle.std.specs.Prelude.{◌≡◌, ◌<◌, ◌≤◌, length, All};
ghost use Rattle.t1s_frame.specs.Arrivals.{arrival_of, ends_with_check};

use crate::check_sequence::fcs;
use crate::piece_nibbles::PieceNibbles;

/// What a receiver makes of a piece that it took off the line.
#[derive(Clone, Copy, Debug, PartialEq, Eq)]
pub enum Arrival {
    /// A frame, whole and with the right frame check sequence.
    Good,
    /// The last four octets are not the frame check sequence of those before.
    BadFcs,
    /// An odd number of nibbles after the start-of-frame delimiter.
    Odd,
    /// Fewer than 64 octets after the start-of-frame delimiter.
    Runt,
    /// No start-of-frame delimiter where it must end.
    NoSfd,
}

/// The class of a piece, by its nibbles from the tenth on, at most 3047 of them and each below 16:
/// `NoSfd`, `Odd`, `Runt`, `BadFcs` or `Good`, the first that holds (IEEE 802.3 clause 3.4). It takes no memory.
pub fn classify(nibbles: &[u8]) -> Arrival
    requires fits { length nibbles.now ≤ 3047 }
    requires ranges { All (λ n. n < 16) nibbles.now }
    ensures { result ≡ arrival_of nibbles.now }
{
    let mut piece = PieceNibbles::new();
    for nibble in nibbles {
        piece.push(*nibble);
    }
    piece.arrival()
}

/// Whether the last four octets are the frame check sequence of those before, low octet first.
pub fn has_check(octets: &[u8]) -> bool
    ensures { result ≡ ends_with_check octets.now }
{
    let before = &octets[..octets.len().saturating_sub(4)];
    octets.ends_with(&fcs(before).to_le_bytes())
}
