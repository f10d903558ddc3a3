//! `Frame`, an Ethernet frame in fixed room.
ghost use Rattle.std.specs.Prelude.{◌≡◌, ◌+◌, ◌*◌, ◌<◌, ◌≤◌, ◌↔◌, ◌++◌, length, IfOk, IfSome, IsNone, slice_get};
ghost use Rattle.arrayvec.specs.ArrayVec.{array_vec_len};
ghost use Rattle.t1s_frame.specs.Frame.{IsFrame, frame_of, nibble_list};

use crate::check_sequence::fcs;
use arrayvec::ArrayVec;
use std::marker::Model;
use thiserror::Error;

/// The least octets of an offer: two addresses and a type.
const SHORTEST_OFFER: usize = 14;

/// The most octets of an offer, which has no frame check sequence yet.
const LONGEST_OFFER: usize = 1518;

/// Zero octets, which pad a short offer.
static PADDING: [u8; 60] = [0; 60];

/// The least octets of a frame, its frame check sequence included.
pub const SHORTEST: usize = 64;

/// The most octets of a frame, its frame check sequence included.
pub const LONGEST: usize = 1522;

/// How many nibbles 5 stand before the nibble that ends the start-of-frame delimiter.
const PREAMBLE: u16 = 15;

/// Why octets are no offer.
#[derive(Clone, Copy, Debug, PartialEq, Eq, Error)]
pub enum FrameFault {
    /// Fewer than 14 octets.
    #[error("fewer than 14 octets")]
    TooShort = 1,
    /// More than 1518 octets.
    #[error("more than 1518 octets")]
    TooLong = 2,
}

/// A frame of 64 to 1522 octets, the last four of which are the frame check sequence of those before,
/// low octet first (IEEE 802.3 clause 3). It lies in the value itself and takes no memory.
#[derive(Debug, Drop)]
pub struct Frame {
    held: ArrayVec<u8, LONGEST>,
}

impl Model for Frame {
    ghost use Rattle.std.specs.Prelude.{ℕ, List};
    ghost use Rattle.t1s_frame.specs.Frame.{IsFrame};

    ghost Value = { List ℕ };

    ghost view = { λ f. f.held.items };

    ghost invariant = { λ f. IsFrame f.held.items };
}

impl Frame {
    /// The frame of an offer: its octets, then zero octets up to 60, then the frame check sequence, low octet first.
    ///
    /// It is refused below 14 octets (`TooShort`) and above 1518 (`TooLong`).
    pub fn of_offer(octets: &[u8]) -> Result<Frame, FrameFault>
        ensures short { (result ≡ Err FrameFault.TooShort) ↔ (length octets.now < 14) }
        ensures long { (result ≡ Err FrameFault.TooLong) ↔ (1518 < length octets.now) }
        ensures frame { IfOk result (λ f. f ≡ frame_of octets.now) }
        ensures whole { IfOk result (λ f. IsFrame f) }
    {
        if octets.len() < SHORTEST_OFFER {
            return Err(FrameFault::TooShort);
        }
        if octets.len() > LONGEST_OFFER {
            return Err(FrameFault::TooLong);
        }
        let mut held = ArrayVec::new();
        append(&mut held, octets);
        append(&mut held, &PADDING[octets.len().min(PADDING.len())..]);
        let check = fcs(held.as_slice());
        append(&mut held, &check.to_le_bytes());
        Ok(Frame { held })
    }

    /// The octets, from the destination address to the frame check sequence.
    pub fn octets(&self) -> &[u8]
        ensures value { result.now ≡ self.now }
        ensures whole { IsFrame self.now }
    {
        self.held.as_slice()
    }

    /// How many nibbles carry the frame, preamble and start-of-frame delimiter included.
    pub fn nibble_count(&self) -> u16
        ensures value { result ≡ 16 + 2 * length self.now }
        ensures nibbles { result ≡ length (nibble_list self.now) }
        ensures whole { IsFrame self.now }
    {
        PREAMBLE + 1 + 2 * self.octets().len() as u16
    }

    /// The nibble at place `i` of those that carry the frame, or `None` from `nibble_count` on.
    pub fn nibble_at(&self, i: u16) -> Option<u8>
        ensures value { result ≡ slice_get (nibble_list self.now) i }
        ensures end { IsNone result ↔ (16 + 2 * length self.now ≤ i) }
        ensures ranges { IfSome result (λ n. n < 16) }
    {
        if i < PREAMBLE {
            return Some(5);
        }
        if i == PREAMBLE {
            return Some(13);
        }
        let place = i - PREAMBLE - 1;
        let octet = *self.octets().get(usize::from(place / 2))?;
        Some(if place % 2 == 0 {
            octet % 16
        } else {
            octet / 16
        })
    }

    /// An equal frame. It takes no memory and is never refused.
    pub fn copy(&self) -> Frame
        ensures value { result ≡ self.now }
        ensures whole { IsFrame self.now }
    {
        let mut held = ArrayVec::new();
        append(&mut held, self.octets());
        Frame { held }
    }
}

/// Puts `octets`, for which there must be room, after those that are held.
fn append(held: &mut ArrayVec<u8, LONGEST>, octets: &[u8])
    requires { array_vec_len held.old + length octets.now ≤ LONGEST }
    ensures { held.new.items ≡ held.old.items ++ octets.now }
{
    match held.try_extend_from_slice(octets) {
        Ok(()) => (),
        Err(_) => unreachable!(),
    }
}
