//! The frame check sequence, an octet at a time.
ghost use Rattle.std.specs.Prelude.{◌≡◌};
ghost use Rattle.std.specs.List.{fold};
ghost use Rattle.t1s_frame.specs.FrameCheck.{frame_check, check_bit, low_bits};

use crate::table::table_entry;

/// The frame check sequence of `octets`: CRC-32 with the reflected polynomial 0xEDB88320, begun as all ones
/// and complemented at the end (IEEE 802.3 clause 3.2.9).
pub fn fcs(octets: &[u8]) -> u32
    ensures { result ≡ frame_check octets.now }
{
    let mut remainder = u32::MAX;
    for octet in octets {
        remainder = next_remainder(remainder, *octet);
    }
    u32::MAX - remainder
}

/// The remainder after the eight bits of one more octet.
fn next_remainder(remainder: u32, octet: u8) -> u32
    ensures { result ≡ fold check_bit remainder (low_bits 8 octet) }
{
    let low = (remainder ^ u32::from(octet)) & 0xFF;
    table_entry(low as u8) ^ (remainder >> 8)
}
