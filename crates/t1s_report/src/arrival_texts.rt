// What a piece is that was received, and the octets of the frame of a good one.
ghost use Rattle.std.specs.Prelude.{◌≡◌, ◌≤◌, ◌+◌, ◌*◌, ◌++◌, length};
ghost use Rattle.hex.specs.Hex.{encode_lower};
ghost use Rattle.t1s_report.specs.ArrivalTexts.{before_check, kind_text};

use crate::fields::text;
use hex::encode_to_slice;
use t1s_base::Line;
use t1s_pcs_rx::Kind;

/// The octets of a frame check sequence.
const CHECK: usize = 4;
/// The most octets of a frame before its frame check sequence.
const LONGEST: usize = 1518;

/// Appends octets as hexadecimal digits, two each.
fn hex_digits(out: &mut Line, octets: &[u8])
    requires short { length octets.now ≤ 1518 }
    requires fits { length out.old + 2 * length octets.now ≤ 4096 }
    ensures value { out.new ≡ out.old ++ encode_lower octets.now }
    ensures len { length out.new ≡ length out.old + 2 * length octets.now }
{
    let mut digits = [0u8; 2 * LONGEST];
    let digits = &mut digits[..2 * octets.len()];
    let _ = encode_to_slice(octets, digits);
    text(out, digits);
}

/// The octets before the frame check sequence.
pub(crate) fn before_check(frame: &[u8]) -> &[u8]
    requires { length frame.now ≤ 1522 }
    ensures value { result.now ≡ before_check frame.now }
    ensures len { length result.now ≤ 1518 }
{
    &frame[..frame.len().saturating_sub(CHECK)]
}

/// Appends what a piece is, and the octets of the frame of a good one.
pub(crate) fn kind_text(out: &mut Line, kind: Kind, frame: &[u8])
    requires short { kind ≡ Kind.Good → length frame.now ≤ 1522 }
    requires fits { length out.old ≤ 200 }
    ensures value { out.new ≡ out.old ++ kind_text kind frame.now }
    ensures len { length out.new ≤ 3300 }
{
    match kind {
        Kind::Good => {
            text(out, b"good ");
            hex_digits(out, before_check(frame));
        }
        Kind::BadFcs => text(out, b"badfcs"),
        Kind::Odd => text(out, b"odd"),
        Kind::Runt => text(out, b"runt"),
        Kind::NoSfd => text(out, b"nosfd"),
        Kind::Errored => text(out, b"errored"),
        Kind::Jabber => text(out, b"jabber"),
    }
}
