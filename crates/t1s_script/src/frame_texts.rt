// The frames that lines of a script offer, as texts.
ghost use Rattle.std.specs.Prelude.{◌≡◌, ◌<◌, ◌/◌, Err, length};
ghost use Rattle.std.specs.List.{list_all};
ghost use Rattle.hex.specs.Hex.{decode_of, is_hex_digit};
ghost use Rattle.t1s_script.specs.FrameTexts.{fill_frame, frame_within, hex_frame, sole_octet};

use crate::refusals::ScriptReason;
use hex::decode_to_slice;
use t1s_frame::Frame;

/// The most octets of a frame without its frame check sequence.
const LONGEST: usize = 1518;

/// The frame of these octets.
fn frame_within(octets: &[u8]) -> Result<Frame, ScriptReason>
    ensures { result ≡ frame_within octets.now }
{
    Frame::of_offer(octets).map_err(|_| ScriptReason::FrameSize)
}

/// Whether all octets of the text are hex digits.
fn has_hex_digits_alone(text: &[u8]) -> bool
    ensures { result ≡ list_all is_hex_digit text.now }
{
    text.iter().all(|octet| { matches!(*octet, b'0'..=b'9' | b'A'..=b'F' | b'a'..=b'f') })
}

/// Why there is no frame of a text for more octets than the longest has.
fn long_text(text: &[u8]) -> ScriptReason
    requires { 1518 < length text.now / 2 }
    ensures { hex_frame text.now ≡ Err result }
{
    if text.len() % 2 == 0 && has_hex_digits_alone(text) {
        ScriptReason::FrameSize
    } else {
        ScriptReason::Hex
    }
}

/// The frame whose octets the hex digits of the text write, of either case.
pub fn hex_frame(text: &[u8]) -> Result<Frame, ScriptReason>
    ensures { result ≡ hex_frame text.now }
{
    let len = text.len() / 2;
    if len > LONGEST {
        return Err(long_text(text));
    }
    let mut room = [0; LONGEST];
    match decode_to_slice(text, &mut room[..len]) {
        Ok(()) => frame_within(&room[..len]),
        Err(_) => Err(ScriptReason::Hex),
    }
}

/// The octet whose two hex digits the text is.
fn hex_octet(text: &[u8]) -> Option<u8>
    ensures { result ≡ sole_octet (decode_of text.now) }
{
    let mut room = [0; 1];
    match decode_to_slice(text, &mut room) {
        Ok(()) => Some(room[0]),
        Err(_) => None,
    }
}

/// The frame of `count` octets, each of them the octet of the text.
pub fn fill_frame(count: u64, text: &[u8]) -> Result<Frame, ScriptReason>
    ensures { result ≡ fill_frame count text.now }
{
    let octet = hex_octet(text).ok_or(ScriptReason::Hex)?;
    if count > LONGEST as u64 {
        return Err(ScriptReason::FrameSize);
    }
    let room = [octet; LONGEST];
    frame_within(&room[..count as usize])
}
