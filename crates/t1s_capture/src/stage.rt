//! What the octets that a decoder has taken end in.
ghost use Rattle.std.specs.Prelude.{◌≡◌, ◌<◌, slice_index, IfOk};
ghost use Rattle.t1s_capture.specs.Captures.{magic};
ghost use Rattle.t1s_capture.specs.DecoderTable.{count_of, octet_kind, no_burst};
ghost use Rattle.t1s_capture.specs.OctetKinds.{OctetKindInRange};

use crate::format::{END, GAP, MAGIC, TORN};
use t1s_grammar::Place;
use t1s_symbols::{Symbol, symbol_of};

/// The octets of a count that were taken, the high one first.
#[derive(Clone, Copy)]
pub enum CountSoFar {
    Nothing,
    One(u8),
    Two(u8, u8),
    Three(u8, u8, u8),
}

/// The symbols of a burst so far, or none yet.
#[derive(Drop)]
pub struct BurstSoFar {
    /// The place in the grammar after them.
    pub place: Place,
    /// How many symbols there are.
    pub symbols: u64,
    /// How many of them stand before the piece that may come next.
    pub closed: u64,
    /// Whether a gap stands before them.
    pub after_gap: bool,
}

/// The blur of a torn burst, of which some octets were taken.
#[derive(Clone, Copy)]
pub struct BlurSoFar {
    /// Whether it has to be at least 1.
    pub needed: bool,
    /// How many symbols the burst has.
    pub symbols: u64,
    pub count: CountSoFar,
}

/// What the octets so far end in.
#[derive(Drop)]
pub enum Stage {
    /// Within the first four octets, so many of which (below 4) were taken.
    Magic(u8),
    /// Before the version.
    Version,
    /// Before the node.
    Node,
    /// Within the count of a gap.
    InGap(CountSoFar),
    /// Where a burst may begin, or after a symbol.
    InBurst(BurstSoFar),
    /// Within the count of a torn burst's blur.
    InBlur(BlurSoFar),
    /// After a torn burst.
    AfterTorn,
    /// After the capture's end.
    Ended,
}

/// What an octet is where an item or a symbol may be tried.
#[derive(Clone, Copy)]
pub enum OctetKind {
    Gap,
    End,
    Torn,
    /// The group of a symbol.
    Known(Symbol),
    /// None of these.
    Unknown,
}

pub fn kind_of_octet(octet: u8) -> OctetKind
    ensures octet_kind { result ≡ octet_kind octet }
    ensures symbol { OctetKindInRange result }
{
    match octet {
        GAP => OctetKind::Gap,
        END => OctetKind::End,
        TORN => OctetKind::Torn,
        _ => match symbol_of(octet) {
            Some(symbol) => OctetKind::Known(symbol),
            None => OctetKind::Unknown,
        },
    }
}

/// A count by its four octets, the high one first.
pub fn count_of(a: u8, b: u8, c: u8, d: u8) -> u32
    ensures { result ≡ count_of a b c d }
{
    ((a as u32 * 256 + b as u32) * 256 + c as u32) * 256 + d as u32
}

/// The octet of `T1SC` after so many of its octets.
pub fn magic_octet(taken: u8) -> u8
    requires { taken < 4 }
    ensures { result ≡ slice_index magic taken }
{
    MAGIC[taken as usize]
}

impl BurstSoFar {
    /// No symbol yet.
    pub fn none(after_gap: bool) -> BurstSoFar
        ensures { result ≡ no_burst after_gap }
    {
        BurstSoFar {
            place: Place::start(),
            symbols: 0,
            closed: 0,
            after_gap,
        }
    }
}
