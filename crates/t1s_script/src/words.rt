// What a line of a script says.
ghost use Rattle.std.specs.Prelude.{◌≡◌, ◌≤◌};
ghost use Rattle.t1s_script.specs.Settings.{default_of, setting_range};
ghost use Rattle.t1s_script.specs.ParsedLine.{is_within, word_in, word_of};

use crate::versions::Version;
use t1s_frame::Frame;

/// The numbers that a field takes.
#[derive(Clone, Copy)]
pub struct Range {
    pub least: u64,
    pub greatest: u64,
}

impl Range {
    /// The numbers from the one to the other.
    pub fn of(least: u64, greatest: u64) -> Range
        ensures { result ≡ record { least = least; greatest = greatest } }
    {
        Range { least, greatest }
    }

    /// Whether the number is one of them.
    pub fn has(self, number: u64) -> bool
        ensures { result ≡ is_within self number }
    {
        self.least <= number && number <= self.greatest
    }
}

/// A number that holds for the whole script and may stand once. Each is an octet.
#[derive(Clone, Copy)]
pub enum Setting {
    /// The PLCA node count: how many opportunities a cycle has.
    Count,
    /// The opportunity timer, in ticks.
    To,
    /// After how many ticks in a row with energy carrier is read.
    Rise,
    /// After how many ticks in a row without energy it is read no more.
    Fall,
    /// How many further frames may follow the first one of an opportunity.
    Burst,
    /// How many frames the ring of a node holds.
    Room,
}

impl Setting {
    /// The numbers that it takes.
    pub fn range(self) -> Range
        ensures value { result ≡ setting_range self }
        ensures octet { result.greatest ≤ 255 }
    {
        match self {
            Setting::Count => Range::of(1, 254),
            Setting::To => Range::of(16, 255),
            Setting::Rise => Range::of(1, 16),
            Setting::Fall => Range::of(1, 16),
            Setting::Burst => Range::of(0, 255),
            Setting::Room => Range::of(1, 64),
        }
    }

    /// The number that it has where no line gives one.
    pub fn default_value(self) -> u8
        ensures { result ≡ default_of self }
    {
        match self {
            Setting::Count => 8,
            Setting::To => 32,
            Setting::Rise => 4,
            Setting::Fall => 4,
            Setting::Burst => 0,
            Setting::Room => 8,
        }
    }
}

/// The words by which a line after the first begins.
#[derive(Clone, Copy)]
pub enum Word {
    Set(Setting),
    Seed,
    Node,
    Also,
    Stub,
    Late,
    ToNode,
    Draw,
    Offer,
    Fill,
    Noise,
    End,
}

/// What a line after the first says.
#[derive(Drop)]
pub enum ScriptLine {
    /// It begins with `#`.
    Skipped,
    /// A number that holds for the whole script.
    Set(Setting, u8),
    /// The seed of the draws.
    Seed(u64),
    /// A node of the segment: its number, its ID and its place.
    Node { no: u8, id: u8, place: u8 },
    /// A further ID of the node of that number.
    Also { no: u8, id: u8 },
    /// The length of the stub of the node of that number, in whole bit times.
    Stub { no: u8, stub: u8 },
    /// The tick at which the node of that number starts.
    Late { no: u8, start: u64 },
    /// The opportunity timer of the node of that number, in ticks.
    ToNode { no: u8, to: u8 },
    /// A draw of the node of that number.
    Draw { no: u8, draw: u16 },
    /// A frame that is offered to the node of that number.
    Offer { tick: u64, no: u8, frame: Frame },
    /// A noise from the one tick on and below the other.
    Noise { tick: u64, until: u64 },
    /// The number of ticks of the run.
    End(u64),
}

/// The word that the field is, of whatever version.
fn word_of(field: &[u8]) -> Option<Word>
    ensures { result ≡ word_of field.now }
{
    if field == b"count".as_slice() {
        Some(Word::Set(Setting::Count))
    } else if field == b"to".as_slice() {
        Some(Word::Set(Setting::To))
    } else if field == b"rise".as_slice() {
        Some(Word::Set(Setting::Rise))
    } else if field == b"fall".as_slice() {
        Some(Word::Set(Setting::Fall))
    } else if field == b"burst".as_slice() {
        Some(Word::Set(Setting::Burst))
    } else if field == b"room".as_slice() {
        Some(Word::Set(Setting::Room))
    } else if field == b"seed".as_slice() {
        Some(Word::Seed)
    } else if field == b"node".as_slice() {
        Some(Word::Node)
    } else if field == b"also".as_slice() {
        Some(Word::Also)
    } else if field == b"stub".as_slice() {
        Some(Word::Stub)
    } else if field == b"late".as_slice() {
        Some(Word::Late)
    } else if field == b"tonode".as_slice() {
        Some(Word::ToNode)
    } else if field == b"draw".as_slice() {
        Some(Word::Draw)
    } else if field == b"offer".as_slice() {
        Some(Word::Offer)
    } else if field == b"fill".as_slice() {
        Some(Word::Fill)
    } else if field == b"noise".as_slice() {
        Some(Word::Noise)
    } else if field == b"end".as_slice() {
        Some(Word::End)
    } else {
        None
    }
}

/// The word of that version that the field is.
pub fn word_in(version: Version, field: &[u8]) -> Option<Word>
    ensures { result ≡ word_in version field.now }
{
    let word = word_of(field)?;
    if version.has_word(word) {
        Some(word)
    } else {
        None
    }
}
