// The versions of the script format.
ghost use Rattle.std.specs.Prelude.{◌≡◌, ◌≤◌};
ghost use Rattle.t1s_base.specs.Limits.{last_node};
ghost use Rattle.t1s_script.specs.ParsedLine.{up_to};
ghost use Rattle.t1s_script.specs.Versions.{has_word, last_node_of, most_ticks_of, number_of_version, since, version_of};

use crate::words::{Range, Word};
use t1s_base::{EARLY_LAST_NODE, EARLY_MOST_TICKS, LAST_NODE, MOST_TICKS};

/// A version of the script format. It has the words of those before it.
#[derive(Clone, Copy)]
pub enum Version {
    V1,
    V2,
    V3,
}

impl Version {
    /// The version that a first line names.
    pub fn of(line: &[u8]) -> Option<Version>
        ensures { result ≡ version_of line.now }
    {
        if line == b"t1s 1".as_slice() {
            Some(Version::V1)
        } else if line == b"t1s 2".as_slice() {
            Some(Version::V2)
        } else if line == b"t1s 3".as_slice() {
            Some(Version::V3)
        } else {
            None
        }
    }

    /// The number by which the first line names it.
    fn number(self) -> u8
        ensures { result ≡ number_of_version self }
    {
        match self {
            Version::V1 => 1,
            Version::V2 => 2,
            Version::V3 => 3,
        }
    }

    /// Whether the word is one of those of this version.
    pub fn has_word(self, word: Word) -> bool
        ensures { result ≡ has_word self word }
    {
        since(word).number() <= self.number()
    }

    /// The numbers that its nodes take.
    pub fn nodes(self) -> Range
        ensures value { result ≡ up_to (last_node_of self) }
        ensures slot { result.greatest ≤ last_node }
    {
        Range::of(
            0,
            match self {
                Version::V1 | Version::V2 => u64::from(EARLY_LAST_NODE),
                Version::V3 => u64::from(LAST_NODE),
            },
        )
    }

    /// The most ticks of a run.
    fn most_ticks(self) -> u64
        ensures { result ≡ most_ticks_of self }
    {
        match self {
            Version::V1 | Version::V2 => EARLY_MOST_TICKS,
            Version::V3 => MOST_TICKS,
        }
    }

    /// The ticks of starts and of timed lines.
    pub fn ticks(self) -> Range
        ensures { result ≡ up_to (most_ticks_of self) }
    {
        Range::of(0, self.most_ticks())
    }

    /// The numbers of ticks that a run takes.
    pub fn ends(self) -> Range
        ensures { result ≡ record { least = 1; greatest = most_ticks_of self } }
    {
        Range::of(1, self.most_ticks())
    }
}

/// The version since which the word is one.
fn since(word: Word) -> Version
    ensures { result ≡ since word }
{
    match word {
        Word::Stub => Version::V2,
        Word::Also => Version::V3,
        Word::Set(_)
        | Word::Seed
        | Word::Node
        | Word::Late
        | Word::ToNode
        | Word::Draw
        | Word::Offer
        | Word::Fill
        | Word::Noise
        | Word::End => Version::V1,
    }
}
