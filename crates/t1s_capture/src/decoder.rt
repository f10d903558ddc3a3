//! The decoder of captures.
ghost use Rattle.std.specs.Borrow.{sem};

use crate::capture_reader::{CaptureReader, Outcome};
use crate::held_item::HeldItem;
use crate::items::{Counts, Item, Refusal};
use std::marker::Model;

/// Reads a capture octet by octet.
#[derive(Drop)]
pub struct Decoder {
    reader: CaptureReader,
}

impl Model for Decoder {
    ghost use Rattle.t1s_capture.specs.State.{DecoderState};

    ghost Value = { DecoderState };

    ghost view = { λ d. d.reader.decoder };
}

/// A decoder that holds an item until it is released: no octet can be fed meanwhile. The frame of a piece is lent from
/// what the decoder has read.
#[derive(Drop)]
pub struct Held {
    reader: CaptureReader,
    item: HeldItem,
}

impl Model for Held {
    ghost use Rattle.t1s_capture.specs.State.{HeldState};

    ghost Value = { HeldState };

    ghost use Rattle.t1s_capture.specs.HeldItems.{held_item};

    ghost view = { λ h. record { item = held_item h.item h.reader.nibbles; decoder = h.reader.decoder } };
}

/// What an octet leads to.
#[derive(Drop)]
pub enum Next {
    /// No item is handed out here.
    More(Decoder),
    /// An item is handed out.
    Held(Held),
    /// The octet leaves the grammar. The decoder is gone.
    Refused(Refusal),
}

/// What the octets of a piece lead to, the decoder staying where it is.
#[derive(Clone, Copy, PartialEq, Eq, Debug)]
pub enum Advance<'a> {
    /// No item is handed out here.
    More,
    /// This item is handed out. It is lent until the decoder is used again.
    Held(Item<'a>),
    /// The octet leaves the grammar. The decoder is as a new one.
    Refused(Refusal),
}

impl Decoder {
    ghost use Rattle.std.specs.Prelude.{◌≡◌, ◌↔◌, ◌≤◌, ℕ, List, [], ◌∷◌, ◌++◌, length};
    ghost use Rattle.t1s_capture.specs.declared.items.Counts.{Counts};
    ghost use Rattle.t1s_capture.specs.declared.items.Refusal.{Refusal};
    ghost use Rattle.t1s_capture.specs.Captures.{IsCapturePrefix};
    ghost use Rattle.t1s_capture.specs.DecodedItems.{DecodedItem, IsItemOctet};
    ghost use Rattle.t1s_capture.specs.Offences.{IsFirstOffence};
    ghost use Rattle.t1s_capture.specs.Stands.{Stands, state_of};
    ghost use Rattle.t1s_capture.specs.PrefixParts.{in_magic};
    ghost use Rattle.t1s_capture.specs.Answers.{YieldsItem, IsCountedCapture, IsFed, StandsAfter};
    ghost use Rattle.t1s_capture.specs.DecoderTable.{fed};
    ghost use Rattle.t1s_capture.specs.Advances.{LeavesDecoder, AdvanceFits, advance_next};
    ghost use Rattle.t1s_capture.specs.Outcomes.{decoder_left};

    /// A decoder that has taken no octet.
    pub fn new() -> Decoder
        ensures value { result ≡ state_of 0 (in_magic 0) }
        ensures stands { Stands [] result }
    {
        Decoder {
            reader: CaptureReader::new(),
        }
    }

    /// Takes the next octet. Each clause holds for all octets that the decoder stands for: those it has taken.
    /// They begin a capture. An item is handed out exactly at its octet, the octet is refused exactly where it
    /// is the first offence, with its offset and the first reason that holds, and otherwise the decoder goes on.
    pub fn step(self, octet: u8) -> Next
        ensures prefix { (before : List ℕ) → Stands before self → IsCapturePrefix before }
        ensures item { (before : List ℕ) (item : DecodedItem) → Stands before self →
            YieldsItem result item ↔ IsItemOctet before octet item }
        ensures refused { (before : List ℕ) (r : Refusal) → Stands before self → (result ≡ Next.Refused r) ↔
            ((r.offset ≡ length before) × IsFirstOffence (before ++ octet ∷ []) r.offset r.why) }
        ensures goes_on { (before : List ℕ) → Stands before self → StandsAfter (before ++ octet ∷ []) result }
    {
        let (_, next) = self.run(&[octet]);
        next
    }

    /// Takes the octets of a piece, one after another, up to the first at which an item is handed out or that is refused,
    /// or to the last. It answers how many were taken, a refused one included, and what the last of them leads to. It has
    /// no refusal of its own, and takes what further octets there are by further calls.
    pub fn feed(self, piece: &[u8]) -> (usize, Next)
        requires { 1 ≤ length piece.now }
        ensures some { 1 ≤ result.0 }
        ensures within { result.0 ≤ length piece.now }
        ensures fed { (before : List ℕ) → Stands before self → IsFed before piece.now result.0 result.1 }
    {
        self.run(piece)
    }

    /// The same in place: the decoder stays where it is, and lends the item that is handed out. After a refusal it is as a
    /// new one, which has taken no octet.
    pub fn advance(&mut self, piece: &[u8]) -> (usize, Advance<'_>)
        requires { 1 ≤ length piece.now }
        ensures* after { sem 𝓛 (LeavesDecoder self.entry piece.now) }
        ensures some { 1 ≤ result.0 }
        ensures within { result.0 ≤ length piece.now }
        ensures fed { (before : List ℕ) → Stands before self.old →
            IsFed before piece.now result.0 (advance_next result.1 (decoder_left self.old piece.now)) }
        ensures fits { AdvanceFits result.1 }
    {
        let (count, outcome) = self.reader.run(piece);
        match outcome {
            Outcome::More => (count, Advance::More),
            Outcome::Held(item) => (count, Advance::Held(self.reader.item(&item))),
            Outcome::Refused(refusal) => (count, Advance::Refused(refusal)),
        }
    }

    /// Ends the input. It is Ok exactly where the octets that were taken are a capture, with its counts. Else they are
    /// refused as `Truncated`, at their number.
    pub fn finish(self) -> Result<Counts, Refusal>
        ensures ok { (octets : List ℕ) (counts : Counts) → Stands octets self →
            (result ≡ Ok counts) ↔ IsCountedCapture octets counts }
        ensures truncated { (octets : List ℕ) (r : Refusal) → Stands octets self →
            (result ≡ Err r) ↔ IsFirstOffence octets r.offset r.why }
    {
        self.reader.ended()
    }

    /// The octets by the table of stages, one after another.
    #[inline(always)]
    fn run(self, piece: &[u8]) -> (usize, Next)
        ensures { result ≡ fed self piece.now }
    {
        let Decoder { mut reader } = self;
        let (count, outcome) = reader.run(piece);
        (count, reader.leads(outcome))
    }
}

impl Held {
    ghost use Rattle.std.specs.Prelude.{◌≡◌, ◌≤◌, length};
    ghost use Rattle.t1s_capture.specs.DecodedItems.{frame_of_item};
    ghost use Rattle.t1s_capture.specs.HeldItems.{decoded_item};

    /// The item that is held, lent until the decoder is released. A frame has at most 1522 octets.
    pub fn item(&self) -> Item<'_>
        ensures item { decoded_item result ≡ self.now.item }
        ensures fits { length (frame_of_item (decoded_item result)) ≤ 1522 }
    {
        self.reader.item(&self.item)
    }

    /// Lets the item go. The decoder stands for all octets taken, the one that handed the item out among them.
    pub fn release(self) -> Decoder
        ensures decoder { result ≡ self.decoder }
    {
        Decoder {
            reader: self.reader,
        }
    }
}

impl CaptureReader {
    ghost use Rattle.std.specs.Prelude.{◌≡◌};
    ghost use Rattle.t1s_capture.specs.Outcomes.{outcome_next};

    /// What the last octet led to.
    #[inline(always)]
    fn leads(self, outcome: Outcome) -> Next
        ensures { result ≡ outcome_next outcome self }
    {
        match outcome {
            Outcome::More => Next::More(Decoder { reader: self }),
            Outcome::Held(item) => Next::Held(Held { reader: self, item }),
            Outcome::Refused(refusal) => Next::Refused(refusal),
        }
    }
}
