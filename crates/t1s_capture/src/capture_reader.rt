//! The reading of a capture in place, without the items that are lent.
ghost use Rattle.std.specs.Prelude.{◌≡◌, ◌≤◌, length};
ghost use Rattle.t1s_capture.specs.DecodedItems.{frame_of_item};
ghost use Rattle.t1s_capture.specs.HeldItems.{held_item, decoded_item};
ghost use Rattle.t1s_capture.specs.DecoderTable.{fed, finished};
ghost use Rattle.t1s_capture.specs.PrefixParts.{in_magic};
ghost use Rattle.t1s_capture.specs.Stands.{state_of};
ghost use Rattle.t1s_capture.specs.StepAnswers.{settled};
ghost use Rattle.t1s_capture.specs.Outcomes.{outcome_next, decoder_left};

use crate::held_item::HeldItem;
use crate::items::{Counts, Item, Refusal, Why};
use crate::progress::{Progress, Step};
use crate::stage::Stage;
use std::marker::Model;
use std::mem;
use t1s_pcs_rx::PieceReader;

/// What the octets of a piece lead to, with the item that is handed out without its loan.
#[derive(Clone, Copy)]
pub enum Outcome {
    /// No item is handed out.
    More,
    /// This item is handed out.
    Held(HeldItem),
    /// The last octet leaves the grammar.
    Refused(Refusal),
}

/// A decoder without the item that it lends. The nibbles of a piece that was handed out stay until octets are read again.
#[derive(Drop)]
pub struct CaptureReader {
    progress: Progress,
    stage: Stage,
    /// Whether the nibbles are those of an item that was handed out.
    held: bool,
}

impl Model for CaptureReader {
    ghost use Rattle.t1s_capture.specs.State.{ReaderState};

    ghost Value = { ReaderState };

    ghost use Rattle.t1s_capture.specs.Ranges.{Fits};
    ghost use Rattle.t1s_capture.specs.StepAnswers.{settled, decoder_at};

    ghost view = { λ r. record {
      decoder = decoder_at (settled r.held r.progress) r.stage;
      nibbles = r.progress.reader.nibbles;
    } };

    ghost invariant = { λ r. Fits (settled r.held r.progress) r.stage };
}

impl Progress {
    /// Lets the nibbles go, if they are those of an item that was handed out.
    #[inline(always)]
    fn settle(&mut self, held: bool)
        ensures { self.new ≡ settled held self.old }
    {
        if held {
            self.reader.clear();
        }
    }
}

impl CaptureReader {
    /// Nothing is read yet.
    pub fn new() -> CaptureReader
        ensures { result.decoder ≡ state_of 0 (in_magic 0) }
    {
        CaptureReader {
            progress: Progress {
                taken: 0,
                counts: Counts {
                    ticks: 0,
                    beacons: 0,
                    runs: 0,
                    bare: 0,
                    torn: 0,
                    pieces: 0,
                    good: 0,
                },
                reader: PieceReader::new(),
            },
            stage: Stage::Magic(0),
            held: false,
        }
    }

    /// Reads the octets of a piece by the table of stages, up to the first at which an item is handed out or that is refused,
    /// or to the last. It answers how many were read, and what the last of them leads to. After a refusal nothing is read.
    pub fn run(&mut self, piece: &[u8]) -> (usize, Outcome)
        ensures next { (result.0, outcome_next result.1 self.new) ≡ fed self.old.decoder piece.now }
        ensures left { self.new.decoder ≡ decoder_left self.old.decoder piece.now }
    {
        self.progress.settle(self.held);
        self.held = false;
        let stage = mem::replace(&mut self.stage, Stage::Ended);
        let (count, step) = self.progress.run(stage, piece);
        match step {
            Step::Goes(stage) => {
                self.stage = stage;
                (count, Outcome::More)
            }
            Step::Yields(item, stage) => {
                self.stage = stage;
                self.held = true;
                (count, Outcome::Held(item))
            }
            Step::Refuses(why) => {
                let offset = self.progress.taken;
                *self = CaptureReader::new();
                (count, Outcome::Refused(Refusal { offset, why }))
            }
        }
    }

    /// An item that was handed out, with its frame lent. A frame has at most 1522 octets.
    pub fn item(&self, item: &HeldItem) -> Item<'_>
        ensures item { decoded_item result ≡ held_item item.now self.now.nibbles }
        ensures fits { length (frame_of_item (decoded_item result)) ≤ 1522 }
    {
        item.shown(&self.progress.reader)
    }

    /// The end by the stage.
    pub fn ended(&self) -> Result<Counts, Refusal>
        ensures { result ≡ finished self.now.decoder }
    {
        match self.stage {
            Stage::Ended => Ok(self.progress.counts),
            _ => Err(Refusal {
                offset: self.progress.taken,
                why: Why::Truncated,
            }),
        }
    }
}
