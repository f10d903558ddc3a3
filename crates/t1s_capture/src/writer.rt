//! The writer of captures.
use crate::format::{END, MAGIC, VERSION};
use crate::octets::Octets;
use crate::row::RowSoFar;
use std::marker::Model;
use std::mem::replace;
use t1s_symbols::Heard;

/// Writes what a node hears, tick by tick, as a capture: the octets of `head`, then those of each tick, then those of
/// `finish`.
#[derive(Drop)]
pub struct CaptureWriter {
    node: u8,
    ticks: u32,
    row: RowSoFar,
}

impl Model for CaptureWriter {
    ghost use Rattle.t1s_capture.specs.WriterTable.{WriterState};

    ghost Value = { WriterState };

    ghost use Rattle.t1s_capture.specs.WriterTable.{WriterFits};

    ghost view = { λ w. record {
      node = w.node;
      ticks = w.ticks;
      row = w.row;
    } };

    ghost invariant = { λ w. WriterFits w.node w.ticks w.row };
}

impl CaptureWriter {
    ghost use Rattle.t1s_base.specs.Limits.{most_nodes, most_ticks};
    ghost use Rattle.std.specs.Prelude.{◌≡◌, ◌≤◌, ◌+◌, ◌<◌, ℕ, List, [], ◌∷◌, ◌++◌};
    ghost use Rattle.t1s_symbols.specs.Ranges.{IsHeard};
    ghost use Rattle.t1s_capture.specs.Captures.{header, capture_text};
    ghost use Rattle.t1s_capture.specs.Cut.{Tick, cut};
    ghost use Rattle.t1s_capture.specs.WriterTable.{WriterStands, row_step, row_from, row_end, quiet_ticks};
    ghost use Rattle.t1s_capture.specs.declared.row.RowSoFar.TheVariants.{Empty};

    /// A writer for this node, whose number is at most 31. No tick has been handed in.
    pub fn new(node: u8) -> CaptureWriter
        requires { node < most_nodes }
        ensures value { result ≡ record { node = node; ticks = 0; row = Empty } }
        ensures stands { WriterStands [] [] result }
    {
        CaptureWriter {
            node,
            ticks: 0,
            row: RowSoFar::Empty,
        }
    }

    /// What a capture begins with: six octets.
    pub fn head(&self) -> Octets
        ensures { result ≡ header self.now.node }
    {
        Octets::new()
            .with(MAGIC[0])
            .with(MAGIC[1])
            .with(MAGIC[2])
            .with(MAGIC[3])
            .with(VERSION)
            .with(self.node)
    }

    /// Takes what the node heard in the next tick, a nibble below 16 in a part below 4, and whether it drove in it. A
    /// writer takes at most 20,000,000 ticks. The octets, at most 16, go after those that were given out before. It
    /// has no refusals.
    pub fn heard(&mut self, h: Heard, own: bool) -> Octets
        requires heard { IsHeard h }
        requires fewer { self.old.ticks < most_ticks }
        ensures node { self.new.node ≡ self.old.node }
        ensures ticks { self.new.ticks ≡ self.old.ticks + 1 }
        ensures steps { (self.new.row, result) ≡ row_step self.old.row (h, own) }
        ensures stands { (ticks : List Tick) (given : List ℕ) → WriterStands ticks given self.old
            → WriterStands (ticks ++ (h, own) ∷ []) (given ++ result) self.new }
    {
        self.go_on(h, own)
    }

    /// Takes n ticks at once, at least one, in which nothing is heard and the node does not drive; with the ticks that
    /// were handed in before they are at most 20,000,000. It gives the octets, and leaves the writer, of as many calls of
    /// `heard` together, in a time that does not grow with n. It has no refusals.
    pub fn quiet(&mut self, n: u64) -> Octets
        requires some { 1 ≤ n }
        requires fewer { self.old.ticks + n ≤ most_ticks }
        ensures node { self.new.node ≡ self.old.node }
        ensures ticks { self.new.ticks ≡ self.old.ticks + n }
        ensures steps { (self.new.row, result) ≡ row_from (self.old.row, []) (quiet_ticks n) }
        ensures stands { (ticks : List Tick) (given : List ℕ) → WriterStands ticks given self.old
            → WriterStands (ticks ++ quiet_ticks n) (given ++ result) self.new }
    {
        let ticks = n as u32;
        let row = replace(&mut self.row, RowSoFar::Empty);
        let (row, octets) = row.hears_silence(ticks);
        self.row = row;
        self.ticks += ticks;
        octets
    }

    /// The last octets, `21` after what the row of the last tick still owes. The header, the octets that were given out
    /// for the ticks, and these are the text of the items that are cut from the ticks.
    pub fn finish(self) -> Octets
        ensures text { (ticks : List Tick) (given : List ℕ) → WriterStands ticks given self
            → header self.node ++ (given ++ result) ≡ capture_text self.node (cut ticks) }
    {
        self.last_octets()
    }

    /// How many ticks were handed in.
    #[cfg(test)]
    pub(crate) fn ticks(&self) -> u32
        ensures { result ≡ self.now.ticks }
    {
        self.ticks
    }

    /// The last octets, by the row.
    fn last_octets(self) -> Octets
        ensures { result ≡ row_end self.row ++ 0x21 ∷ [] }
    {
        self.row.end().with(END)
    }

    /// The tick by the row.
    fn go_on(&mut self, h: Heard, own: bool) -> Octets
        requires heard { IsHeard h }
        requires fewer { self.old.ticks < most_ticks }
        ensures node { self.new.node ≡ self.old.node }
        ensures ticks { self.new.ticks ≡ self.old.ticks + 1 }
        ensures row { self.new.row ≡ (row_step self.old.row (h, own)).0 }
        ensures octets { result ≡ (row_step self.old.row (h, own)).1 }
    {
        let row = replace(&mut self.row, RowSoFar::Empty);
        let (row, octets) = match h {
            Heard::Nothing => row.hears_silence(1),
            Heard::One(quarter) if !own => row.hears_sound(Some(quarter)),
            _ => row.hears_sound(None),
        };
        self.row = row;
        self.ticks += 1;
        octets
    }
}
