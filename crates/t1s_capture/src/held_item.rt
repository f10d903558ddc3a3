//! An item that is held.
ghost use Rattle.std.specs.Prelude.{◌≡◌, ◌≤◌, length};
ghost use Rattle.t1s_pcs_rx.specs.Views.{view_shown};
ghost use Rattle.t1s_capture.specs.DecodedItems.{frame_of_item};
ghost use Rattle.t1s_capture.specs.HeldItems.{held_item, held_view, decoded_item};

use crate::items::Item;
use t1s_pcs_rx::{Closer, Kind, PieceReader, PieceView};

/// A piece that is held. The octets of its frame stay with the reader.
#[derive(Clone, Copy)]
pub struct HeldPiece {
    pub lead: u16,
    pub groups: u16,
    pub closer: Closer,
    pub kind: Kind,
}

/// An item that is held.
#[derive(Clone, Copy)]
pub enum HeldItem {
    Piece {
        start: u64,
        piece: HeldPiece,
    },
    Beacon {
        start: u64,
    },
    Run {
        start: u64,
        end: u64,
        pieces: u64,
    },
    Bare {
        start: u64,
        end: u64,
    },
    Torn {
        start: u64,
        end: u64,
        symbols: u64,
        blur: u64,
    },
}

impl HeldPiece {
    fn view<'a>(&self, reader: &'a PieceReader) -> PieceView<'a>
        ensures view { view_shown result ≡ held_view self.now reader.now.nibbles }
        ensures fits { length result.frame.now ≤ 1522 }
    {
        PieceView {
            lead: self.lead,
            groups: self.groups,
            closer: self.closer,
            kind: self.kind,
            frame: reader.frame(self.kind),
        }
    }
}

impl HeldItem {
    /// The item, with the frame that the reader lends.
    pub fn shown<'a>(&self, reader: &'a PieceReader) -> Item<'a>
        ensures item { decoded_item result ≡ held_item self.now reader.now.nibbles }
        ensures fits { length (frame_of_item (decoded_item result)) ≤ 1522 }
    {
        match *self {
            HeldItem::Piece { start, piece } => Item::Piece {
                start,
                view: piece.view(reader),
            },
            HeldItem::Beacon { start } => Item::Beacon { start },
            HeldItem::Run { start, end, pieces } => Item::Run { start, end, pieces },
            HeldItem::Bare { start, end } => Item::Bare { start, end },
            HeldItem::Torn {
                start,
                end,
                symbols,
                blur,
            } => Item::Torn {
                start,
                end,
                symbols,
                blur,
            },
        }
    }
}
