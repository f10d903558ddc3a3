//! The receiver, which lends the views of its pieces.
ghost use Rattle.std.specs.Prelude.{◌≡◌};
ghost use Rattle.std.specs.Borrow.{sem};
ghost use Rattle.t1s_symbols.specs.Ranges.{IsHeard};
ghost use Rattle.t1s_pcs_rx.specs.Receiver.{receive_start, is_inside};
ghost use Rattle.t1s_pcs_rx.specs.ReceiveTable.{receive_event};
ghost use Rattle.t1s_pcs_rx.specs.Leaves.{event_shown, EventFits, LeavesReceiver};

use crate::piece::PieceView;
use crate::reader::Reader;
use std::marker::Model;
use t1s_symbols::{Class, Heard};

/// What a tick tells.
#[derive(Clone, Copy, PartialEq, Eq, Debug)]
pub enum RxEvent<'a> {
    /// No piece ends in it.
    Nothing,
    /// It completes the closer of a piece.
    Piece(PieceView<'a>),
}

/// The receiver of a node. It takes no memory beyond itself.
#[derive(Drop)]
pub struct PcsRx {
    reader: Reader,
}

impl Model for PcsRx {
    ghost use Rattle.t1s_pcs_rx.specs.Receiver.{Receiver};

    ghost Value = { Receiver };

    ghost view = { λ r. r.reader };
}

impl PcsRx {
    /// The receiver of a node that starts: outside of a burst, with no class.
    pub fn new() -> PcsRx
        ensures { result ≡ receive_start }
    {
        PcsRx {
            reader: Reader::new(),
        }
    }

    /// What the burst is taken for that is heard, or was heard last.
    pub fn class(&self) -> Class
        ensures { result ≡ self.now.class }
    {
        self.reader.class()
    }

    /// Whether the receiver is inside a burst: it has been from the first tick in which something was heard, and is
    /// until nothing is heard, also where the reading of the burst has ended before.
    pub fn inside(&self) -> bool
        ensures { result ≡ is_inside self.now.burst }
    {
        self.reader.inside()
    }

    /// Hears one tick. `own` tells that the node drives in it: it then has no class, and whatever is heard counts
    /// as `Many`. `Piece` comes exactly where the tick completes a closer that is taken. Its view is lent until the
    /// next call, and its frame holds the octets where the kind is `Good`, or else nothing.
    pub fn hear(&mut self, h: Heard, own: bool) -> RxEvent<'_>
        requires { IsHeard h }
        ensures* after { sem 𝓛 (LeavesReceiver self.entry h own) }
        ensures event { event_shown result ≡ receive_event self.old h own }
        ensures fits { EventFits result }
    {
        let Some(closing) = self.reader.step(h, own) else {
            return RxEvent::Nothing;
        };
        let pieces = self.reader.pieces();
        let kind = pieces.kind(closing.closer);
        RxEvent::Piece(PieceView {
            lead: closing.lead,
            groups: closing.groups,
            closer: closing.closer,
            kind,
            frame: pieces.frame(kind),
        })
    }
}
