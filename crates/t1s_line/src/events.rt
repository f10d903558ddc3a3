//! What happens in a run, and who is told.
use t1s_pcs_rx::Kind;

/// What happens in a run, with its tick and the number of its node.
#[derive(Clone, Copy, PartialEq, Eq, Debug)]
pub enum Event<'a> {
    /// An offer was accepted in the ring of the node.
    Taken {
        tick: u64,
        node: u8,
        number: u16,
    },
    /// An offer was refused, since the ring held as many frames as it has room for.
    Full {
        tick: u64,
        node: u8,
        number: u16,
    },
    /// An offer was refused, since the node had not started.
    Off {
        tick: u64,
        node: u8,
        number: u16,
    },
    /// The PLCA status of the node became OK, or ceased to be.
    StatusIs {
        tick: u64,
        node: u8,
        ok: bool,
    },
    /// The MAC begins the jam of this frame.
    Jam {
        tick: u64,
        node: u8,
        number: u16,
    },
    /// The frame left at its 16th collision.
    Drop {
        tick: u64,
        node: u8,
        number: u16,
    },
    /// A drive of the node begins with N: a beacon.
    Beacon {
        tick: u64,
        node: u8,
    },
    /// A drive of the node begins with J: a commit.
    Commit {
        tick: u64,
        node: u8,
    },
    /// The first tick without drive after a drive of the node.
    Quiet {
        tick: u64,
        node: u8,
    },
    /// The first H of this frame begins.
    Leave {
        tick: u64,
        node: u8,
        number: u16,
    },
    /// The receiver of the node completes a piece. The frame has the octets of a good one, frame check sequence
    /// included, and none of another.
    Arrive {
        tick: u64,
        node: u8,
        kind: Kind,
        frame: &'a [u8],
    },
}

/// Who is told the events of a run. `sees` relates a watch before an event, the event, and the watch
/// after it.
pub trait Watch {
    ghost use Rattle.t1s_line.specs.EventRecords.{EventRecord, EventFits, event_record};

    ghost sees: { Self → EventRecord → Self → Type 0 };

    /// Takes an event.
    fn event(&mut self, e: &Event<'_>)
        requires { EventFits (event_record e.now) }
        ensures { sees self.old (event_record e.now) self.new };
}
