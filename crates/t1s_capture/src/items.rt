use t1s_pcs_rx::PieceView;

/// Why octets are refused.
#[derive(Clone, Copy, PartialEq, Eq, Debug)]
pub enum Why {
    /// The first four octets are not `T1SC`.
    Magic,
    /// The version is not 1.
    Version,
    /// The node is above 31.
    NodeByte,
    /// A count that has to be at least 1 is 0.
    CountZero,
    /// A gap stands directly after a gap.
    GapTwice,
    /// No item and no symbol has this octet.
    Group,
    /// The octet's item or symbol may not stand here.
    Place,
    /// A burst grows too long: by the 4097th J of a string of J, by the 3057th nibble of a piece, or by the first H of
    /// its 4097th piece, with at least two J directly before it.
    BurstLong,
    /// The octets end before the capture does. It comes at the end of the input alone.
    Truncated,
    /// An octet stands after the capture's end.
    AfterEnd,
    /// The capture has more than 2^30 octets.
    TooLong,
}

/// Where octets are refused, counted from 0, and why.
#[derive(Clone, Copy, PartialEq, Eq, Debug)]
pub struct Refusal {
    pub offset: u64,
    pub why: Why,
}

/// What a whole capture has: its ticks, its items of each kind, and its pieces, those in torn bursts and `good` ones
/// among them. A torn burst counts as `torn` alone.
#[derive(Clone, Copy, PartialEq, Eq, Debug)]
pub struct Counts {
    pub ticks: u64,
    pub beacons: u64,
    pub runs: u64,
    pub bare: u64,
    pub torn: u64,
    pub pieces: u64,
    pub good: u64,
}

/// An item of a capture. Ticks count from the capture's start: `start` is the first tick of the item, and `end` the
/// tick after its last.
#[derive(Clone, Copy, PartialEq, Eq, Debug)]
pub enum Item<'a> {
    /// A piece, by the first tick of its lead. It may stand in a burst that is torn later.
    Piece {
        start: u64,
        view: PieceView<'a>,
    },
    /// A beacon.
    Beacon {
        start: u64,
    },
    /// A run of so many pieces.
    Run {
        start: u64,
        end: u64,
        pieces: u64,
    },
    /// A bare commit.
    Bare {
        start: u64,
        end: u64,
    },
    /// A burst that was torn after so many symbols, with so many ticks after them that belong to none.
    Torn {
        start: u64,
        end: u64,
        symbols: u64,
        blur: u64,
    },
}
