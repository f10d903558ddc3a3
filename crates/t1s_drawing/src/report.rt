// What the lines of a report say.

use t1s_waveform::Heard;

/// What happened at a node. A number names the offer that the frame came from.
#[derive(Clone, Copy)]
pub(crate) enum Happening {
    /// An offer was taken into the queue.
    Taken(u32),
    /// The queue was full.
    Full(u32),
    /// The node hadn't started.
    Off(u32),
    /// The PLCA status became OK.
    InStep,
    /// The PLCA status ceased to be OK.
    LostStep,
    /// The jam of a frame began.
    Jam(u32),
    /// A frame was dropped.
    Drop(u32),
    /// A drive began with a beacon.
    Beacon,
    /// A drive began with a commit.
    Commit,
    /// A drive ended.
    Quiet,
    /// A frame began within a drive.
    Leave(u32),
    /// A good frame arrived.
    Good,
    /// A piece arrived that is no good frame.
    Bad,
    /// What the node hears from this tick on, by its capture.
    Hears(Heard),
}

/// What happened at a node in a tick.
#[derive(Clone, Copy)]
pub(crate) struct Event {
    pub(crate) tick: u32,
    pub(crate) node: u32,
    pub(crate) what: Happening,
}

/// What a line of a report says.
#[derive(Clone, Copy)]
pub(crate) enum ReportLine {
    Event(Event),
    /// The tick in which all were in step: the summary begins.
    Settled,
    /// What was counted at the node.
    Totals(u32),
    /// What has become of an offer.
    Offer,
}
