//! What becomes of an offer.

/// What becomes of an offer in its tick.
#[derive(Clone, Copy, PartialEq, Eq, Debug)]
pub enum OfferOutcome {
    /// The frame stands at the back of the node's queue.
    Taken,
    /// The queue holds as many frames as it has room for.
    Full,
    /// The node has not started.
    Off,
}

/// How an offer stands between two ticks.
#[derive(Clone, Copy, PartialEq, Eq, Debug)]
pub enum OfferState {
    /// There is no offer of this number.
    Unknown,
    /// Its tick has not been played.
    Expected,
    /// It was refused, since the node had not started.
    Off,
    /// It was refused, since the queue was full.
    Full,
    /// It was taken at this tick, and has not left.
    Taken(u64),
    /// It has left, so many ticks after it was taken.
    Left(u64),
}

/// What has become of an offer so far.
#[derive(Clone, Copy, PartialEq, Eq, Debug)]
pub enum Wait {
    /// It was refused, since the node had not started.
    Off,
    /// It was refused, since the queue was full.
    Full,
    /// It was not refused, and has not left.
    Open,
    /// It left so many ticks after it was taken.
    Left(u64),
}
