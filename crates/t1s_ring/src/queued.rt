//! What a ring holds.
use t1s_frame::Frame;

/// A frame that was offered, with the number of its offer.
#[derive(Debug, Drop)]
pub struct Queued {
    pub number: u16,
    pub frame: Frame,
}
