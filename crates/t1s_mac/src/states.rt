//! The typed states of the MAC.
ghost use Rattle.std.specs.Prelude.{◌≡◌, ◌≤◌};
ghost use Rattle.t1s_mac.specs.CalmMac.{calm_ticks, phase_passed, HasTicks};
ghost use Rattle.t1s_mac.specs.State.{phase_of, queue_of, is_sending};

use crate::MacStep;
use crate::deference::Deference;
use t1s_ring::{FrameRing, LentRing};

/// No frame is in work.
#[derive(Drop)]
pub struct Resting {
    pub ring: FrameRing,
}

/// The first frame waits until the line is free.
#[derive(Drop)]
pub struct Deferring {
    pub ring: FrameRing,
}

/// The first frame backs off, for so many ticks more.
#[derive(Drop)]
pub struct Waiting {
    pub ring: FrameRing,
    pub ticks: u32,
}

/// The first frame is being sent: the nibble that is given out, the ticks that it has lasted, and whether
/// the sending has met a collision.
#[derive(Drop)]
pub struct Sending {
    pub ring: LentRing,
    pub nibble: u16,
    pub quarter: u8,
    pub collided: bool,
}

/// A collision is made known: the nibble of the jam, and the ticks that it has lasted.
#[derive(Drop)]
pub struct Jamming {
    pub ring: LentRing,
    pub nibble: u8,
    pub quarter: u8,
}

/// The states of the MAC.
#[derive(Drop)]
pub enum State {
    Resting(Resting),
    Deferring(Deferring),
    Waiting(Waiting),
    Sending(Sending),
    Jamming(Jamming),
}

/// What a state's step leaves: the next state, the attempts, whether a frame starts, and what the step tells.
#[derive(Drop)]
pub struct Turn {
    pub state: State,
    pub attempts: u8,
    pub starts: bool,
    pub step: MacStep,
}

impl State {
    /// Whether the head is being sent, or its collision made known.
    pub fn is_sending(&self) -> bool
        ensures { result ≡ is_sending (phase_of self.now) }
    {
        matches!(self, State::Sending(_) | State::Jamming(_))
    }

    /// For how many ticks with this carrier a MAC in this state is calm, up to `most`.
    pub fn calm_ticks(&self, deference: Deference, carrier: bool, most: u64) -> u64
        ensures { result ≡ calm_ticks (phase_of self.now) (queue_of self.now) deference carrier most }
    {
        match self {
            State::Resting(resting) => {
                if resting.ring.len() > 0 {
                    0
                } else {
                    deference.lasts(carrier, most)
                }
            }
            State::Waiting(waiting) => deference.lasts(carrier, u64::from(waiting.ticks).min(most)),
            State::Deferring(_) => deference.lasts_deferring(carrier, most),
            State::Sending(_) | State::Jamming(_) => 0,
        }
    }

    /// Lets so many ticks of a backoff pass, which has as many.
    pub fn pass(&mut self, n: u64)
        requires { HasTicks (phase_of self.old) n }
        ensures phase { phase_of self.new ≡ phase_passed (phase_of self.old) n }
        ensures queue { queue_of self.new ≡ queue_of self.old }
    {
        if let State::Waiting(waiting) = self {
            let left = u64::from(waiting.ticks) - n;
            waiting.ticks = left as u32;
        }
    }
}
