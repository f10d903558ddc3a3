//! `Mac`, the machine that a node steps once a tick.
ghost use Rattle.std.specs.Prelude.{◌≡◌, ◌<◌, ◌↔◌, IsOk, IsErr, OnOk, IfErr, Some, IsSome, length};
ghost use Rattle.plca_data.specs.Ranges.{IsMacOut};
ghost use Rattle.t1s_ring.specs.Queue.{with_last, IsQueue};
ghost use Rattle.std.specs.Fn.{iterate};
ghost use Rattle.t1s_symbols.specs.CalmSteps.{AreCalm, IsCalmFor};
ghost use Rattle.t1s_mac.specs.CalmMac.{mac_after, IsCalmMac};
ghost use Rattle.t1s_mac.specs.MacTable.{mac_step, LeavesByNote};
ghost use Rattle.t1s_mac.specs.State.{mac_start, IsMac, number_of, with_queue};

use crate::deference::Deference;
use crate::states::{Resting, State};
use crate::{Draws, MacStep};
use std::marker::Model;
use t1s_ring::{FrameRing, Queued};

/// A half-duplex MAC with its queue of frames. Contracts see it as a `MacState`.
#[derive(Drop)]
pub struct Mac<D> {
    state: State,
    deference: Deference,
    attempts: u8,
    draws: D,
}

impl<D> Model for Mac<D> {
    ghost use Rattle.t1s_mac.specs.State.{MacState, IsMac, phase_of, queue_of};

    ghost Value = { MacState D };

    ghost view = { λ mac. record { phase = phase_of mac.state; queue = queue_of mac.state; deference = mac.deference; attempts = mac.attempts; draws = mac.draws } };

    ghost invariant = { λ mac. IsMac (record { phase = phase_of mac.state; queue = queue_of mac.state; deference = mac.deference; attempts = mac.attempts; draws = mac.draws }) };
}

impl<D: Draws> Mac<D> {
    /// A MAC at rest over a ring of frames, which takes the line for busy until its carrier is off.
    pub fn start(ring: FrameRing, draws: D) -> Mac<D>
        ensures { result ≡ mac_start ring draws }
    {
        Mac {
            state: State::Resting(Resting { ring }),
            deference: Deference::Busy,
            attempts: 0,
            draws,
        }
    }

    /// Appends a frame at the back of the queue, also while the head is being sent. A queue that holds as
    /// many frames as its room, the head counted, stays as it is, and hands the frame back.
    pub fn offer(&mut self, q: Queued) -> Result<(), Queued>
        ensures taken { IsOk result ↔ (length self.old.queue.frames < self.old.queue.room) }
        ensures full { IsErr result ↔ (length self.old.queue.frames ≡ self.old.queue.room) }
        ensures ok { OnOk result (self.new ≡ with_queue self.old (with_last self.old.queue q)) }
        ensures err { IfErr result (λ back. (back ≡ q) × (self.new ≡ self.old)) }
        ensures bounds { IsMac self.new }
    {
        match &mut self.state {
            State::Resting(resting) => resting.ring.offer(q),
            State::Deferring(deferring) => deferring.ring.offer(q),
            State::Waiting(waiting) => waiting.ring.offer(q),
            State::Sending(sending) => sending.ring.offer(q),
            State::Jamming(jamming) => jamming.ring.offer(q),
        }
    }

    /// The number of the frame that is being sent, or whose collision is made known, and None in the
    /// other states.
    pub fn number(&self) -> Option<u16>
        ensures number { result ≡ number_of self.now }
        ensures bounds { IsMac self.now }
    {
        match &self.state {
            State::Sending(sending) => Some(sending.ring.head().number),
            State::Jamming(jamming) => Some(jamming.ring.head().number),
            State::Resting(_) | State::Deferring(_) | State::Waiting(_) => None,
        }
    }

    /// One tick, by the carrier and the collision that the data path signals. A nibble that is given out is below 16.
    pub fn step(self, carrier: bool, collision: bool) -> (Mac<D>, MacStep)
        ensures step { result ≡ mac_step D.answer D.after self carrier collision }
        ensures nibble { IsMacOut result.1.out }
        ensures leaves { LeavesByNote result.1.note self.queue result.0.queue }
        ensures bounds { IsMac result.0 }
    {
        let Mac {
            state,
            deference,
            attempts,
            mut draws,
        } = self;
        let may_start = deference.may_start(carrier);
        let sending = state.is_sending();
        let turn = state.step(attempts, may_start, collision, &mut draws);
        let mac = Mac {
            state: turn.state,
            deference: deference.after_tick(carrier, sending, turn.starts),
            attempts: turn.attempts,
            draws,
        };
        (mac, turn.step)
    }

    /// For how many ticks with this carrier, one after the other, the MAC does nothing but count: the greatest number
    /// up to `most`. In such a calm tick it gives out nothing, tells of no frame, and changes nothing but the ticks of
    /// a backoff and of an interframe gap. The collision input tells only in a sending, which is never calm.
    ///
    /// A MAC is calm at rest with no frame and while its first frame backs off, under carrier where the line is busy,
    /// in silence where it is free, and in an interframe gap until its last tick; and so it is while its first frame
    /// waits, but not where the line is free. A backoff is calm for the ticks that it has left. No other state is calm.
    pub fn calm_for(&self, carrier: bool, collision: bool, most: u64) -> u64
        ensures calm { IsCalmFor (mac_after D.answer D.after carrier collision) (IsCalmMac D.answer D.after carrier collision) self.now most result }
        ensures bounds { IsMac self.now }
    {
        let _told_in_a_sending = collision;
        self.state.calm_ticks(self.deference, carrier, most)
    }

    /// So many ticks with this carrier at once. It asks that all of them are calm, as `calm_for` tells, and leaves
    /// what as many steps leave.
    pub fn pass(self, carrier: bool, collision: bool, n: u64) -> Mac<D>
        requires { AreCalm (mac_after D.answer D.after carrier collision) (IsCalmMac D.answer D.after carrier collision) self n }
        ensures steps { result ≡ iterate (mac_after D.answer D.after carrier collision) n self }
        ensures bounds { IsMac result }
    {
        let _told_in_a_sending = collision;
        let Mac {
            mut state,
            deference,
            attempts,
            draws,
        } = self;
        state.pass(n);
        Mac {
            state,
            deference: deference.passed(carrier, n),
            attempts,
            draws,
        }
    }
}
