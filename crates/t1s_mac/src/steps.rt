//! One tick of each typed state, which is consumed by its step.
ghost use Rattle.std.specs.Prelude.{◌≡◌, ◌+◌, ◌<◌, ◌≤◌, ◌||◌, false, IsTrue, length, slice_index, if◌then◌else◌};
ghost use Rattle.t1s_mac.specs.MacTable.{Row, row_of, deferring, resting, waiting, sending, jamming};
ghost use Rattle.t1s_mac.specs.State.{phase_of, queue_of, holds_frame, head_nibbles, head_number};
ghost use Rattle.t1s_mac.specs.TurnRow.{row_left, IsTurn};

use crate::states::{Deferring, Jamming, Resting, Sending, State, Turn, Waiting};
use crate::{Draws, MacNote, MacStep};
use plca_data::MacOut;
use t1s_ring::{FrameRing, LentRing};

/// A nibble lasts four ticks: the last tick of it.
const LAST_QUARTER: u8 = 3;

/// A jam has eight nibbles: the last of them.
const LAST_JAM_NIBBLE: u8 = 7;

/// What a jam gives out.
const JAM_NIBBLE: u8 = 5;

/// A jam begins no earlier than after so many nibbles: preamble and start-of-frame delimiter.
const PREAMBLE_NIBBLES: u16 = 16;

/// The attempts before the one that is the last.
const LAST_ATTEMPT: u8 = 15;

/// The ticks of a slot.
const SLOT_TICKS: u32 = 512;

/// The number of the frame that is being sent.
fn number_of_head(ring: &LentRing) -> u16
    ensures { result ≡ head_number ring.now }
{
    ring.head().number
}

/// How many nibbles carry the frame that is being sent.
fn count_of_head(ring: &LentRing) -> u16
    ensures count { result ≡ length (head_nibbles ring.now) }
    ensures some { 0 < result }
{
    ring.head().frame.nibble_count()
}

/// The nibble at a place of those that carry the frame that is being sent.
fn nibble_of_head(ring: &LentRing, place: u16) -> u8
    ensures nibble { result ≡ slice_index (head_nibbles ring.now) place }
    ensures some { 0 < length (head_nibbles ring.now) }
    ensures range { result < 16 }
{
    ring.head().frame.nibble_at(place).unwrap_or(0)
}

/// A turn in which no frame starts.
fn turn(state: State, attempts: u8, out: MacOut, note: MacNote) -> Turn
    ensures { result ≡ record { state = state; attempts = attempts; starts = false; step = record { out = out; note = note } } }
{
    Turn {
        state,
        attempts,
        starts: false,
        step: MacStep { out, note },
    }
}

/// A tick of a MAC whose first frame waits until it may start.
fn defer(ring: FrameRing, attempts: u8, may_start: bool) -> Turn
    requires frame { 0 < length ring.frames }
    requires attempts { attempts ≤ 15 }
    ensures row { row_left result false ≡ deferring ring attempts may_start }
    ensures within { IsTurn result }
{
    if !may_start {
        let state = State::Deferring(Deferring { ring });
        return turn(state, attempts, MacOut::Nothing, MacNote::None);
    }
    match ring.lend() {
        Ok(ring) => {
            let first = nibble_of_head(&ring, 0);
            let sending = Sending {
                ring,
                nibble: 0,
                quarter: 0,
                collided: false,
            };
            Turn {
                state: State::Sending(sending),
                attempts,
                starts: true,
                step: MacStep {
                    out: MacOut::Nibble(first),
                    note: MacNote::None,
                },
            }
        }
        Err(_) => unreachable!(),
    }
}

impl Resting {
    /// A tick at rest: a frame that is there is in work at once.
    fn step(self, attempts: u8, may_start: bool) -> Turn
        requires { attempts ≤ 15 }
        ensures row { row_left result false ≡ resting self.ring attempts may_start }
        ensures within { IsTurn result }
    {
        let Resting { ring } = self;
        if ring.len() > 0 {
            return defer(ring, attempts, may_start);
        }
        let state = State::Resting(Resting { ring });
        turn(state, attempts, MacOut::Nothing, MacNote::None)
    }
}

impl Waiting {
    /// A tick of backoff.
    fn step(self, attempts: u8, may_start: bool) -> Turn
        requires frame { 0 < length self.ring.frames }
        requires attempts { attempts ≤ 15 }
        ensures row { row_left result false ≡ waiting self.ticks self.ring attempts may_start }
        ensures within { IsTurn result }
    {
        let Waiting { ring, ticks } = self;
        if ticks == 0 {
            return defer(ring, attempts, may_start);
        }
        let state = State::Waiting(Waiting {
            ring,
            ticks: ticks - 1,
        });
        turn(state, attempts, MacOut::Nothing, MacNote::None)
    }
}

impl Sending {
    /// A tick of a sending, which a collision cuts once preamble and start-of-frame delimiter are out.
    fn step(self, attempts: u8, collision: bool) -> Turn
        requires nibble { self.nibble < length (head_nibbles self.ring) }
        requires attempts { attempts ≤ 15 }
        ensures row { row_left result false ≡ sending self.nibble self.quarter (self.collided || collision) self.ring attempts }
        ensures within { IsTurn result }
    {
        let collided = self.collided || collision;
        if self.quarter < LAST_QUARTER {
            let state = State::Sending(Sending {
                ring: self.ring,
                nibble: self.nibble,
                quarter: self.quarter + 1,
                collided,
            });
            return turn(state, attempts, MacOut::Nothing, MacNote::None);
        }
        self.next_nibble(attempts, collided)
    }

    /// The end of a nibble: the jam, the end of the frame, or its next nibble.
    fn next_nibble(self, attempts: u8, collided: bool) -> Turn
        requires nibble { self.nibble < length (head_nibbles self.ring) }
        requires attempts { attempts ≤ 15 }
        ensures row { row_left result false ≡ sending self.nibble 3 collided self.ring attempts }
        ensures within { IsTurn result }
    {
        let Sending { ring, nibble, .. } = self;
        let count = count_of_head(&ring);
        let next = nibble + 1;
        if collided && next >= PREAMBLE_NIBBLES {
            let number = number_of_head(&ring);
            let jamming = Jamming {
                ring,
                nibble: 0,
                quarter: 0,
            };
            let out = MacOut::Nibble(JAM_NIBBLE);
            return turn(State::Jamming(jamming), attempts, out, MacNote::Jam(number));
        }
        if next == count {
            let number = number_of_head(&ring);
            let ring = ring.spend();
            let state = State::Resting(Resting { ring });
            return turn(state, 0, MacOut::Ended, MacNote::Sent(number));
        }
        let out = MacOut::Nibble(nibble_of_head(&ring, next));
        let sending = Sending {
            ring,
            nibble: next,
            quarter: 0,
            collided,
        };
        turn(State::Sending(sending), attempts, out, MacNote::None)
    }
}

impl Jamming {
    /// A tick of a jam.
    fn step<D: Draws>(self, attempts: u8, draws: &mut D) -> Turn
        requires frame { 0 < length self.ring.frames }
        requires attempts { attempts ≤ 15 }
        ensures row { let left : Row = jamming self.nibble self.quarter self.ring attempts (D.answer draws.old (attempts + 1)) in row_left result left.draws ≡ left }
        ensures draws { let left : Row = jamming self.nibble self.quarter self.ring attempts (D.answer draws.old (attempts + 1)) in draws.new ≡ if left.draws then D.after draws.old else draws.old }
        ensures within { IsTurn result }
    {
        if self.quarter < LAST_QUARTER {
            let jamming = Jamming {
                ring: self.ring,
                nibble: self.nibble,
                quarter: self.quarter + 1,
            };
            return turn(
                State::Jamming(jamming),
                attempts,
                MacOut::Nothing,
                MacNote::None,
            );
        }
        self.next_nibble(attempts, draws)
    }

    /// The end of a nibble of a jam: its next nibble, or after the last one the drop of the frame, or its backoff.
    fn next_nibble<D: Draws>(self, attempts: u8, draws: &mut D) -> Turn
        requires frame { 0 < length self.ring.frames }
        requires attempts { attempts ≤ 15 }
        ensures row { let left : Row = jamming self.nibble 3 self.ring attempts (D.answer draws.old (attempts + 1)) in row_left result left.draws ≡ left }
        ensures draws { let left : Row = jamming self.nibble 3 self.ring attempts (D.answer draws.old (attempts + 1)) in draws.new ≡ if left.draws then D.after draws.old else draws.old }
        ensures within { IsTurn result }
    {
        let Jamming { ring, nibble, .. } = self;
        if nibble < LAST_JAM_NIBBLE {
            let jamming = Jamming {
                ring,
                nibble: nibble + 1,
                quarter: 0,
            };
            let out = MacOut::Nibble(JAM_NIBBLE);
            return turn(State::Jamming(jamming), attempts, out, MacNote::None);
        }
        if attempts == LAST_ATTEMPT {
            let number = number_of_head(&ring);
            let state = State::Resting(Resting { ring: ring.spend() });
            return turn(state, 0, MacOut::Ended, MacNote::Drop(number));
        }
        let slots = draws.draw(attempts + 1);
        let waiting = Waiting {
            ring: ring.keep(),
            ticks: SLOT_TICKS * u32::from(slots),
        };
        turn(
            State::Waiting(waiting),
            attempts + 1,
            MacOut::Ended,
            MacNote::None,
        )
    }
}

impl State {
    /// A tick: the row of the table for the state.
    pub fn step<D: Draws>(
        self,
        attempts: u8,
        may_start: bool,
        collision: bool,
        draws: &mut D,
    ) -> Turn
        requires frame { IsTrue (holds_frame (phase_of self) (queue_of self)) }
        requires attempts { attempts ≤ 15 }
        ensures row { let left : Row = row_of (phase_of self) (queue_of self) attempts may_start collision (D.answer draws.old (attempts + 1)) in row_left result left.draws ≡ left }
        ensures draws { let left : Row = row_of (phase_of self) (queue_of self) attempts may_start collision (D.answer draws.old (attempts + 1)) in draws.new ≡ if left.draws then D.after draws.old else draws.old }
        ensures within { IsTurn result }
    {
        match self {
            State::Resting(resting) => resting.step(attempts, may_start),
            State::Deferring(deferring) => defer(deferring.ring, attempts, may_start),
            State::Waiting(waiting) => waiting.step(attempts, may_start),
            State::Sending(sending) => sending.step(attempts, collision),
            State::Jamming(jamming) => jamming.step(attempts, draws),
        }
    }
}
