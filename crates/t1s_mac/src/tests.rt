ghost use Rattle.std.specs.Prelude.{◌≤◌};

use super::*;
use plca_data::MacOut;
use std::test::Fail;
use t1s_frame::Frame;
use t1s_ring::{FrameRing, Queued};

fn queued(number: u16) -> Result<Queued, Fail> {
    let frame = Frame::of_offer(&[0x11; 60])?;
    Ok(Queued { number, frame })
}

/// What the notes and nibbles of some steps add up to; a step counts from 1, and 0 stands for none.
#[derive(Clone, Copy, Debug, PartialEq, Eq)]
struct Tally {
    first_nibble: u16,
    first_jam: u16,
    jams: u16,
    drops: u16,
    sents: u16,
    last: MacNote,
}

/// Steps a MAC so often, with carrier off and the same collision input, and adds up what it tells.
fn run<D: Draws>(mut mac: Mac<D>, steps: u16, collision: bool) -> (Mac<D>, Tally) {
    let mut tally = Tally {
        first_nibble: 0,
        first_jam: 0,
        jams: 0,
        drops: 0,
        sents: 0,
        last: MacNote::None,
    };
    for step in 1..=steps {
        let (next, told) = mac.step(false, collision);
        mac = next;
        if tally.first_nibble == 0 && told.out == MacOut::Nibble(5) {
            tally.first_nibble = step;
        }
        if told.note != MacNote::None {
            tally.last = told.note;
        }
        match told.note {
            MacNote::None => (),
            MacNote::Jam(_) => {
                if tally.jams == 0 {
                    tally.first_jam = step;
                }
                tally.jams = tally.jams.saturating_add(1);
            }
            MacNote::Drop(_) => tally.drops = tally.drops.saturating_add(1),
            MacNote::Sent(_) => tally.sents = tally.sents.saturating_add(1),
        }
    }
    (mac, tally)
}

#[test]
fn sixteenth_collision_drops_frame(rt: HostRuntime) -> Result<(), Fail> {
    let mut ring = FrameRing::with_room(rt.alloc(), 1)?;
    ring.offer(queued(7)?)?;
    let mac = Mac::start(ring, ListDraws::new(Vec::new(rt.alloc())));
    let (mac, tally) = run(mac, 4000, true);
    let told = Tally {
        first_nibble: 97,
        first_jam: 161,
        jams: 16,
        drops: 1,
        sents: 0,
        last: MacNote::Drop(7),
    };
    assert_eq!(rt; tally, told);
    assert_eq!(rt; mac.number(), None);
    Ok(())
}

#[test]
fn offer_while_sending_stands_after_head(rt: HostRuntime) -> Result<(), Fail> {
    let mut ring = FrameRing::with_room(rt.alloc(), 2)?;
    ring.offer(queued(7)?)?;
    let draws = PickedDraws::List(ListDraws::new(Vec::new(rt.alloc())));
    let (mut mac, tally) = run(Mac::start(ring, draws), 97, false);
    assert_eq!(rt; tally.first_nibble, 97);
    assert_eq!(rt; mac.number(), Some(7));
    mac.offer(queued(8)?)?;
    let refused = mac.offer(queued(9)?);
    assert_eq!(rt; refused.map_err(|back| back.number), Err(9));
    // 144 nibbles of four ticks, the first of them already out
    let (mac, tally) = run(mac, 575, false);
    assert_eq!(rt; (tally.sents, mac.number()), (0, Some(7)));
    let (mac, told) = mac.step(false, false);
    assert_eq!(rt; (told.out, told.note), (MacOut::Ended, MacNote::Sent(7)));
    assert_eq!(rt; mac.number(), None);
    let (mac, tally) = run(mac, 97, false);
    assert_eq!(rt; (tally.first_nibble, mac.number()), (97, Some(8)));
    Ok(())
}

/// The draw of an attempt, of 1 to 15.
fn drawn<D: Draws>(draws: &mut D, attempt: u8) -> u16
    requires least { 1 ≤ attempt }
    requires most { attempt ≤ 15 }
{
    draws.draw(attempt)
}

#[test]
fn draws_of_each_kind(rt: HostRuntime) -> Result<(), Fail> {
    // the reference generator of PCG's C code begins with the words a15c02b7, 7b47f409, ba1d3330
    let mut seed = SeedDraws::new(42, 54);
    assert_eq!(rt; (drawn(&mut seed, 10), drawn(&mut seed, 4)), (0x2b7, 9));
    let mut seed = PickedDraws::Seed(seed);
    assert_eq!(rt; drawn(&mut seed, 15), 0x330);

    let mut list = ListDraws::new([5, 1030, 2047].to_vec(rt.alloc())?);
    assert_eq!(rt; (drawn(&mut list, 1), drawn(&mut list, 15)), (1, 6));
    let mut list = PickedDraws::List(list);
    assert_eq!(rt; (drawn(&mut list, 10), drawn(&mut list, 1)), (1023, 0));
    Ok(())
}

/// More ticks than are asked for anywhere else.
const MOST: u64 = 5000;

/// The carrier, for how many ticks with it a MAC is calm, up to `MOST`, and what it gives out in the tick after these.
type Calm = (bool, u64, MacOut);

/// Passes the calm ticks with a carrier, and then steps once with it.
fn step_after_calm<D: Draws>(mac: Mac<D>, carrier: bool) -> (u64, Mac<D>, MacStep) {
    let calm = mac.calm_for(carrier, false, MOST);
    let (mac, told) = mac.pass(carrier, false, calm).step(carrier, false);
    (calm, mac, told)
}

/// Whether each stretch is as it is wanted.
fn run_calm<D: Draws>(mut mac: Mac<D>, stretches: &[Calm]) -> (Mac<D>, bool) {
    let mut as_wanted = true;
    for (carrier, ticks, out) in stretches {
        let (calm, next, told) = step_after_calm(mac, *carrier);
        mac = next;
        as_wanted = as_wanted && calm == *ticks && told.out == *out;
    }
    (mac, as_wanted)
}

#[test]
fn acts_after_its_calm_ticks(rt: HostRuntime) -> Result<(), Fail> {
    let ring = FrameRing::with_room(rt.alloc(), 1)?;
    let mac = Mac::start(ring, ListDraws::new([1].to_vec(rt.alloc())?));
    let at_rest = [
        (true, MOST, MacOut::Nothing),
        (false, 0, MacOut::Nothing),
        (true, 95, MacOut::Nothing),
        (false, 0, MacOut::Nothing),
        (false, 95, MacOut::Nothing),
        (false, MOST, MacOut::Nothing),
        (true, 0, MacOut::Nothing),
    ];
    let (mut mac, as_wanted) = run_calm(mac, &at_rest);
    assert!(rt; as_wanted);
    mac.offer(queued(7)?)?;
    let deferring = [
        (true, 0, MacOut::Nothing),
        (true, MOST, MacOut::Nothing),
        (false, 0, MacOut::Nothing),
        (true, 95, MacOut::Nibble(5)),
        (false, 0, MacOut::Nothing),
    ];
    let (mac, as_wanted) = run_calm(mac, &deferring);
    assert!(rt; as_wanted);
    // sixteen nibbles and a jam, two ticks of which are out
    let (mac, tally) = run(mac, 95, true);
    assert_eq!(rt; tally.jams, 1);
    let backing_off = [
        (false, 0, MacOut::Nothing),
        (false, 95, MacOut::Nothing),
        (false, 415, MacOut::Nibble(5)),
    ];
    let (_mac, as_wanted) = run_calm(mac, &backing_off);
    assert!(rt; as_wanted);
    Ok(())
}
