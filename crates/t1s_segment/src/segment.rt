//! `Segment`, which plays the run of a script.
use crate::engine::Engine;
use crate::track::first_track;
use std::alloc::{AllocError, Global};
use std::marker::Model;
use t1s_line::{NodeTotals, Track, Wait, Watch};
use t1s_script::Script;
use t1s_symbols::Heard;

/// A segment in its run.
#[derive(Drop)]
pub struct Segment {
    engine: Engine<Track>,
}

impl Model for Segment {
    ghost use Rattle.t1s_segment.specs.State.{SegmentState};

    ghost Value = { SegmentState };

    ghost view = { λ g. g.engine };
}

impl Segment {
    ghost use Rattle.std.specs.Prelude.{◌≡◌, ℕ, ◌+◌, ◌<◌, ◌≤◌, ◌==◌, [], find, IfOk, IfSome, IsTrue, ◌↔◌};
    ghost use Rattle.t1s_symbols.specs.Ranges.{IsHeard};
    ghost use Rattle.t1s_world.specs.Events.{SeesEvents};
    ghost use Rattle.t1s_script.specs.Fit.{IsFit};
    ghost use Rattle.t1s_script.specs.Script.{IsScript};
    ghost use Rattle.t1s_script.specs.declared.script.Script.{Script};
    ghost use Rattle.t1s_line.specs.declared.totals.NodeTotals.{NodeTotals};
    ghost use Rattle.t1s_line.specs.CalmTicks.{IsCalm};
    ghost use Rattle.t1s_line.specs.World.{events_at, last_heard, settled_below, totals_below, wait_below};
    ghost use Rattle.t1s_schedule.specs.ScheduledRun.{SharesLine};
    ghost use Rattle.t1s_delivery.specs.Delivered.{IsDelivered};
    ghost use Rattle.t1s_segment.specs.Stands.{Stands, ticks_left};

    /// The segment of a valid script, before its first tick. It takes all memory of the run.
    pub fn new(alloc: Global, s: &Script) -> Result<Segment, AllocError>
        requires { IsScript s.now }
        ensures { IfOk result (λ g. Stands s.now 0 g) }
    {
        let lines = s.nodes.as_slice();
        let mut tracks = Vec::with_capacity(alloc, lines.len())?;
        for line in lines {
            tracks.push(first_track(alloc, s, line)?)?;
        }
        Ok(Segment {
            engine: Engine::new(alloc, lines, s.acts.as_slice(), tracks, s.end)?,
        })
    }

    /// The tick that is played next.
    pub fn now(&self) -> u64
        ensures { (s : Script) (t : ℕ) → Stands s t self.now → result ≡ t }
    {
        self.engine.now()
    }

    /// Whether every tick of the run has been played.
    pub fn at_end(&self) -> bool
        ensures left { IsTrue result ↔ (ticks_left self.now ≡ 0) }
        ensures at_end { (s : Script) (t : ℕ) → Stands s t self.now → IsTrue result ↔ (t ≡ s.end) }
    {
        self.engine.at_end()
    }

    /// Plays the tick `now()`, and tells the watch its events. Where the script is fit, the drives of the ticks played so far are a
    /// schedule, and no two of them overlap at any point of the cable; and each frame that was taken once every status was OK has left
    /// within its bound and reached every other node once, unchanged, if these ticks leave room for both, and nothing else has arrived.
    /// It takes no memory.
    pub fn tick<W: Watch>(&mut self, watch: &mut W)
        requires { 0 < ticks_left self.old }
        ensures left { ticks_left self.new + 1 ≡ ticks_left self.old }
        ensures stands { (s : Script) (t : ℕ) → Stands s t self.old → Stands s (t + 1) self.new }
        ensures events { (s : Script) (t : ℕ) → Stands s t self.old → SeesEvents W.sees watch.old (events_at s t) watch.new }
        ensures shares_line { (s : Script) (t : ℕ) → Stands s t self.old → IsFit s → SharesLine s (t + 1) }
        ensures delivers { (s : Script) (t : ℕ) → Stands s t self.old → IsFit s → IsDelivered s (t + 1) }
    {
        self.engine.tick(watch);
    }

    /// Plays the calm ticks from `now()` on, up to `most` and up to the end, at once, and answers how many these are: in a calm tick no
    /// act comes, no noise lasts and no node starts, nothing is driven and nothing reaches a node, and to no node happens anything but
    /// that its machines count. So there is nothing to tell a watch. Where it answers 0, it changes nothing. It takes no memory, and
    /// its time does not grow with the number of ticks.
    pub fn skip(&mut self, most: u64) -> u64
        requires { 0 < ticks_left self.old }
        ensures left { ticks_left self.new + result ≡ ticks_left self.old }
        ensures none { result ≡ 0 → self.new ≡ self.old }
        ensures within { result ≤ most }
        ensures stands { (s : Script) (t : ℕ) → Stands s t self.old → Stands s (t + result) self.new }
        ensures calm { (s : Script) (t : ℕ) → Stands s t self.old → (k : ℕ) → t ≤ k → k < t + result → IsCalm s k }
        ensures ends { (s : Script) (t : ℕ) → Stands s t self.old → result < most → t + result < s.end → IsCalm s (t + result) → ⊥ }
        ensures quiet { (s : Script) (t : ℕ) → Stands s t self.old → (k : ℕ) → t ≤ k → k < t + result → events_at s k ≡ [] }
        ensures shares_line { (s : Script) (t : ℕ) → Stands s t self.old → IsFit s → SharesLine s (t + result) }
        ensures delivers { (s : Script) (t : ℕ) → Stands s t self.old → IsFit s → IsDelivered s (t + result) }
    {
        self.engine.skip(most)
    }

    /// What the node with this number heard in the last tick that was played, and whether it drove in it:
    /// `(Nothing, false)` before its start. None where the script has no such node, and where no tick was
    /// played.
    pub fn heard(&self, node: u8) -> Option<(Heard, bool)>
        ensures value { (s : Script) (t : ℕ) → Stands s t self.now → result ≡ last_heard s node t }
        ensures range { (s : Script) (t : ℕ) → Stands s t self.now → IfSome result (λ r. IsHeard r.0) }
    {
        self.engine.heard(node)
    }

    /// The first tick in which every node's status was OK. None where there was none so far.
    pub fn settled(&self) -> Option<u64>
        ensures { (s : Script) (t : ℕ) → Stands s t self.now → result ≡ settled_below s t }
    {
        self.engine.settled()
    }

    /// What was counted at the node with this number so far. None where the script has no such node.
    pub fn totals(&self, node: u8) -> Option<NodeTotals>
        ensures { (s : Script) (t : ℕ) → Stands s t self.now → result ≡ find (λ (n : NodeTotals). n.node == node) (totals_below s t) }
    {
        self.engine.totals(node)
    }

    /// What has become of the offer of this number so far. None where the script has no such offer.
    pub fn wait(&self, number: u16) -> Option<Wait>
        ensures { (s : Script) (t : ℕ) → Stands s t self.now → result ≡ wait_below s t number }
    {
        self.engine.wait(number)
    }
}

#[cfg(test)]
mod tests {
    use super::*;
    use std::test::Fail;
    use t1s_line::Event;
    use t1s_script::read_script;
    use t1s_symbols::{Quarter, Symbol};

    /// Keeps the last events, and how many there were.
    #[derive(Drop)]
    struct Tally {
        beacons: u64,
        quiets: u64,
        /// The tick, the node, and whether its status became OK.
        last_status: Option<(u64, u8, bool)>,
    }

    impl Watch for Tally {
        ghost sees = { λ _ _ _. Unit {0} };

        fn event(&mut self, e: &Event<'_>) {
            match *e {
                Event::StatusIs { tick, node, ok } => self.last_status = Some((tick, node, ok)),
                Event::Beacon { .. } => self.beacons = self.beacons.saturating_add(1),
                Event::Quiet { .. } => self.quiets = self.quiets.saturating_add(1),
                _ => {}
            }
        }
    }

    impl Tally {
        fn new() -> Tally {
            Tally {
                beacons: 0,
                quiets: 0,
                last_status: None,
            }
        }
    }

    /// Plays the ticks below this one, or to the end of the run.
    fn play_below(segment: &mut Segment, tick: u64) {
        let mut tally = Tally::new();
        while segment.now() < tick && !segment.at_end() {
            segment.tick(&mut tally);
        }
    }

    /// One quarter of a beacon.
    fn beacon(part: u8) -> Heard {
        Heard::One(Quarter {
            sym: Symbol::N,
            part,
        })
    }

    #[test]
    fn tells_what_each_node_heard_in_the_last_tick(rt: HostRuntime) -> Result<(), Fail> {
        let text = b"t1s 1\ncount 3\nnode 0 0 0\nnode 1 1 2\nnode 2 2 5\nlate 2 8270\nend 8300\n";
        let script = read_script(rt.alloc(), text)?;
        let mut segment = Segment::new(rt.alloc(), &script)?;
        assert_eq!(rt; segment.heard(0), None, "before the first tick");
        play_below(&mut segment, 8257);
        assert_eq!(rt; segment.heard(0), Some((Heard::Nothing, true)));
        assert_eq!(rt; segment.heard(1), Some((Heard::Nothing, false)));
        assert_eq!(rt; segment.heard(3), None, "there is no such node");
        play_below(&mut segment, 8259);
        assert_eq!(rt; segment.heard(1), Some((beacon(0), false)));
        play_below(&mut segment, 8270);
        assert_eq!(rt; segment.heard(1), Some((beacon(3), false)));
        assert_eq!(rt;
            segment.heard(2),
            Some((Heard::Nothing, false)),
            "before its start"
        );
        play_below(&mut segment, 8271);
        assert_eq!(rt; segment.heard(2), Some((beacon(1), false)));
        Ok(())
    }

    #[test]
    fn two_beacons_at_once_are_heard_as_many_by_others(rt: HostRuntime) -> Result<(), Fail> {
        let text = b"t1s 1\ncount 3\nnode 0 0 0\nnode 1 1 0\nnode 7 0 0\nend 8300\n";
        let script = read_script(rt.alloc(), text)?;
        let mut segment = Segment::new(rt.alloc(), &script)?;
        play_below(&mut segment, 8257);
        assert_eq!(rt; segment.heard(0), Some((beacon(0), true)));
        assert_eq!(rt; segment.heard(7), Some((beacon(0), true)));
        assert_eq!(rt; segment.heard(1), Some((Heard::Many, false)));
        Ok(())
    }

    /// Skips calm ticks, up to so many, unless the run is over.
    fn skip(segment: &mut Segment, most: u64) -> u64 {
        if segment.at_end() {
            return 0;
        }
        segment.skip(most)
    }

    /// Plays the run to its end, and skips the calm ticks before each other one.
    fn play_and_skip(segment: &mut Segment) -> Tally {
        let mut tally = Tally::new();
        while !segment.at_end() {
            segment.skip(u64::MAX);
            if !segment.at_end() {
                segment.tick(&mut tally);
            }
        }
        tally
    }

    #[test]
    fn skips_the_silence_before_the_first_beacon(rt: HostRuntime) -> Result<(), Fail> {
        let text = b"t1s 1\ncount 3\nnode 0 0 0\nnode 1 1 2\nnode 2 2 5\nend 9000\n";
        let script = read_script(rt.alloc(), text)?;
        let mut segment = Segment::new(rt.alloc(), &script)?;
        assert_eq!(rt; skip(&mut segment, 9000), 0, "the nodes start");
        play_below(&mut segment, 1);
        assert_eq!(rt; skip(&mut segment, 9000), 8255);
        assert_eq!(rt; segment.now(), 8256);
        assert_eq!(rt; skip(&mut segment, 9000), 0, "a beacon begins");
        Ok(())
    }

    #[test]
    fn a_run_with_skips_is_the_same_run(rt: HostRuntime) -> Result<(), Fail> {
        let text =
            b"t1s 1\ncount 3\nnode 0 0 0\nnode 1 1 2\nnode 2 2 5\nlate 2 700\nnoise 300 340\nfill 8300 1 60 00\nend 20000\n";
        let script = read_script(rt.alloc(), text)?;
        let mut plain = Segment::new(rt.alloc(), &script)?;
        let mut skipping = Segment::new(rt.alloc(), &script)?;
        let mut told = Tally::new();
        while !plain.at_end() {
            plain.tick(&mut told);
        }
        let tally = play_and_skip(&mut skipping);
        assert_eq!(rt; skipping.now(), plain.now());
        assert_eq!(rt; tally.beacons, told.beacons);
        assert_eq!(rt; tally.quiets, told.quiets);
        assert_eq!(rt; tally.last_status, told.last_status);
        assert_eq!(rt; skipping.settled(), plain.settled());
        assert_eq!(rt; skipping.wait(1), plain.wait(1));
        for node in [0, 1, 2] {
            assert_eq!(rt; skipping.totals(node), plain.totals(node));
            assert_eq!(rt; skipping.heard(node), plain.heard(node));
        }
        Ok(())
    }

    #[test]
    fn two_coordinators_at_one_place_clash(rt: HostRuntime) -> Result<(), Fail> {
        let text = b"t1s 1\ncount 2\nnode 0 0 0\nnode 7 0 0\nend 8300\n";
        let script = read_script(rt.alloc(), text)?;
        let mut segment = Segment::new(rt.alloc(), &script)?;
        let mut tally = Tally::new();
        assert_eq!(rt; segment.now(), 0);
        while !segment.at_end() {
            segment.tick(&mut tally);
        }
        assert_eq!(rt; segment.now(), 8300);
        assert_eq!(rt; tally.beacons, 2);
        assert_eq!(rt; tally.quiets, 2);
        assert_eq!(rt; tally.last_status, Some((8256, 7, true)));
        assert_eq!(rt; segment.settled(), Some(8256));
        assert_eq!(rt; segment.totals(1), None);
        for node in [0, 7] {
            let want = NodeTotals {
                node,
                sent: 0,
                full: 0,
                jam: 0,
                drop: 0,
                good: 0,
                bad: 0,
                clash: 20,
            };
            assert_eq!(rt; segment.totals(node), Some(want));
        }
        Ok(())
    }
}
