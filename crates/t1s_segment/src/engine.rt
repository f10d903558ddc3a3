//! `Engine`, which plays the nodes of a segment, whatever machine they are.
ghost use Rattle.std.specs.Prelude.{◌≡◌};
ghost use Rattle.t1s_segment.specs.State.{settled_after};

use crate::calm::{nodes_calm_for, pass_all};
use crate::machine::NodeMachine;
use crate::offer_phase::offer_all;
use crate::phases::{drive_all, hear_all};
use crate::totals::{no_totals, position_of, totals_of};
use std::alloc::{AllocError, Global};
use std::marker::Model;
use t1s_acts::{UpcomingActs, first_states, wait_of};
use t1s_cable::Cable;
use t1s_line::{NodeTotals, OfferState, Wait, Watch};
use t1s_script::{Act, NodeLine};
use t1s_symbols::Heard;

/// Nodes over one cable, in their run.
#[derive(Drop)]
pub struct Engine<N> {
    tick: u64,
    end: u64,
    settled: Option<u64>,
    upcoming: UpcomingActs,
    // the tick after the last one of the noises that have begun
    noise_until: u64,
    nodes: Vec<N>,
    cable: Cable,
    totals: Vec<NodeTotals>,
    // each offer's state, at its number
    states: Vec<OfferState>,
    heard: Vec<(Heard, bool)>,
}

impl<N> Model for Engine<N> {
    ghost use Rattle.std.specs.Prelude.{◌≡◌, ◌≤◌, length};
    ghost use Rattle.t1s_base.specs.Limits.{most_nodes};
    ghost use Rattle.t1s_cable.specs.Stands.{no_puts};
    ghost use Rattle.t1s_segment.specs.State.{EngineState, AreHeard};

    ghost Value = { EngineState N };

    ghost view = { λ g. record {
      tick = g.tick;
      end = g.end;
      settled = g.settled;
      upcoming = g.upcoming;
      noise_until = g.noise_until;
      nodes = g.nodes.items;
      cable = g.cable;
      totals = g.totals.items;
      states = g.states.items;
      heard = g.heard.items;
    } };

    ghost invariant = { λ g. record {
      in_time : g.tick ≤ g.end;
      few : length g.cable.taps ≤ most_nodes;
      free : g.cable.row ≡ no_puts g.cable.taps;
      nodes_len : length g.nodes.items ≡ length g.cable.taps;
      totals_len : length g.totals.items ≡ length g.cable.taps;
      heard_len : length g.heard.items ≡ length g.cable.taps;
      heard_in_range : AreHeard g.heard.items;
    } };
}

/// The first tick in which every status was OK, after one more tick.
fn settled_after(settled: Option<u64>, tick: u64, ok: bool) -> Option<u64>
    ensures { result ≡ settled_after settled tick ok }
{
    match settled {
        None if ok => Some(tick),
        _ => settled,
    }
}

impl<N: NodeMachine + Drop> Engine<N> {
    ghost use Rattle.std.specs.Prelude.{◌≡◌, ℕ, ◌+◌, ◌<◌, ◌≤◌, ◌==◌, All, List, length, map, find, IfOk, IfSome, IsTrue, ◌↔◌};
    ghost use Rattle.std.specs.List.Sorted.{IsNonDecreasing};
    ghost use Rattle.t1s_base.specs.Limits.{most_nodes};
    ghost use Rattle.t1s_symbols.specs.Ranges.{IsHeard};
    ghost use Rattle.t1s_world.specs.Events.{SeesEvents};
    ghost use Rattle.t1s_script.specs.declared.script.Act.{Act};
    ghost use Rattle.t1s_script.specs.declared.script.NodeLine.{NodeLine};
    ghost use Rattle.t1s_script.specs.Limits.{longest_stub};
    ghost use Rattle.t1s_line.specs.declared.totals.NodeTotals.{NodeTotals};
    ghost use Rattle.t1s_line.specs.Offers.{wait_of};
    ghost use Rattle.t1s_line.specs.Runs.{events_in, last_heard_in, state_in};
    ghost use Rattle.t1s_segment.specs.Numbers.{AreNumbered};
    ghost use Rattle.t1s_line.specs.CalmRuns.{HasCalmTicks, IsCalmIn};
    ghost use Rattle.t1s_segment.specs.Stands.{Plays, ticks_left};
    ghost use Rattle.t1s_segment.specs.Stretches.{IsStretch};

    /// The run of these nodes, which stand in these lines of a script one by one, among these acts in the order of their
    /// ticks, before its first tick. A stub is at most 31 bit times long. It takes all other memory of the run.
    pub fn new(
        alloc: Global,
        lines: &[NodeLine],
        acts: &[Act],
        nodes: Vec<N>,
        end: u64,
    ) -> Result<Engine<N>, AllocError>
        requires some { 1 ≤ length lines.now }
        requires few { length lines.now ≤ most_nodes }
        requires short { All (λ (n : NodeLine). n.stub ≤ longest_stub) lines.now }
        requires numbered { AreNumbered N.phases lines.now nodes.items }
        requires in_order { IsNonDecreasing (map (λ (a : Act). a.tick) acts.now) }
        ensures { IfOk result (λ g. Plays N.phases acts.now lines.now nodes.items end 0 g) }
    {
        let upcoming = UpcomingActs::new(alloc, acts)?;
        let states = first_states(alloc, acts)?;
        let mut places = Vec::with_capacity(alloc, lines.len())?;
        let mut stubs = Vec::with_capacity(alloc, lines.len())?;
        let mut totals = Vec::with_capacity(alloc, lines.len())?;
        let mut heard = Vec::with_capacity(alloc, lines.len())?;
        for line in lines {
            places.push(line.place)?;
            stubs.push(line.stub)?;
            totals.push(no_totals(line.no))?;
            heard.push((Heard::Nothing, false))?;
        }
        let cable = Cable::new(alloc, places.as_slice(), stubs.as_slice())?;
        Ok(Engine {
            tick: 0,
            end,
            settled: None,
            upcoming,
            noise_until: 0,
            nodes,
            cable,
            totals,
            states,
            heard,
        })
    }

    /// The tick that is played next.
    pub fn now(&self) -> u64
        ensures { result ≡ self.now.tick }
    {
        self.tick
    }

    /// Whether every tick of the run has been played.
    pub fn at_end(&self) -> bool
        ensures { IsTrue result ↔ (ticks_left self.now ≡ 0) }
    {
        self.tick == self.end
    }

    /// Plays the tick `now()`, and tells the watch its events: the acts of the tick are done, all nodes drive, what they
    /// drive is put on the cable, and all nodes hear. It takes no memory.
    pub fn tick<W: Watch>(&mut self, watch: &mut W)
        requires { 0 < ticks_left self.old }
        ensures left { ticks_left self.new + 1 ≡ ticks_left self.old }
        ensures plays { (acts : List Act) (lines : List NodeLine) (first : List N) (end t : ℕ) →
            Plays N.phases acts lines first end t self.old → Plays N.phases acts lines first end (t + 1) self.new }
        ensures events { (acts : List Act) (lines : List NodeLine) (first : List N) (end t : ℕ) →
            Plays N.phases acts lines first end t self.old →
            SeesEvents W.sees watch.old (events_in N.phases acts lines first t) watch.new }
    {
        let tick = self.tick;
        self.noise_until = offer_all(
            self.nodes.as_mut_slice(),
            self.totals.as_mut_slice(),
            self.states.as_mut_slice(),
            &mut self.upcoming,
            self.noise_until,
            tick,
            watch,
        );
        let ok = drive_all(
            self.nodes.as_mut_slice(),
            self.totals.as_mut_slice(),
            self.states.as_mut_slice(),
            &mut self.cable,
            tick,
            watch,
        );
        self.settled = settled_after(self.settled, tick, ok);
        hear_all(
            self.nodes.as_mut_slice(),
            self.totals.as_mut_slice(),
            self.heard.as_mut_slice(),
            &self.cable,
            tick < self.noise_until,
            tick,
            watch,
        );
        self.cable.turn();
        self.tick = tick + 1;
    }

    /// For how many ticks from `now()` on, up to `most` and up to the end, nothing happens: no noise lasts and no act comes, all
    /// nodes are calm, and nothing on the cable reaches one. What is most often not so is looked at first.
    fn calm_for(&self, most: u64) -> u64
        ensures { IsStretch N.phases N.calm self.now most result }
    {
        let noisy = self.tick < self.noise_until;
        if noisy {
            return 0;
        }
        let most = most.min(self.end - self.tick);
        let calm = nodes_calm_for(self.nodes.as_slice(), self.tick, most);
        if calm == 0 {
            return 0;
        }
        let free = self.upcoming.free_for(self.tick, calm);
        self.cable.calm_for(free)
    }

    /// Plays the ticks from `now()` on in which nothing happens, up to `most` and up to the end, at once, and answers how many
    /// these are. It takes no memory, and its time does not grow with them.
    pub fn skip(&mut self, most: u64) -> u64
        requires { 0 < ticks_left self.old }
        ensures left { ticks_left self.new + result ≡ ticks_left self.old }
        ensures none { result ≡ 0 → self.new ≡ self.old }
        ensures within { result ≤ most }
        ensures plays { (acts : List Act) (lines : List NodeLine) (first : List N) (end t : ℕ) →
            HasCalmTicks N.phases N.holds N.calm N.passed → All N.holds first → 1 ≤ length lines →
            Plays N.phases acts lines first end t self.old → Plays N.phases acts lines first end (t + result) self.new }
        ensures calm { (acts : List Act) (lines : List NodeLine) (first : List N) (end t : ℕ) →
            HasCalmTicks N.phases N.holds N.calm N.passed → All N.holds first → 1 ≤ length lines →
            Plays N.phases acts lines first end t self.old →
            (k : ℕ) → t ≤ k → k < t + result → IsCalmIn N.phases N.calm acts lines first k }
        ensures ends { (acts : List Act) (lines : List NodeLine) (first : List N) (end t : ℕ) →
            HasCalmTicks N.phases N.holds N.calm N.passed → All N.holds first → 1 ≤ length lines →
            Plays N.phases acts lines first end t self.old →
            result < most → t + result < end → IsCalmIn N.phases N.calm acts lines first (t + result) → ⊥ }
    {
        let n = self.calm_for(most);
        if n == 0 {
            return 0;
        }
        pass_all(
            self.nodes.as_mut_slice(),
            self.heard.as_mut_slice(),
            self.tick,
            n,
        );
        self.cable.pass(n);
        self.tick += n;
        n
    }

    /// What the node with this number heard in the last tick that was played, and whether it drove in it. None where
    /// there is no such node, and where no tick was played.
    pub fn heard(&self, node: u8) -> Option<(Heard, bool)>
        ensures value { (acts : List Act) (lines : List NodeLine) (first : List N) (end t : ℕ) →
            Plays N.phases acts lines first end t self.now → result ≡ last_heard_in N.phases acts lines first node t }
        ensures range { IfSome result (λ r. IsHeard r.0) }
    {
        if self.tick == 0 {
            return None;
        }
        let j = position_of(self.totals.as_slice(), node)?;
        Some(self.heard[j])
    }

    /// The first tick in which every node's status was OK. None where there was none so far.
    pub fn settled(&self) -> Option<u64>
        ensures { result ≡ self.now.settled }
    {
        self.settled
    }

    /// What was counted at the node with this number so far. None where there is no such node.
    pub fn totals(&self, node: u8) -> Option<NodeTotals>
        ensures { result ≡ find (λ (n : NodeTotals). n.node == node) self.now.totals }
    {
        totals_of(self.totals.as_slice(), node)
    }

    /// What has become of the offer of this number so far. None where there is no such offer.
    pub fn wait(&self, number: u16) -> Option<Wait>
        ensures { (acts : List Act) (lines : List NodeLine) (first : List N) (end t : ℕ) →
            Plays N.phases acts lines first end t self.now → result ≡ wait_of (state_in N.phases acts lines first number t) }
    {
        wait_of(*self.states.get(usize::from(number))?)
    }
}
