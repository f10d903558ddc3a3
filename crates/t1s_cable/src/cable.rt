//! `Cable`, on which the nodes of a segment put what they drive.
use crate::calm::calm_ticks;
use crate::changes::{Ring, end_tick, new_ring};
use crate::kept::{count_down, hear_at, taps_of};
use std::alloc::{AllocError, Global};
use std::marker::Model;
use t1s_harness::{Tap, span};
use t1s_symbols::{Heard, Quarter};

/// The cable of a segment in its run. Its nodes are named by their positions among the taps.
#[derive(Drop)]
pub struct Cable {
    taps: Vec<Tap>,
    row: Vec<Option<Quarter>>,
    /// The number of the current tick.
    clock: u32,
    rings: Vec<Ring>,
    /// The span of the taps.
    reach: u16,
    /// Of each node: in how many ticks, the current one included, a quarter of it may still be on its way.
    carried: Vec<u16>,
    /// In how many ticks, the current one included, any quarter may still be on its way.
    busy: u16,
}

impl Model for Cable {
    ghost use Rattle.std.specs.Prelude.{◌≡◌, ℕ, ◌+◌, ◌≤◌, get_or, length};
    ghost use Rattle.t1s_harness.specs.Distances.{span};
    ghost use Rattle.t1s_cable.specs.Changes.{lap};
    ghost use Rattle.t1s_cable.specs.Rings.{AreQuarters, AreRings, put_at};
    ghost use Rattle.t1s_cable.specs.Silence.{IsQuiet};
    ghost use Rattle.t1s_cable.specs.State.{CableState};
    ghost use Rattle.t1s_cable.specs.Taps.{most_span};

    ghost Value = { CableState };

    ghost view = { λ c. record {
      taps = c.taps.items;
      row = c.row.items;
      clock = c.clock;
      rings = c.rings.items;
    } };

    ghost invariant = { λ c. record {
      row_len : length c.row.items ≡ length c.taps.items;
      rings_len : length c.rings.items ≡ length c.taps.items;
      carried_len : length c.carried.items ≡ length c.taps.items;
      reach : c.reach ≡ span c.taps.items;
      short : c.reach ≤ most_span;
      clock : c.clock ≤ lap + lap;
      quarters : AreQuarters c.row.items;
      rings : AreRings (span c.taps.items) c.clock c.rings.items;
      quiet_nodes : IsQuiet (span c.taps.items) (λ (i : ℕ). get_or c.carried.items i 0) (put_at c.row.items c.rings.items c.clock);
      quiet : IsQuiet (span c.taps.items) (λ (i : ℕ). c.busy) (put_at c.row.items c.rings.items c.clock);
    } };
}

impl Cable {
    ghost use Rattle.std.specs.Prelude.{◌≡◌, ℕ, ◌+◌, ◌<◌, ◌≤◌, ◌==◌, All, List, Option, None, [], ◌∷◌, length, get_or, set, if◌then◌else◌, IfOk, IfSome};
    ghost use Rattle.t1s_symbols.specs.Ranges.{IsHeard, IsQuarter};
    ghost use Rattle.t1s_symbols.specs.declared.Quarter.{Quarter};
    ghost use Rattle.t1s_world.specs.Hearing.{heard};
    ghost use Rattle.t1s_base.specs.Limits.{most_nodes};
    ghost use Rattle.t1s_world.specs.World.{at_depth};
    ghost use Rattle.t1s_cable.specs.Calm.{after_silence, IsCalm, IsHeardIn};
    ghost use Rattle.t1s_cable.specs.Stands.{Stands, no_puts};
    ghost use Rattle.t1s_cable.specs.Taps.{most_stub, taps_of};

    /// A cable with 1 to 32 nodes, in its first tick, in which nothing is put yet. Node i hangs at place i of the
    /// trunk by stub i, both in whole bit times; a stub is at most 31 long. The two lists have the same length. It
    /// takes all memory of the run, room for what each node puts in as many ticks as the cable spans, and the
    /// current one.
    pub fn new(alloc: Global, places: &[u8], stubs: &[u8]) -> Result<Cable, AllocError>
        requires some { 1 ≤ length places.now }
        requires few { length places.now ≤ most_nodes }
        requires paired { length stubs.now ≡ length places.now }
        requires stubs { All (λ stub. stub ≤ most_stub) stubs.now }
        ensures taps { IfOk result (λ c. c.taps ≡ taps_of places.now stubs.now) }
        ensures row { IfOk result (λ c. c.row ≡ no_puts (taps_of places.now stubs.now)) }
        ensures stands { IfOk result (λ c. Stands (no_puts (taps_of places.now stubs.now) ∷ []) c) }
    {
        let taps = taps_of(alloc, places, stubs)?;
        let reach = span(taps.as_slice());
        let mut row = Vec::with_capacity(alloc, places.len())?;
        let mut rings = Vec::with_capacity(alloc, places.len())?;
        let mut carried = Vec::with_capacity(alloc, places.len())?;
        for _node in 0..places.len() {
            row.push(None)?;
            rings.push(new_ring(alloc, reach)?)?;
            carried.push(0)?;
        }
        Ok(Cable {
            taps,
            row,
            clock: u32::from(reach),
            rings,
            reach,
            carried,
            busy: 0,
        })
    }

    /// Puts what a node drives in the current tick. The node is a position among the taps, and nothing was
    /// put for it in this tick; a nibble in the quarter is below 16, and its part below 4. A node for which
    /// nothing is put drives nothing. It takes no memory.
    pub fn put(&mut self, node: u8, q: Option<Quarter>)
        requires node { node < length self.old.taps }
        requires free { get_or self.old.row node None ≡ None }
        requires quarter { IfSome q IsQuarter }
        ensures taps { self.new.taps ≡ self.old.taps }
        ensures row { self.new.row ≡ set self.old.row node q }
        ensures stands { (row : List (Option Quarter)) (past : List (List (Option Quarter))) →
            Stands (row ∷ past) self.old → Stands (set row node q ∷ past) self.new }
    {
        if q.is_none() {
            return;
        }
        let node = usize::from(node);
        let ticks = self.reach + 1;
        self.row[node] = q;
        self.carried[node] = ticks;
        self.busy = ticks;
    }

    /// What a node hears in the current tick, asked once all has been put: of each other node what it drove
    /// as many ticks ago as it is far away. The node is a position among the taps. There is no noise.
    pub fn heard(&self, node: u8) -> Heard
        requires { node < length self.now.taps }
        ensures value { (rows : List (List (Option Quarter))) →
            Stands rows self.now → result ≡ heard (at_depth rows) self.now.taps node }
        ensures range { IsHeard result }
    {
        if self.busy == 0 {
            return Heard::Nothing;
        }
        hear_at(
            self.taps.as_slice(),
            self.row.as_slice(),
            self.rings.as_slice(),
            self.clock,
            self.carried.as_slice(),
            usize::from(node),
        )
    }

    /// Ends the tick: what was put stays in the history, and nothing is put yet in the next tick. It takes no
    /// memory.
    pub fn turn(&mut self)
        ensures taps { self.new.taps ≡ self.old.taps }
        ensures row { self.new.row ≡ no_puts self.old.taps }
        ensures stands { (rows : List (List (Option Quarter))) →
            Stands rows self.old → Stands (no_puts self.old.taps ∷ rows) self.new }
    {
        if self.busy == 0 {
            return;
        }
        self.clock = end_tick(
            self.row.as_mut_slice(),
            self.rings.as_mut_slice(),
            self.clock,
        );
        count_down(self.carried.as_mut_slice());
        self.busy -= 1;
    }

    /// In how many ticks, up to `most` and the current one first, no node hears anything, where nothing more is put in these:
    /// they end before the first tick in which a quarter that is on its way reaches a node. Its time grows with the cable and
    /// not with `most`.
    pub fn calm_for(&self, most: u64) -> u64
        ensures most { result ≤ most }
        ensures calm { (rows : List (List (Option Quarter))) → Stands rows self.now → (n : ℕ) → n < result →
            IsCalm self.now.taps (after_silence self.now.taps n rows) }
        ensures greatest { (rows : List (List (Option Quarter))) → Stands rows self.now → result < most →
            IsHeardIn self.now.taps (after_silence self.now.taps result rows) }
    {
        let limit = most.min(u64::from(self.busy)) as u16;
        let calm = calm_ticks(
            self.taps.as_slice(),
            self.row.as_slice(),
            self.rings.as_slice(),
            self.clock,
            self.carried.as_slice(),
            limit,
        );
        if calm < limit { u64::from(calm) } else { most }
    }

    /// Ends n ticks, the current one and those after it, in which nothing is put: it leaves what n calls of `turn` leave. Its time
    /// grows with the cable and not with n.
    #[tactic(auto, unfolding(crate::specs::Calm::after_silence))]
    pub fn pass(&mut self, n: u64)
        ensures taps { self.new.taps ≡ self.old.taps }
        ensures row { self.new.row ≡ (if n == 0 then self.old.row else no_puts self.old.taps) }
        ensures stands { (rows : List (List (Option Quarter))) →
            Stands rows self.old → Stands (after_silence self.old.taps n rows) self.new }
    {
        for _passed in 0..n {
            if self.busy == 0 {
                return;
            }
            self.turn();
        }
    }
}
