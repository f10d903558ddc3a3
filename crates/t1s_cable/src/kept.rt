//! What a cable keeps of each node, and what a node hears of it.
ghost use Rattle.std.specs.Prelude.{◌≡◌, ◌<◌, ◌≤◌, ◌-◌, ℕ, All, get_or, length, map, IfOk};
ghost use Rattle.t1s_harness.specs.Distances.{span, tap_at};
ghost use Rattle.t1s_world.specs.Hearing.{arriving, heard};
ghost use Rattle.t1s_cable.specs.Rings.{put_at};
ghost use Rattle.t1s_cable.specs.Silence.{IsQuiet};
ghost use Rattle.t1s_cable.specs.Taps.{most_span, most_stub, taps_of};

use crate::changes::{Ring, drove};
use std::alloc::{AllocError, Global};
use t1s_harness::{Tap, between};
use t1s_symbols::{Heard, Quarter};
use t1s_world::heard_with;

/// Where the nodes hang, from their places and their stubs.
pub fn taps_of(alloc: Global, places: &[u8], stubs: &[u8]) -> Result<Vec<Tap>, AllocError>
    requires paired { length stubs.now ≡ length places.now }
    requires stubs { All (λ stub. stub ≤ most_stub) stubs.now }
    ensures taps { IfOk result (λ v. v.items ≡ taps_of places.now stubs.now) }
    ensures short { IfOk result (λ v. span v.items ≤ most_span) }
{
    let mut taps = Vec::with_capacity(alloc, places.len())?;
    for i in 0..places.len() {
        taps.push(Tap {
            place: places[i],
            stub: stubs[i],
        })?;
    }
    Ok(taps)
}

/// Counts one tick less for each node.
pub fn count_down(ticks: &mut [u16])
    ensures { ticks.new ≡ map (λ (n : ℕ). n - 1) ticks.old }
{
    for left in ticks.iter_mut() {
        *left = left.saturating_sub(1);
    }
}

/// What node i drove `depth` ticks ago, as far as it is kept. `clock` is the number of the current tick.
pub fn put_at(
    row: &[Option<Quarter>],
    rings: &[Ring],
    clock: u32,
    i: usize,
    depth: u16,
) -> Option<Quarter>
    requires in_range { i < length row.now }
    requires lengths { length rings.now ≡ length row.now }
    ensures { result ≡ put_at row.now rings.now clock i depth }
{
    if depth == 0 {
        row[i]
    } else {
        drove(&rings[i], clock.saturating_sub(u32::from(depth)))
    }
}

/// The quarter of node i that reaches node j in this tick.
fn arriving(
    taps: &[Tap],
    row: &[Option<Quarter>],
    rings: &[Ring],
    clock: u32,
    carried: &[u16],
    j: usize,
    i: usize,
) -> Option<Quarter>
    requires in_range { j < length taps.now }
    requires other_in_range { i < length taps.now }
    requires row { length row.now ≡ length taps.now }
    requires rings { length rings.now ≡ length taps.now }
    requires carried { length carried.now ≡ length taps.now }
    requires quiet { IsQuiet (span taps.now) (λ (k : ℕ). get_or carried.now k 0) (put_at row.now rings.now clock) }
    ensures { result ≡ arriving (put_at row.now rings.now clock) j (tap_at taps.now j) i (tap_at taps.now i) }
{
    if carried[i] == 0 {
        return None;
    }
    if i == j {
        None
    } else {
        put_at(row, rings, clock, i, between(&taps[j], &taps[i]))
    }
}

/// What node j hears in this tick.
pub fn hear_at(
    taps: &[Tap],
    row: &[Option<Quarter>],
    rings: &[Ring],
    clock: u32,
    carried: &[u16],
    j: usize,
) -> Heard
    requires in_range { j < length taps.now }
    requires row { length row.now ≡ length taps.now }
    requires rings { length rings.now ≡ length taps.now }
    requires carried { length carried.now ≡ length taps.now }
    requires quiet { IsQuiet (span taps.now) (λ (k : ℕ). get_or carried.now k 0) (put_at row.now rings.now clock) }
    ensures { result ≡ heard (put_at row.now rings.now clock) taps.now j }
{
    let mut heard = Heard::Nothing;
    for i in 0..taps.len() {
        heard = heard_with(heard, arriving(taps, row, rings, clock, carried, j, i));
    }
    heard
}
