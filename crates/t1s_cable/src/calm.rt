//! How long no node hears anything where nothing more is put.
ghost use Rattle.std.specs.Prelude.{◌≡◌, ◌<◌, ◌≤◌, ℕ, true, false, get_or, is_some, length};
ghost use Rattle.t1s_harness.specs.Distances.{span, tap_at};
ghost use Rattle.t1s_world.specs.Hearing.{arriving};
ghost use Rattle.t1s_cable.specs.Calm.{AllHearNothing, OneHears, later};
ghost use Rattle.t1s_cable.specs.Rings.{put_at};
ghost use Rattle.t1s_cable.specs.Silence.{IsQuiet};

use crate::changes::Ring;
use crate::kept::put_at;
use t1s_harness::{Tap, between};
use t1s_symbols::Quarter;

/// Whether a quarter of node i is at node j, another one, `ticks` ticks later, where nothing is put in these.
fn arrives_later(
    taps: &[Tap],
    row: &[Option<Quarter>],
    rings: &[Ring],
    clock: u32,
    j: usize,
    i: usize,
    ticks: u16,
) -> bool
    requires in_range { j < length taps.now }
    requires other_in_range { i < length taps.now }
    requires row { length row.now ≡ length taps.now }
    requires rings { length rings.now ≡ length taps.now }
    ensures { result ≡ is_some (arriving (later ticks (put_at row.now rings.now clock)) j (tap_at taps.now j) i (tap_at taps.now i)) }
{
    if i == j {
        return false;
    }
    let away = between(&taps[j], &taps[i]);
    if away < ticks {
        return false;
    }
    put_at(row, rings, clock, i, away - ticks).is_some()
}

/// Whether a quarter of node i is then at another node.
fn reaches_later(
    taps: &[Tap],
    row: &[Option<Quarter>],
    rings: &[Ring],
    clock: u32,
    i: usize,
    ticks: u16,
) -> bool
    requires in_range { i < length taps.now }
    requires row { length row.now ≡ length taps.now }
    requires rings { length rings.now ≡ length taps.now }
    ensures yes { result ≡ true → (j : ℕ) × (j < length taps.now)
        × (is_some (arriving (later ticks (put_at row.now rings.now clock)) j (tap_at taps.now j) i (tap_at taps.now i)) ≡ true) }
    ensures no { result ≡ false → (j : ℕ) → j < length taps.now
        → is_some (arriving (later ticks (put_at row.now rings.now clock)) j (tap_at taps.now j) i (tap_at taps.now i)) ≡ false }
{
    for j in 0..taps.len() {
        if arrives_later(taps, row, rings, clock, j, i, ticks) {
            return true;
        }
    }
    false
}

/// Whether any node then hears anything. A node of which no quarter is still on its way isn't looked at.
fn is_heard_later(
    taps: &[Tap],
    row: &[Option<Quarter>],
    rings: &[Ring],
    clock: u32,
    carried: &[u16],
    ticks: u16,
) -> bool
    requires row { length row.now ≡ length taps.now }
    requires rings { length rings.now ≡ length taps.now }
    requires carried { length carried.now ≡ length taps.now }
    requires quiet { IsQuiet (span taps.now) (λ (k : ℕ). get_or carried.now k 0) (put_at row.now rings.now clock) }
    ensures yes { result ≡ true → OneHears taps.now (later ticks (put_at row.now rings.now clock)) }
    ensures no { result ≡ false → AllHearNothing taps.now (later ticks (put_at row.now rings.now clock)) }
{
    for i in 0..taps.len() {
        if carried[i] > ticks && reaches_later(taps, row, rings, clock, i, ticks) {
            return true;
        }
    }
    false
}

/// In how many ticks, up to `limit` and the current one first, no node hears anything, where nothing more is put in these: they
/// end before the first in which one does.
pub fn calm_ticks(
    taps: &[Tap],
    row: &[Option<Quarter>],
    rings: &[Ring],
    clock: u32,
    carried: &[u16],
    limit: u16,
) -> u16
    requires row { length row.now ≡ length taps.now }
    requires rings { length rings.now ≡ length taps.now }
    requires carried { length carried.now ≡ length taps.now }
    requires quiet { IsQuiet (span taps.now) (λ (k : ℕ). get_or carried.now k 0) (put_at row.now rings.now clock) }
    ensures limit { result ≤ limit }
    ensures calm { (n : ℕ) → n < result → AllHearNothing taps.now (later n (put_at row.now rings.now clock)) }
    ensures heard { result < limit → OneHears taps.now (later result (put_at row.now rings.now clock)) }
{
    for n in 0..limit {
        if is_heard_later(taps, row, rings, clock, carried, n) {
            return n;
        }
    }
    limit
}
