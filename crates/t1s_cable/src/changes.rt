//! What a node drove, kept as a ring of changes.
ghost use Rattle.std.specs.Prelude.{◌≡◌, ◌+◌, ◌≤◌, ◌<◌, ℕ, true, [], length, map, replicate, None, IfOk, IfSome};
ghost use Rattle.circular_buffer.specs.Buffer.{buffer};
ghost use Rattle.t1s_symbols.specs.Ranges.{IsQuarter};
ghost use Rattle.t1s_cable.specs.Changes.{EndsTick, IsRing, KeepsRow, KeepsTick, SameRings, advanced, drove, lap, renumbered, ring_at};
ghost use Rattle.t1s_cable.specs.Rings.{AreQuarters};

use circular_buffer::HeapCircularBuffer;
use std::alloc::{AllocError, Global};
use t1s_symbols::Quarter;

/// A tick, and what a node begins in it: silence, or a symbol with the part that it begins with. It goes on until the next
/// change, the symbol repeated after its last part.
#[derive(Clone, Copy)]
pub struct Change {
    pub tick: u32,
    pub begins: Option<Quarter>,
}

/// What a node drove in the ticks before the current one, as changes, the newest first.
pub type Ring = HeapCircularBuffer<Change>;

/// By so many ticks their numbers are made lower, each time they have come to twice as many. Four divides it.
const LAP: u32 = 32_768;

/// A ring with room for a change in each tick that is kept before the current one, as many as the cable spans, and one more.
pub fn new_ring(alloc: Global, span: u16) -> Result<Ring, AllocError>
    ensures { IfOk result (λ r. r ≡ buffer [] (span + 1)) }
{
    HeapCircularBuffer::with_capacity(alloc, usize::from(span) + 1)
}

/// What goes on from `begins` for so many ticks.
fn advanced(begins: Option<Quarter>, ticks: u32) -> Option<Quarter>
    ensures { result ≡ advanced begins ticks }
{
    match begins {
        None => None,
        Some(quarter) => Some(Quarter {
            sym: quarter.sym,
            part: ((u64::from(quarter.part) + u64::from(ticks)) % 4) as u8,
        }),
    }
}

/// What a node drove in a tick.
pub fn drove(ring: &Ring, tick: u32) -> Option<Quarter>
    ensures { result ≡ drove ring.now.items tick }
{
    for change in ring.iter() {
        if change.tick <= tick {
            return advanced(change.begins, tick - change.tick);
        }
    }
    None
}

/// Whether what was put is what would have gone on.
fn is_same(put: Option<Quarter>, goes_on: Option<Quarter>) -> bool
    ensures { result ≡ true → goes_on ≡ put }
{
    put == goes_on
}

/// Keeps what a node drives in a tick, the newest one: a change, unless it is what went on anyway.
fn keep(ring: &mut Ring, tick: u32, quarter: Option<Quarter>)
    requires ring { IsRing tick ring.old }
    requires quarter { IfSome quarter IsQuarter }
    ensures { KeepsTick tick quarter ring.old ring.new }
{
    if is_same(quarter, drove(ring, tick)) {
        return;
    }
    ring.push_front(Change {
        tick,
        begins: quarter,
    });
}

/// Keeps what all nodes drive in a tick, node by node, and leaves a row in which nothing is put yet.
fn keep_row(row: &mut [Option<Quarter>], rings: &mut [Ring], tick: u32)
    requires lengths { length rings.old ≡ length row.old }
    requires quarters { AreQuarters row.old }
    requires rings { (i : ℕ) → i < length rings.old → IsRing tick (ring_at rings.old i) }
    ensures row { row.new ≡ replicate (length row.old) None }
    ensures rings { KeepsRow tick row.old rings.old rings.new }
{
    for i in 0..row.len() {
        keep(&mut rings[i], tick, row[i]);
        row[i] = None;
    }
}

/// A change whose tick is told as one a lap before.
fn renumbered(change: Change) -> Change
    ensures { result ≡ renumbered change }
{
    let tick = if change.tick < LAP {
        change.tick % 4
    } else {
        change.tick - LAP
    };
    Change {
        tick,
        begins: change.begins,
    }
}

/// Tells all ticks of a ring as those a lap before.
fn renumber(ring: &mut Ring)
    ensures { ring.new ≡ buffer (map renumbered ring.old.items) ring.old.capacity }
{
    for _told in 0..ring.len() {
        if let Some(change) = ring.pop_front() {
            ring.push_back(renumbered(change));
        }
    }
}

/// Tells the ticks of all rings as those a lap before.
fn renumber_all(rings: &mut [Ring])
    requires { (i : ℕ) → i < length rings.old → IsRing (lap + lap) (ring_at rings.old i) }
    ensures { SameRings (lap + lap) lap rings.old rings.new }
{
    for i in 0..rings.len() {
        renumber(&mut rings[i]);
    }
}

/// The number by which the current tick goes from here on: it is lower by a lap once it has come to two laps.
fn low_tick(rings: &mut [Ring], clock: u32) -> u32
    requires clock { clock ≤ lap + lap }
    requires rings { (i : ℕ) → i < length rings.old → IsRing clock (ring_at rings.old i) }
    ensures { SameRings clock result rings.old rings.new }
{
    if clock < 2 * LAP {
        return clock;
    }
    renumber_all(rings);
    LAP
}

/// Ends a tick: each ring keeps what its node drove, and nothing is put yet in the next tick, whose number it answers.
pub fn end_tick(row: &mut [Option<Quarter>], rings: &mut [Ring], clock: u32) -> u32
    requires lengths { length rings.old ≡ length row.old }
    requires clock { clock ≤ lap + lap }
    requires quarters { AreQuarters row.old }
    requires rings { (i : ℕ) → i < length rings.old → IsRing clock (ring_at rings.old i) }
    ensures row { row.new ≡ replicate (length row.old) None }
    ensures rings { EndsTick clock result row.old rings.old rings.new }
{
    let tick = low_tick(rings, clock);
    keep_row(row, rings, tick);
    tick + 1
}
