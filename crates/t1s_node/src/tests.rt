//! Single nodes, tick by tick: what they send is heard by a receiver of its own.

ghost use Rattle.std.specs.Prelude.{◌≤◌, IfSome};
ghost use Rattle.t1s_symbols.specs.Ranges.{IsHeard, IsQuarter};
ghost use Rattle.t1s_node.specs.Node.{IsNodeSet};

use super::*;
use plca_control::ControlSet;
use std::alloc::Global;
use std::test::Fail;
use t1s_base::Ids;
use t1s_frame::Frame;
use t1s_mac::{ListDraws, MacNote, PickedDraws};
use t1s_pcs_rx::{Closer, Kind, PcsRx, RxEvent};
use t1s_pcs_tx::{PcsTx, TxCmd, TxIn};
use t1s_ring::{DelayLine, FrameRing, Queued};
use t1s_symbols::{Heard, Quarter, Symbol};

mod calm;

/// How long a beacon lasts, in ticks.
const BEACON_TICKS: u16 = 20;

/// One of two nodes, with this ID alone, and opportunities of so many ticks.
fn set_of(id: u8, to: u8) -> NodeSet
    requires low { 16 ≤ to }
    ensures { IsNodeSet result }
{
    NodeSet {
        control: ControlSet {
            ids: Ids::one(id),
            count: 2,
            to,
            burst: 0,
        },
        rise: 2,
        fall: 4,
    }
}

/// A follower of two nodes.
fn follower_set() -> NodeSet
    ensures { IsNodeSet result }
{
    set_of(1, 32)
}

/// The coordinator of two nodes, with the shortest opportunities.
fn coordinator_set() -> NodeSet
    ensures { IsNodeSet result }
{
    set_of(0, 16)
}

/// The silent ticks before the first beacon of that coordinator: 258 opportunities.
const TICKS_BEFORE_BEACON: u16 = 4128;

/// A node that holds nothing, with room for one frame.
fn node_of(set: NodeSet, alloc: Global) -> Result<Node, Fail>
    requires { IsNodeSet set }
{
    let ring = FrameRing::with_room(alloc, 1)?;
    let line = DelayLine::new(alloc)?;
    let draws = PickedDraws::List(ListDraws::new(Vec::new(alloc)));
    Ok(Node::new(set, ring, line, draws))
}

fn follower(alloc: Global) -> Result<Node, Fail> {
    node_of(follower_set(), alloc)
}

fn queued(number: u16) -> Result<Queued, Fail> {
    let frame = Frame::of_offer(&[0; 60])?;
    Ok(Queued { number, frame })
}

/// A burst that is heard: from which tick on, for how many ticks, and whether it is a beacon, or else J.
#[derive(Clone, Copy)]
struct Burst {
    from: u16,
    ticks: u16,
    beacon: bool,
}

/// What is heard in a tick: a beacon at the start, and the burst.
fn heard_at(tick: u16, burst: Burst) -> Heard
    ensures { IsHeard result }
{
    let place = tick.saturating_sub(burst.from);
    if tick < BEACON_TICKS {
        Heard::One(Quarter {
            sym: Symbol::N,
            part: (tick % 4) as u8,
        })
    } else if tick >= burst.from && place < burst.ticks {
        Heard::One(Quarter {
            sym: if burst.beacon { Symbol::N } else { Symbol::J },
            part: (place % 4) as u8,
        })
    } else {
        Heard::Nothing
    }
}

/// What the others hear of a node.
fn spoken(quarter: Option<Quarter>) -> Heard
    requires { IfSome quarter IsQuarter }
    ensures { IsHeard result }
{
    match quarter {
        Some(quarter) => Heard::One(quarter),
        None => Heard::Nothing,
    }
}

/// A piece: its lead, its nibbles, its closer and its kind.
type Shown = (u16, u16, Closer, Kind);

/// What the pieces of a run come to: how many, the last one, and whether its frame was the wanted one.
#[derive(Clone, Copy)]
struct Pieces {
    count: u16,
    last: Option<Shown>,
    same: bool,
}

const NO_PIECES: Pieces = Pieces {
    count: 0,
    last: None,
    same: false,
};

/// The pieces with those of one tick more, in which a receiver hears a node.
fn read(pieces: Pieces, rx: &mut PcsRx, quarter: Option<Quarter>, octets: &[u8]) -> Pieces
    requires { IfSome quarter IsQuarter }
{
    match rx.hear(spoken(quarter), false) {
        RxEvent::Piece(view) => Pieces {
            count: pieces.count.saturating_add(1),
            last: Some((view.lead, view.groups, view.closer, view.kind)),
            same: view.frame == octets,
        },
        RxEvent::Nothing => pieces,
    }
}

/// What a node tells in a run: the last frame that leaves, how many leave, the last note, how many notes there are, the
/// ticks of a clash, and whether the status is OK in the end.
#[derive(Clone, Copy, PartialEq, Eq, Debug)]
struct Tally {
    leaves: Option<u16>,
    left: u16,
    note: MacNote,
    notes: u16,
    clashes: u16,
    ok: bool,
}

const NO_TALLY: Tally = Tally {
    leaves: None,
    left: 0,
    note: MacNote::None,
    notes: 0,
    clashes: 0,
    ok: false,
};

/// The tally with one drive phase more.
fn tallied(tally: Tally, driven: Driven) -> Tally {
    let noted = driven.note != MacNote::None;
    Tally {
        leaves: driven.leaves.or(tally.leaves),
        left: tally
            .left
            .saturating_add(u16::from(driven.leaves.is_some())),
        note: if noted { driven.note } else { tally.note },
        notes: tally.notes.saturating_add(u16::from(noted)),
        clashes: tally.clashes,
        ok: driven.ok,
    }
}

/// Runs a node for so many ticks, and reads what it sends.
fn run(node: &mut Node, ticks: u16, burst: Burst, octets: &[u8]) -> (Tally, Pieces) {
    let mut tally = NO_TALLY;
    let mut pieces = NO_PIECES;
    let mut rx = PcsRx::new();
    for tick in 0..ticks {
        let driven = node.drive();
        pieces = read(pieces, &mut rx, driven.quarter, octets);
        tally = tallied(tally, driven);
        if node.hear(heard_at(tick, burst)).clash {
            tally.clashes = tally.clashes.saturating_add(1);
        }
    }
    (tally, pieces)
}

#[test]
fn follower_that_hears_a_beacon_in_time_sends_its_frame_whole(rt: HostRuntime) -> Result<(), Fail> {
    let offer = queued(7)?;
    let frame = offer.frame.copy();
    let mut node = follower(rt.alloc())?;
    node.offer(offer)?;
    let beacon = Burst {
        from: 200,
        ticks: BEACON_TICKS,
        beacon: true,
    };
    let (tally, pieces) = run(&mut node, 1000, beacon, frame.octets());
    let told = Tally {
        leaves: Some(7),
        left: 1,
        note: MacNote::Sent(7),
        notes: 1,
        clashes: 0,
        ok: true,
    };
    assert_eq!(rt; tally, told);
    assert_eq!(rt; pieces.count, 1);
    assert_eq!(rt; pieces.last, Some((2, 140, Closer::R, Kind::Good)));
    assert!(rt; pieces.same);
    Ok(())
}

#[test]
fn frame_in_hold_is_jammed_where_another_node_sends(rt: HostRuntime) -> Result<(), Fail> {
    let offer = queued(7)?;
    let mut node = follower(rt.alloc())?;
    node.offer(offer)?;
    let commit = Burst {
        from: 200,
        ticks: 40,
        beacon: false,
    };
    let (tally, pieces) = run(&mut node, 1000, commit, &[]);
    let told = Tally {
        leaves: None,
        left: 0,
        note: MacNote::Jam(7),
        notes: 1,
        clashes: 0,
        ok: true,
    };
    assert_eq!(rt; tally, told);
    assert_eq!(rt; pieces.count, 0);
    Ok(())
}

#[test]
fn full_ring_refuses_an_offer(rt: HostRuntime) -> Result<(), Fail> {
    let (first, second) = (queued(1)?, queued(2)?);
    let mut node = follower(rt.alloc())?;
    node.offer(first)?;
    let refused = node.offer(second);
    assert_eq!(rt; refused.map_err(|back| back.number), Err(2));
    Ok(())
}

#[test]
fn several_signals_clash(rt: HostRuntime) -> Result<(), Fail> {
    let mut node = follower(rt.alloc())?;
    let beacon = heard_at(0, FIRST_BEACON);
    let _ = node.drive();
    assert!(rt; !node.hear(Heard::Nothing).clash);
    let _ = node.drive();
    assert!(rt; !node.hear(beacon).clash);
    let _ = node.drive();
    assert!(rt; node.hear(Heard::Many).clash);
    Ok(())
}

/// Runs a node for so many silent ticks: in how many of them it drives.
fn run_silent(node: &mut Node, ticks: u16) -> u16 {
    let mut driven: u16 = 0;
    for _ in 0..ticks {
        driven = driven.saturating_add(u16::from(node.drive().quarter.is_some()));
        let _ = node.hear(Heard::Nothing).clash;
    }
    driven
}

#[test]
fn any_signal_in_a_drive_clashes(rt: HostRuntime) -> Result<(), Fail> {
    let mut node = node_of(coordinator_set(), rt.alloc())?;
    assert_eq!(rt; run_silent(&mut node, TICKS_BEFORE_BEACON), 0);
    assert!(rt; node.drive().quarter.is_some());
    assert!(rt; node.hear(heard_at(0, FIRST_BEACON)).clash);
    assert!(rt; node.drive().quarter.is_some());
    assert!(rt; !node.hear(Heard::Nothing).clash);
    Ok(())
}

/// No burst after the first beacon.
const FIRST_BEACON: Burst = Burst {
    from: 0,
    ticks: 0,
    beacon: true,
};

/// How many symbols J go out before the first nibble is there.
const COMMITTED: u16 = 2;

/// The pieces that a receiver reads of a new transmitter whose nibbles come one a symbol.
fn relayed(alloc: Global, frame: &Frame) -> Result<Pieces, Fail> {
    let mut line = DelayLine::new(alloc)?;
    let mut tx = PcsTx::start();
    let mut rx = PcsRx::new();
    let mut pieces = NO_PIECES;
    let end = COMMITTED.saturating_add(frame.nibble_count());
    for symbol in 0..end.saturating_add(2) {
        if symbol >= COMMITTED
            && let Some(nibble) = frame.nibble_at(symbol - COMMITTED)
        {
            let _ = line.push(nibble);
        }
        for _ in 0..4 {
            let told = TxIn {
                cmd: TxCmd::Commit,
                ended: symbol >= end,
                bad: false,
            };
            let (next, driven) = tx.step(told, &mut line);
            tx = next;
            pieces = read(pieces, &mut rx, driven, frame.octets());
        }
    }
    Ok(pieces)
}

#[test]
fn frame_that_is_sent_is_read_as_one_good_piece(rt: HostRuntime) -> Result<(), Fail> {
    let frame = Frame::of_offer(&[0; 60])?;
    let pieces = relayed(rt.alloc(), &frame)?;
    assert_eq!(rt; pieces.count, 1);
    assert_eq!(rt; pieces.last, Some((4, 140, Closer::R, Kind::Good)));
    assert!(rt; pieces.same);
    Ok(())
}
