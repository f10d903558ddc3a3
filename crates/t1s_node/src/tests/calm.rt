//! Silent ticks of single nodes, passed at once.

ghost use Rattle.std.specs.Prelude.{◌≤◌};

use super::*;

/// Passes the silent ticks in which a node is calm, up to so many: how many they are.
fn pass_calm(node: &mut Node, most: u64) -> u64
    ensures { result ≤ most }
{
    let calm = node.calm_for(most);
    node.pass(calm);
    calm
}

/// One silent tick: whether the node drives in it.
fn step_silent(node: &mut Node) -> bool {
    let drives = node.drive().quarter.is_some();
    let _ = node.hear(Heard::Nothing).clash;
    drives
}

#[test]
fn acts_after_its_calm_ticks(rt: HostRuntime) -> Result<(), Fail> {
    let mut node = node_of(coordinator_set(), rt.alloc())?;
    assert_eq!(rt; pass_calm(&mut node, 5000), u64::from(TICKS_BEFORE_BEACON));
    assert!(rt; step_silent(&mut node));
    assert_eq!(rt; node.calm_for(5000), 0);
    let mut node = follower(rt.alloc())?;
    assert_eq!(rt; node.calm_for(10), 10);
    let _ = node.drive();
    let _ = node.hear(heard_at(0, FIRST_BEACON)).clash;
    assert_eq!(rt; node.calm_for(10), 0);
    assert!(rt; !step_silent(&mut node));
    assert_eq!(rt; pass_calm(&mut node, 10), 10);
    Ok(())
}

/// What a node tells in a silence: its tally, and the sum of the numbers of the ticks in which it drives.
type Told = (Tally, u64);

const NOTHING_TOLD: Told = (NO_TALLY, 0);

/// With what a silent tick of this number tells.
fn told_more(told: Told, node: &mut Node, tick: u64) -> Told {
    let driven = node.drive();
    let _ = node.hear(Heard::Nothing).clash;
    let number = if driven.quarter.is_some() { tick } else { 0 };
    (tallied(told.0, driven), told.1.saturating_add(number))
}

/// What a node tells in so many silent ticks, step by step.
fn told_by_steps(node: &mut Node, ticks: u64) -> Told {
    let mut told = NOTHING_TOLD;
    for tick in 0..ticks {
        told = told_more(told, node, tick);
    }
    told
}

/// What it tells where each calm stretch is passed at once, and how many ticks are passed.
fn told_by_passes(node: &mut Node, ticks: u64) -> (Told, u64) {
    let mut told = NOTHING_TOLD;
    let mut passed: u64 = 0;
    let mut tick: u64 = 0;
    for _ in 0..ticks {
        let calm = pass_calm(node, ticks.saturating_sub(tick));
        passed = passed.saturating_add(calm);
        tick = tick.saturating_add(calm);
        if tick < ticks {
            told = told_more(told, node, tick);
            tick += 1;
        }
    }
    (told, passed)
}

/// A follower whose frame is jammed and backs off for a slot, so many ticks after the first beacon.
fn backing_off(alloc: Global, ticks: u16) -> Result<Node, Fail> {
    let ring = FrameRing::with_room(alloc, 1)?;
    let line = DelayLine::new(alloc)?;
    let draws = PickedDraws::List(ListDraws::new([1].to_vec(alloc)?));
    let mut node = Node::new(follower_set(), ring, line, draws);
    node.offer(queued(7)?)?;
    let commit = Burst {
        from: 200,
        ticks: 40,
        beacon: false,
    };
    let _ = run(&mut node, ticks, commit, &[]);
    Ok(node)
}

/// A coordinator that holds a frame.
fn sender(alloc: Global) -> Result<Node, Fail> {
    let mut node = node_of(coordinator_set(), alloc)?;
    node.offer(queued(7)?)?;
    Ok(node)
}

/// Whether one of two nodes tells step by step what the other tells where calm stretches are passed, and how many ticks
/// are passed.
fn told_alike(stepped: &mut Node, passed: &mut Node, ticks: u64) -> (bool, u64) {
    let told = told_by_steps(stepped, ticks);
    let (same, count) = told_by_passes(passed, ticks);
    (told == same, count)
}

#[test]
fn cycles_are_passed_as_they_are_stepped(rt: HostRuntime) -> Result<(), Fail> {
    let mut stepped = sender(rt.alloc())?;
    let mut passed = sender(rt.alloc())?;
    let (alike, ticks) = told_alike(&mut stepped, &mut passed, 6000);
    assert!(rt; alike);
    assert!(rt; ticks >= u64::from(TICKS_BEFORE_BEACON));
    Ok(())
}

#[test]
fn backoff_is_passed_as_it_is_stepped(rt: HostRuntime) -> Result<(), Fail> {
    let mut stepped = backing_off(rt.alloc(), 300)?;
    let mut passed = backing_off(rt.alloc(), 300)?;
    let (alike, ticks) = told_alike(&mut stepped, &mut passed, 9000);
    assert!(rt; alike);
    assert!(rt; ticks >= 8500);
    Ok(())
}

/// A beacon comes anew. Its end is read 4 ticks later, and the first opportunity of 32 ticks begins in the next one: after
/// 30 ticks 27 of it are left, and the last of these begins the own opportunity.
#[test]
fn opportunity_is_calm_up_to_its_last_tick(rt: HostRuntime) -> Result<(), Fail> {
    let mut node = backing_off(rt.alloc(), 1000)?;
    let _ = run(&mut node, 30, FIRST_BEACON, &[]);
    assert_eq!(rt; pass_calm(&mut node, 1000), 26);
    assert!(rt; step_silent(&mut node));
    Ok(())
}
