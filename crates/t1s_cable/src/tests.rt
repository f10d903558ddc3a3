ghost use Rattle.std.specs.Prelude.{◌≡◌, length, IfSome};
ghost use Rattle.t1s_symbols.specs.Ranges.{IsQuarter};

use super::*;
use std::process::Abort;
use std::test::Fail;
use t1s_symbols::{Heard, Quarter, Symbol};

/// A quarter of a beacon.
const BEACON: Quarter = Quarter {
    sym: Symbol::N,
    part: 0,
};

/// A quarter of a commit.
const COMMIT: Quarter = Quarter {
    sym: Symbol::J,
    part: 2,
};

/// Turns to the next tick, in which each of three nodes drives what is given here.
fn play(cable: &mut Cable, first: Option<Quarter>, second: Option<Quarter>, third: Option<Quarter>)
    requires nodes { length cable.old.taps ≡ 3 }
    requires first { IfSome first IsQuarter }
    requires second { IfSome second IsQuarter }
    requires third { IfSome third IsQuarter }
    ensures { length cable.new.taps ≡ 3 }
{
    cable.turn();
    cable.put(0, first);
    cable.put(1, second);
    cable.put(2, third);
}

/// Turns through ticks in which nothing is put.
fn wait(cable: &mut Cable, ticks: u64)
    requires { length cable.old.taps ≡ 3 }
    ensures { length cable.new.taps ≡ 3 }
{
    for _ in 0..ticks {
        cable.turn();
    }
}

/// Turns through these ticks. In each of them the first node drives one more part of a commit.
fn commit(cable: &mut Cable, from: u32, to: u32)
    requires { length cable.old.taps ≡ 3 }
    ensures { length cable.new.taps ≡ 3 }
{
    for tick in from..to {
        cable.turn();
        cable.put(0, Some(commit_at(tick)));
    }
}

/// The part of a commit that is driven in a tick.
fn commit_at(tick: u32) -> Quarter
    ensures { IsQuarter result }
{
    Quarter {
        sym: Symbol::J,
        part: (tick % 4) as u8,
    }
}

/// Compares what the three nodes hear.
fn check_heard(rt: &impl Abort, cable: &Cable, want: [Heard; 3])
    requires { length cable.now.taps ≡ 3 }
{
    assert_eq!(rt; cable.heard(0), want[0]);
    assert_eq!(rt; cable.heard(1), want[1]);
    assert_eq!(rt; cable.heard(2), want[2]);
}

#[test]
fn a_quarter_is_heard_as_late_as_its_node_is_far_away(rt: HostRuntime) -> Result<(), Fail> {
    let mut cable = Cable::new(rt.alloc(), &[0, 2, 5], &[0, 0, 0])?;
    cable.put(1, Some(BEACON));
    check_heard(
        &rt,
        &cable,
        [Heard::Nothing, Heard::Nothing, Heard::Nothing],
    );
    wait(&mut cable, 1);
    check_heard(
        &rt,
        &cable,
        [Heard::Nothing, Heard::Nothing, Heard::Nothing],
    );
    wait(&mut cable, 1);
    check_heard(
        &rt,
        &cable,
        [Heard::One(BEACON), Heard::Nothing, Heard::Nothing],
    );
    wait(&mut cable, 1);
    check_heard(
        &rt,
        &cable,
        [Heard::Nothing, Heard::Nothing, Heard::One(BEACON)],
    );
    wait(&mut cable, 1);
    check_heard(
        &rt,
        &cable,
        [Heard::Nothing, Heard::Nothing, Heard::Nothing],
    );
    Ok(())
}

#[test]
fn the_farther_node_is_heard_later(rt: HostRuntime) -> Result<(), Fail> {
    let mut cable = Cable::new(rt.alloc(), &[0, 2, 5], &[0, 0, 0])?;
    play(&mut cable, None, None, Some(COMMIT));
    wait(&mut cable, 2);
    check_heard(
        &rt,
        &cable,
        [Heard::Nothing, Heard::Nothing, Heard::Nothing],
    );
    wait(&mut cable, 1);
    check_heard(
        &rt,
        &cable,
        [Heard::Nothing, Heard::One(COMMIT), Heard::Nothing],
    );
    wait(&mut cable, 1);
    check_heard(
        &rt,
        &cable,
        [Heard::Nothing, Heard::Nothing, Heard::Nothing],
    );
    wait(&mut cable, 1);
    check_heard(
        &rt,
        &cable,
        [Heard::One(COMMIT), Heard::Nothing, Heard::Nothing],
    );
    Ok(())
}

#[test]
fn two_that_arrive_at_once_are_many(rt: HostRuntime) -> Result<(), Fail> {
    let mut cable = Cable::new(rt.alloc(), &[0, 2, 5], &[0, 0, 0])?;
    play(&mut cable, None, None, Some(COMMIT));
    wait(&mut cable, 2);
    play(&mut cable, None, Some(BEACON), None);
    wait(&mut cable, 1);
    check_heard(
        &rt,
        &cable,
        [Heard::Nothing, Heard::Nothing, Heard::Nothing],
    );
    wait(&mut cable, 1);
    check_heard(&rt, &cable, [Heard::Many, Heard::Nothing, Heard::Nothing]);
    Ok(())
}

#[test]
fn nodes_at_one_place_hear_each_other_in_the_same_tick(rt: HostRuntime) -> Result<(), Fail> {
    let mut cable = Cable::new(rt.alloc(), &[7, 7, 7], &[0, 0, 0])?;
    play(&mut cable, Some(BEACON), None, None);
    check_heard(
        &rt,
        &cable,
        [Heard::Nothing, Heard::One(BEACON), Heard::One(BEACON)],
    );
    play(&mut cable, Some(BEACON), Some(COMMIT), None);
    check_heard(
        &rt,
        &cable,
        [Heard::One(COMMIT), Heard::One(BEACON), Heard::Many],
    );
    play(&mut cable, Some(BEACON), Some(COMMIT), Some(COMMIT));
    check_heard(&rt, &cable, [Heard::Many, Heard::Many, Heard::Many]);
    wait(&mut cable, 1);
    check_heard(
        &rt,
        &cable,
        [Heard::Nothing, Heard::Nothing, Heard::Nothing],
    );
    Ok(())
}

#[test]
fn nodes_at_one_place_are_apart_by_their_stubs(rt: HostRuntime) -> Result<(), Fail> {
    let mut cable = Cable::new(rt.alloc(), &[7, 7, 7], &[0, 3, 4])?;
    play(&mut cable, None, Some(BEACON), None);
    wait(&mut cable, 2);
    check_heard(
        &rt,
        &cable,
        [Heard::Nothing, Heard::Nothing, Heard::Nothing],
    );
    play(&mut cable, None, None, Some(COMMIT));
    check_heard(
        &rt,
        &cable,
        [Heard::One(BEACON), Heard::Nothing, Heard::Nothing],
    );
    wait(&mut cable, 4);
    check_heard(
        &rt,
        &cable,
        [Heard::One(COMMIT), Heard::Nothing, Heard::One(BEACON)],
    );
    wait(&mut cable, 3);
    check_heard(
        &rt,
        &cable,
        [Heard::Nothing, Heard::One(COMMIT), Heard::Nothing],
    );
    Ok(())
}

#[test]
fn the_longest_stubs_reach_to_317_ticks_and_no_node_hears_itself(
    rt: HostRuntime,
) -> Result<(), Fail> {
    let mut cable = Cable::new(rt.alloc(), &[0, 0, 255], &[31, 31, 31])?;
    play(&mut cable, Some(BEACON), None, None);
    check_heard(
        &rt,
        &cable,
        [Heard::Nothing, Heard::Nothing, Heard::Nothing],
    );
    wait(&mut cable, 62);
    check_heard(
        &rt,
        &cable,
        [Heard::Nothing, Heard::One(BEACON), Heard::Nothing],
    );
    wait(&mut cable, 254);
    check_heard(
        &rt,
        &cable,
        [Heard::Nothing, Heard::Nothing, Heard::Nothing],
    );
    wait(&mut cable, 1);
    check_heard(
        &rt,
        &cable,
        [Heard::Nothing, Heard::Nothing, Heard::One(BEACON)],
    );
    assert_eq!(rt; cable.calm_for(9), 0);
    cable.pass(1);
    assert_eq!(rt; cable.calm_for(9), 9);
    Ok(())
}

#[test]
fn the_farthest_nodes_hear_each_other_after_255_ticks(rt: HostRuntime) -> Result<(), Fail> {
    let mut cable = Cable::new(rt.alloc(), &[0, 255, 255], &[0, 0, 0])?;
    play(&mut cable, Some(BEACON), Some(COMMIT), None);
    check_heard(
        &rt,
        &cable,
        [Heard::Nothing, Heard::Nothing, Heard::One(COMMIT)],
    );
    wait(&mut cable, 254);
    check_heard(
        &rt,
        &cable,
        [Heard::Nothing, Heard::Nothing, Heard::Nothing],
    );
    wait(&mut cable, 1);
    check_heard(
        &rt,
        &cable,
        [Heard::One(COMMIT), Heard::One(BEACON), Heard::One(BEACON)],
    );
    wait(&mut cable, 1);
    check_heard(
        &rt,
        &cable,
        [Heard::Nothing, Heard::Nothing, Heard::Nothing],
    );
    Ok(())
}

#[test]
fn the_last_of_32_nodes_hears_the_first(rt: HostRuntime) -> Result<(), Fail> {
    let mut cable = Cable::new(rt.alloc(), &[0; 32], &[0; 32])?;
    cable.put(0, Some(BEACON));
    assert_eq!(rt; cable.heard(0), Heard::Nothing);
    assert_eq!(rt; cable.heard(31), Heard::One(BEACON));
    cable.put(1, Some(COMMIT));
    assert_eq!(rt; cable.heard(31), Heard::Many);
    Ok(())
}

#[test]
fn silence_is_passed_up_to_what_is_on_its_way(rt: HostRuntime) -> Result<(), Fail> {
    let mut cable = Cable::new(rt.alloc(), &[0, 2, 5], &[0, 0, 0])?;
    assert_eq!(rt; cable.calm_for(u64::MAX), u64::MAX);
    cable.put(1, Some(BEACON));
    for (most, want) in [(0, 0), (1, 1), (9, 2)] {
        assert_eq!(rt; cable.calm_for(most), want);
    }
    cable.pass(0);
    assert_eq!(rt; cable.calm_for(9), 2);
    cable.pass(1);
    assert_eq!(rt; cable.calm_for(9), 1);
    cable.pass(2);
    check_heard(
        &rt,
        &cable,
        [Heard::Nothing, Heard::Nothing, Heard::One(BEACON)],
    );
    assert_eq!(rt; cable.calm_for(9), 0);
    cable.pass(1);
    assert_eq!(rt; cable.calm_for(u64::MAX), u64::MAX);
    cable.pass(u64::MAX);
    play(&mut cable, None, None, Some(COMMIT));
    cable.pass(cable.calm_for(9));
    check_heard(
        &rt,
        &cable,
        [Heard::Nothing, Heard::One(COMMIT), Heard::Nothing],
    );
    Ok(())
}

#[test]
fn what_goes_on_is_heard_while_ticks_are_counted_anew(rt: HostRuntime) -> Result<(), Fail> {
    let mut cable = Cable::new(rt.alloc(), &[0, 2, 5], &[0, 0, 0])?;
    commit(&mut cable, 0, 65_520);
    for tick in 65_520..65_550 {
        commit(&mut cable, tick, tick + 1);
        check_heard(
            &rt,
            &cable,
            [
                Heard::Nothing,
                Heard::One(commit_at(tick - 2)),
                Heard::One(commit_at(tick - 5)),
            ],
        );
    }
    Ok(())
}

#[test]
fn changes_in_each_tick_are_all_kept(rt: HostRuntime) -> Result<(), Fail> {
    let mut cable = Cable::new(rt.alloc(), &[0, 2, 5], &[0, 0, 0])?;
    for _round in 0..99 {
        play(&mut cable, Some(BEACON), None, None);
        play(&mut cable, Some(BEACON), None, None);
        play(&mut cable, Some(COMMIT), None, None);
        play(&mut cable, None, None, None);
        play(&mut cable, Some(COMMIT), None, None);
        check_heard(
            &rt,
            &cable,
            [Heard::Nothing, Heard::One(COMMIT), Heard::Nothing],
        );
        play(&mut cable, None, None, None);
        check_heard(
            &rt,
            &cable,
            [Heard::Nothing, Heard::Nothing, Heard::One(BEACON)],
        );
        wait(&mut cable, 3);
    }
    Ok(())
}
