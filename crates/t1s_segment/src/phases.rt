//! The two phases of a tick, over all nodes.
ghost use Rattle.std.specs.Prelude.{◌≡◌, ◌<◌, ◌≤◌, ◌&&◌, ℕ, List, Option, ◌∷◌, length, map, get_or};
ghost use Rattle.t1s_symbols.specs.Ranges.{IsHeard};
ghost use Rattle.t1s_symbols.specs.declared.Quarter.{Quarter};
ghost use Rattle.t1s_base.specs.Limits.{most_nodes};
ghost use Rattle.t1s_world.specs.Hearing.{heard};
ghost use Rattle.t1s_world.specs.Lists.{each_with};
ghost use Rattle.t1s_world.specs.Events.{SeesEvents};
ghost use Rattle.t1s_world.specs.World.{after_drive, after_hear, at_depth, drive_outcomes, hear_outcomes, row_of};
ghost use Rattle.t1s_cable.specs.Stands.{Stands, no_puts};
ghost use Rattle.t1s_line.specs.declared.offers.OfferState.TheVariants.{Unknown};
ghost use Rattle.t1s_line.specs.Offers.{after_leaves};
ghost use Rattle.t1s_line.specs.Runs.{are_ok, drive_events_of, hear_events_of, heard_tick};
ghost use Rattle.t1s_line.specs.Totals.{after_driving, after_hearing};
ghost use Rattle.t1s_segment.specs.State.{AreHeard, two_phases, under_noise};

use crate::machine::NodeMachine;
use crate::totals::{after_driving, after_hearing};
use t1s_acts::keep_leave;
use t1s_cable::Cable;
use t1s_line::{NodeTotals, OfferState, Watch};
use t1s_symbols::Heard;

/// Whether both hold.
fn both(first: bool, second: bool) -> bool
    ensures { result ≡ (first && second) }
{
    first && second
}

/// What arrives at a node: many signals while there is a noise, and else what the cable brings.
fn arriving(cable: &Cable, noisy: bool, node: u8) -> Heard
    requires { node < length cable.now.taps }
    ensures value { (rows : List (List (Option Quarter))) →
        Stands rows cable.now → result ≡ under_noise noisy (heard (at_depth rows) cable.now.taps node) }
    ensures range { IsHeard result }
{
    if noisy {
        Heard::Many
    } else {
        cable.heard(node)
    }
}

/// The drive phase of a tick, node by node: what happens is told and counted, and what is driven is put on the cable. It
/// answers whether the status of every node is OK.
pub fn drive_all<N: NodeMachine, W: Watch>(
    nodes: &mut [N],
    totals: &mut [NodeTotals],
    states: &mut [OfferState],
    cable: &mut Cable,
    tick: u64,
    watch: &mut W,
) -> bool
    requires taps { length cable.old.taps ≡ length nodes.old }
    requires totals { length totals.old ≡ length nodes.old }
    requires few { length nodes.old ≤ most_nodes }
    requires free { cable.old.row ≡ no_puts cable.old.taps }
    ensures nodes { nodes.new ≡ after_drive (two_phases N.phases) tick nodes.old }
    ensures taps { cable.new.taps ≡ cable.old.taps }
    ensures put { (past : List (List (Option Quarter))) → Stands (no_puts cable.old.taps ∷ past) cable.old →
        Stands (row_of (two_phases N.phases) tick nodes.old ∷ past) cable.new }
    ensures totals { totals.new ≡ each_with after_driving totals.old (drive_outcomes (two_phases N.phases) tick nodes.old) }
    ensures states { (number : ℕ) → get_or states.new number Unknown ≡
        after_leaves tick number (get_or states.old number Unknown) (drive_outcomes (two_phases N.phases) tick nodes.old) }
    ensures events { SeesEvents W.sees watch.old (drive_events_of (drive_outcomes (two_phases N.phases) tick nodes.old)) watch.new }
    ensures ok { result ≡ are_ok (drive_outcomes (two_phases N.phases) tick nodes.old) }
{
    let mut ok = true;
    for i in 0..nodes.len() {
        let report = nodes[i].drive(tick, watch);
        cable.put(i as u8, report.quarter);
        after_driving(&mut totals[i], report.note);
        keep_leave(states, report.leaves, tick);
        ok = both(ok, report.ok);
    }
    ok
}

/// The hear phase of a tick, node by node: many signals while there is a noise, and else what the cable brings. What happens
/// is told and counted, and what each node heard is kept.
pub fn hear_all<N: NodeMachine, W: Watch>(
    nodes: &mut [N],
    totals: &mut [NodeTotals],
    last: &mut [(Heard, bool)],
    cable: &Cable,
    noisy: bool,
    tick: u64,
    watch: &mut W,
)
    requires nodes { length nodes.old ≡ length cable.now.taps }
    requires totals { length totals.old ≡ length cable.now.taps }
    requires last { length last.old ≡ length cable.now.taps }
    requires few { length cable.now.taps ≤ most_nodes }
    requires in_range { AreHeard last.old }
    ensures nodes { (rows : List (List (Option Quarter))) → Stands rows cable.now →
        nodes.new ≡ after_hear (two_phases N.phases) tick (λ j. under_noise noisy (heard (at_depth rows) cable.now.taps j)) 0 nodes.old }
    ensures totals { (rows : List (List (Option Quarter))) → Stands rows cable.now →
        totals.new ≡ each_with after_hearing totals.old
        (hear_outcomes (two_phases N.phases) tick (λ j. under_noise noisy (heard (at_depth rows) cable.now.taps j)) 0 nodes.old) }
    ensures last { (rows : List (List (Option Quarter))) → Stands rows cable.now →
        last.new ≡ map heard_tick
        (hear_outcomes (two_phases N.phases) tick (λ j. under_noise noisy (heard (at_depth rows) cable.now.taps j)) 0 nodes.old) }
    ensures events { (rows : List (List (Option Quarter))) → Stands rows cable.now →
        SeesEvents W.sees watch.old (hear_events_of
        (hear_outcomes (two_phases N.phases) tick (λ j. under_noise noisy (heard (at_depth rows) cable.now.taps j)) 0 nodes.old)) watch.new }
    ensures in_range { AreHeard last.new }
{
    for j in 0..nodes.len() {
        let heard = arriving(cable, noisy, j as u8);
        let report = nodes[j].hear(tick, heard, watch);
        after_hearing(&mut totals[j], report.arrival, report.clash);
        last[j] = (report.heard, report.drove);
    }
}
