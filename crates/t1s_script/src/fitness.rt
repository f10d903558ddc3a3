//! Which scripts are fit, how wide a segment is, and the number that is written as the bound of a start.
ghost use Rattle.std.specs.Prelude.{◌≡◌, ◌≤◌, ◌↔◌, ◌==◌, Err, IsOk, find, map, not, option_map};
ghost use Rattle.t1s_script.specs.declared.script.NodeLine.{NodeLine};
ghost use Rattle.t1s_harness.specs.Distances.{farthest, span};
ghost use Rattle.t1s_script.specs.Limits.{most_span};
ghost use Rattle.t1s_script.specs.Script.{IsScript};
ghost use Rattle.t1s_script.specs.Taps.{span_of, tap_of};
ghost use Rattle.t1s_script.specs.Fit.{IsFit, first_owner, fitness_of, high_among, longest_opportunity, owner_among, start_bound, unmet, with_high_id, with_long_bursts, with_long_cable, with_noise, with_other_timer, with_repeat, without_one_coordinator};

use crate::script::{Act, Deed, NodeLine, Script};
use t1s_base::Ids;
use t1s_harness::{Tap, between};

/// What the bound counts for a frame of a drive, in ticks.
const LONGEST_FRAME: u64 = 12_384;

/// What the bound counts for a drive beside its frames, in ticks.
const DRIVE_EDGES: u64 = 136;

/// What the bound counts beside the opportunities, in ticks.
const READY: u64 = 1300;

/// How many ticks a beacon takes.
const BEACON: u64 = 20;

/// The most further frames of an opportunity in a fit script.
const FIT_BURST: u8 = 15;

/// A premise that a script doesn't meet, with two values that show it.
#[derive(Clone, Copy, PartialEq, Eq, Debug)]
pub struct Unfit {
    /// 1: exactly one node owns the ID 0. 2: no ID is owned by two nodes. 3: each ID is below the count. 4: each
    /// node has the timer of the script. 5: there is no noise. 6: at most 15 further frames in an opportunity. 7: twice the
    /// span and `rise` together are below `to`.
    pub premise: u8,
    /// What is there, where IDs are told by ascending node and in the order of a node's list: 1 the number of
    /// nodes that own the ID 0, 2 the node of the first ID that an earlier node owns, 3 the first such ID, 4 the first such timer, 5 the tick at which the first noise begins,
    /// 6 `burst`, 7 the sum.
    pub left: u64,
    /// What it is held against: 1 the number 1, 2 the first node that owns that ID, 3 the count,
    /// 4 `to`, 5 the end of that noise, 6 the number 15, 7 `to`.
    pub right: u64,
}

/// The greatest distance of a tap from one of the nodes, in whole bit times.
fn farthest(tap: &Tap, nodes: &[NodeLine]) -> u16
    ensures { result ≡ farthest tap.now (map tap_of nodes.now) }
{
    let mut most = 0;
    for node in nodes {
        most = between(tap, &node.tap()).max(most);
    }
    most
}

/// The number as a wide one.
fn wide(n: u8) -> u64
    ensures value { result ≡ n }
    ensures small { result ≤ 255 }
{
    u64::from(n)
}

/// The greatest distance of two of the nodes, in whole bit times.
fn widest(nodes: &[NodeLine]) -> u16
    ensures { result ≡ span (map tap_of nodes.now) }
{
    let mut most = 0;
    for i in 0..nodes.len() {
        most = farthest(&nodes[i].tap(), &nodes[i + 1..]).max(most);
    }
    most
}

/// The span of a script: the greatest distance of two of its nodes in whole bit times, at most 317 in a
/// valid script. It is 0 where there are fewer than two.
pub fn span(s: &Script) -> u64
    ensures value { result ≡ span_of s.now }
    ensures narrow { IsScript s.now → result ≤ most_span }
    ensures small { result ≤ 65535 }
{
    u64::from(widest(s.nodes.as_slice()))
}

/// What the bound counts for an opportunity, in ticks: the timer, a drive, twice the span, `rise` and `fall`.
fn opportunity(s: &Script) -> u64
    ensures value { result ≡ longest_opportunity s.now }
    ensures small { result ≤ 4000000 }
{
    let drive = (1 + wide(s.burst)) * LONGEST_FRAME + DRIVE_EDGES;
    wide(s.to) + drive + 2 * span(s) + wide(s.rise) + wide(s.fall)
}

/// The number that is written as the bound of a start, in ticks. It is 1300 and, `count + 3` times, 20 and
/// what it counts for an opportunity: `to`, a drive of `(1 + burst) * 12384 + 136`, twice the span, `rise`
/// and `fall`. It has no condition: each script has one, fit or not, and it fits its type.
pub fn bound(s: &Script) -> u64
    ensures { result ≡ start_bound s.now }
{
    READY + (wide(s.count) + 3) * (opportunity(s) + BEACON)
}

/// A premise that isn't met, and its two values.
fn unmet_premise(premise: u8, left: u64, right: u64) -> Result<(), Unfit>
    ensures { result ≡ Err (record { premise = premise; left = left; right = right }) }
{
    Err(Unfit {
        premise,
        left,
        right,
    })
}

/// Premise 1: exactly one node owns the ID 0.
fn one_coordinator(nodes: &[NodeLine]) -> Result<(), Unfit>
    ensures { result ≡ fitness_of (without_one_coordinator nodes.now) }
{
    let count = nodes.iter().filter(|node| node.ids.has(0)).count() as u64;
    if count == 1 {
        Ok(())
    } else {
        unmet_premise(1, count, 1)
    }
}

/// The number of the first of the nodes that owns the ID.
fn owner_among(nodes: &[NodeLine], id: u8) -> Option<u8>
    ensures { result ≡ option_map (λ (n : NodeLine). n.no) (owner_among nodes.now id) }
{
    nodes
        .iter()
        .find(|node| node.ids.has(id))
        .map(|node| node.no)
}

/// The number of the first of the nodes that owns the first of these IDs which one of them owns.
fn first_owner(nodes: &[NodeLine], ids: &Ids) -> Option<u8>
    ensures { result ≡ option_map (λ (n : NodeLine). n.no) (first_owner nodes.now ids.now) }
{
    let mut place = 0;
    while let Some(id) = ids.get(place) {
        let owner = owner_among(nodes, id);
        if owner.is_some() {
            return owner;
        }
        place += 1;
    }
    None
}

/// Premise 2: no ID is owned by two nodes.
fn distinct_ids(nodes: &[NodeLine]) -> Result<(), Unfit>
    ensures { result ≡ fitness_of (with_repeat nodes.now) }
{
    for i in 0..nodes.len() {
        let node = &nodes[i];
        if let Some(earlier) = first_owner(&nodes[..i], &node.ids) {
            return unmet_premise(2, wide(node.no), wide(earlier));
        }
    }
    Ok(())
}

/// The first of the IDs that isn't below the count.
fn high_among(ids: &Ids, count: u8) -> Option<u8>
    ensures { result ≡ high_among count ids.now }
{
    let mut place = 0;
    while let Some(id) = ids.get(place) {
        if count <= id {
            return Some(id);
        }
        place += 1;
    }
    None
}

/// Premise 3: each ID is below the count.
fn low_ids(nodes: &[NodeLine], count: u8) -> Result<(), Unfit>
    ensures { result ≡ fitness_of (with_high_id count nodes.now) }
{
    for node in nodes {
        if let Some(id) = high_among(&node.ids, count) {
            return unmet_premise(3, wide(id), wide(count));
        }
    }
    Ok(())
}

/// The first other timer of the nodes.
fn other_timer(nodes: &[NodeLine], to: u8) -> Option<u8>
    ensures { result ≡ option_map (λ (n : NodeLine). n.to) (find (λ (n : NodeLine). not (n.to == to)) nodes.now) }
{
    nodes.iter().find(|node| node.to != to).map(|node| node.to)
}

/// Premise 4: each node has the timer of the script.
fn one_timer(nodes: &[NodeLine], to: u8) -> Result<(), Unfit>
    ensures { result ≡ fitness_of (with_other_timer to nodes.now) }
{
    match other_timer(nodes, to) {
        Some(other) => unmet_premise(4, wide(other), wide(to)),
        None => Ok(()),
    }
}

/// Premise 5: there is no noise.
fn no_noise(acts: &[Act]) -> Result<(), Unfit>
    ensures { result ≡ fitness_of (with_noise acts.now) }
{
    for act in acts {
        if let Deed::Noise { until } = &act.deed {
            return unmet_premise(5, act.tick, *until);
        }
    }
    Ok(())
}

/// Premise 6: an opportunity has at most 15 further frames.
fn short_bursts(burst: u8) -> Result<(), Unfit>
    ensures { result ≡ fitness_of (with_long_bursts burst) }
{
    if burst <= FIT_BURST {
        Ok(())
    } else {
        unmet_premise(6, wide(burst), wide(FIT_BURST))
    }
}

/// Premise 7: twice the span and `rise` together are below `to`.
fn short_cable(s: &Script) -> Result<(), Unfit>
    ensures { result ≡ fitness_of (with_long_cable s.now) }
{
    let ticks = 2 * span(s) + wide(s.rise);
    if ticks < wide(s.to) {
        Ok(())
    } else {
        unmet_premise(7, ticks, wide(s.to))
    }
}

/// Whether the script is fit: what is promised of the shared line stands on these premises. Where one
/// isn't met it answers the lowest-numbered one, with the two values that show it.
pub fn fit(s: &Script) -> Result<(), Unfit>
    ensures value { result ≡ fitness_of (unmet s.now) }
    ensures fit { IsOk result ↔ IsFit s.now }
{
    let nodes = s.nodes.as_slice();
    one_coordinator(nodes)?;
    distinct_ids(nodes)?;
    low_ids(nodes, s.count)?;
    one_timer(nodes, s.to)?;
    no_noise(s.acts.as_slice())?;
    short_bursts(s.burst)?;
    short_cable(s)
}
