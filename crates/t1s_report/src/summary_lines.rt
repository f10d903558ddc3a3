// The lines of the summary of a run.
ghost use Rattle.std.specs.Prelude.{◌≡◌, ◌⊎◌, ◌<◌, ◌≤◌, ℕ, [], length, nat_lt, get_or, slice_get, None, IsTrue};
ghost use Rattle.t1s_base.specs.Limits.{most_nodes};
ghost use Rattle.t1s_script.specs.Limits.{most_acts};
ghost use Rattle.t1s_script.specs.declared.script.Script.{Script};
ghost use Rattle.t1s_segment.specs.Stands.{Stands};
ghost use Rattle.t1s_line.specs.World.{totals_below};
ghost use Rattle.t1s_report.specs.SummaryLines.{settled_line, node_line, offer_line, waits_below, most_summary_lines, summary_lines_below};

use crate::fields::{clear, count, number, text};
use t1s_base::{Line, MOST_NODES};
use t1s_line::{NodeTotals, Wait};
use t1s_segment::Segment;

/// The greatest number of an offer: a script has at most so many timed lines.
pub(crate) const LAST_OFFER: u16 = 4096;

/// Replaces the content of the line by that of the first tick in which every status was OK.
fn settled_line(out: &mut Line, settled: Option<u64>)
    ensures { out.new ≡ settled_line settled }
{
    clear(out);
    text(out, b"settled ");
    match settled {
        Some(tick) => number(out, tick),
        None => text(out, b"never"),
    }
    text(out, b"\n");
}

/// Replaces the content of the line by that of what was counted at a node.
pub fn node_line(out: &mut Line, t: &NodeTotals)
    ensures { out.new ≡ node_line t.now }
{
    clear(out);
    count(out, b"node ", u64::from(t.node));
    count(out, b" sent ", t.sent);
    count(out, b" full ", t.full);
    count(out, b" jam ", t.jam);
    count(out, b" drop ", t.drop);
    count(out, b" good ", t.good);
    count(out, b" bad ", t.bad);
    count(out, b" clash ", t.clash);
    text(out, b"\n");
}

/// The totals of the k-th node from 0, the nodes ascending.
fn totals_at(seg: &Segment, k: u32) -> Option<NodeTotals>
    ensures totals { (s : Script) (t : ℕ) → Stands s t seg.now → result ≡ slice_get (totals_below s t) k }
    ensures few { (result ≡ None) ⊎ (k < most_nodes) }
{
    let mut nodes = 0;
    for node in 0..MOST_NODES {
        if let Some(totals) = seg.totals(node) {
            if nodes == k {
                return Some(totals);
            }
            nodes += 1;
        }
    }
    None
}

/// How many nodes there are.
fn node_count(seg: &Segment) -> u32
    ensures nodes { (s : Script) (t : ℕ) → Stands s t seg.now → result ≡ length (totals_below s t) }
    ensures few { result ≤ most_nodes }
{
    let mut nodes = 0;
    for node in 0..MOST_NODES {
        if seg.totals(node).is_some() {
            nodes += 1;
        }
    }
    nodes
}

/// Replaces the content of the line by that of an offer.
fn offer_line(out: &mut Line, number: u16, wait: Wait)
    ensures { out.new ≡ offer_line number wait }
{
    clear(out);
    count(out, b"offer ", u64::from(number));
    match wait {
        Wait::Off => text(out, b" off"),
        Wait::Full => text(out, b" full"),
        Wait::Open => text(out, b" none"),
        Wait::Left(ticks) => count(out, b" wait ", ticks),
    }
    text(out, b"\n");
}

/// The k-th offer from 0, the offers ascending: its number, and what has become of it.
fn wait_at(seg: &Segment, k: u32) -> Option<(u16, Wait)>
    ensures waits { (s : Script) (t : ℕ) → Stands s t seg.now → result ≡ slice_get (waits_below s t) k }
    ensures few { (result ≡ None) ⊎ (k < most_acts) }
{
    let mut offers = 0;
    for number in 1..=LAST_OFFER {
        if let Some(wait) = seg.wait(number) {
            if offers == k {
                return Some((number, wait));
            }
            offers += 1;
        }
    }
    None
}

/// Replaces the content of the line by the k-th line from 0 of the summary of the ticks that were played: when all
/// statuses were first OK, then what was counted at each node, the nodes ascending, and then what has become of each
/// offer, the offers ascending. It answers false, with the line empty, exactly where there is no such line. A summary
/// has at most 4129 lines.
pub fn summary_line(out: &mut Line, seg: &Segment, k: u32) -> bool
    ensures answer { (s : Script) (t : ℕ) → Stands s t seg.now → result ≡ nat_lt k (length (summary_lines_below s t)) }
    ensures line { (s : Script) (t : ℕ) → Stands s t seg.now → out.new ≡ get_or (summary_lines_below s t) k [] }
    ensures few { IsTrue result → k < most_summary_lines }
{
    if k == 0 {
        settled_line(out, seg.settled());
        return true;
    }
    let at = k - 1;
    if let Some(totals) = totals_at(seg, at) {
        node_line(out, &totals);
        return true;
    }
    if let Some((number, wait)) = wait_at(seg, at.saturating_sub(node_count(seg))) {
        offer_line(out, number, wait);
        return true;
    }
    clear(out);
    false
}
