//! What is counted at the nodes.
ghost use Rattle.std.specs.Prelude.{◌≡◌, ◌==◌, find, position};
ghost use Rattle.t1s_line.specs.declared.totals.NodeTotals.{NodeTotals};
ghost use Rattle.t1s_line.specs.Outcomes.{DriveOutcome, HearOutcome};
ghost use Rattle.t1s_line.specs.Totals.{after_driving, after_hearing, counted, is_full, no_totals};
ghost use Rattle.t1s_segment.specs.State.{arrival_kind};

use t1s_line::{NodeTotals, OfferOutcome};
use t1s_mac::MacNote;
use t1s_pcs_rx::Kind;

/// Nothing is counted yet at the node with this number.
pub fn no_totals(node: u8) -> NodeTotals
    ensures { result ≡ no_totals node }
{
    NodeTotals {
        node,
        sent: 0,
        full: 0,
        jam: 0,
        drop: 0,
        good: 0,
        bad: 0,
        clash: 0,
    }
}

/// One more, or not.
fn counted(count: u64, more: bool) -> u64
    ensures { result ≡ counted count more }
{
    if more { count.saturating_add(1) } else { count }
}

/// Counts what became of an offer at the node.
pub fn after_refusal(totals: &mut NodeTotals, outcome: OfferOutcome)
    ensures { totals.new ≡ record totals.old { full = counted totals.old.full (is_full outcome) } }
{
    totals.full = counted(totals.full, matches!(outcome, OfferOutcome::Full));
}

/// Counts what became of a frame in the MAC of the node in a drive phase.
pub fn after_driving(totals: &mut NodeTotals, note: MacNote)
    ensures { (d : DriveOutcome) → note ≡ d.note → totals.new ≡ after_driving totals.old d }
{
    match note {
        MacNote::None => {}
        MacNote::Sent(_) => totals.sent = counted(totals.sent, true),
        MacNote::Jam(_) => totals.jam = counted(totals.jam, true),
        MacNote::Drop(_) => totals.drop = counted(totals.drop, true),
    }
}

/// Counts what arrived at the node in a hear phase, and whether signals met.
pub fn after_hearing(totals: &mut NodeTotals, arrival: Option<Kind>, clash: bool)
    ensures { (d : HearOutcome) → arrival ≡ arrival_kind d.event → clash ≡ d.clash → totals.new ≡ after_hearing totals.old d }
{
    match arrival {
        None => {}
        Some(Kind::Good) => totals.good = counted(totals.good, true),
        Some(_) => totals.bad = counted(totals.bad, true),
    }
    totals.clash = counted(totals.clash, clash);
}

/// The totals of the node with this number, if there is one.
pub fn totals_of(totals: &[NodeTotals], node: u8) -> Option<NodeTotals>
    ensures { result ≡ find (λ (n : NodeTotals). n.node == node) totals.now }
{
    totals.iter().copied().find(|totals| totals.node == node)
}

/// The position of the node with this number, if there is one.
pub fn position_of(totals: &[NodeTotals], node: u8) -> Option<usize>
    ensures { result ≡ position (λ (n : NodeTotals). n.node == node) totals.now }
{
    totals.iter().position(|totals| totals.node == node)
}
