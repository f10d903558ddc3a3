// The summary of a run as one JSON object.
ghost use Rattle.std.specs.Prelude.{◌≡◌, ℕ, map, IfOk};
ghost use Rattle.t1s_script.specs.declared.script.Script.{Script};
ghost use Rattle.t1s_segment.specs.Stands.{Stands};
ghost use Rattle.t1s_report.specs.JsonSummary.{node_value, wait_value, node_values, offer_values, summary_value};
ghost use Rattle.serde_json.specs.View.{view};

use crate::summary_lines::LAST_OFFER;
use serde_json::{Value, json};
use std::alloc::{AllocError, Global};
use t1s_base::MOST_NODES;
use t1s_line::{NodeTotals, Wait};
use t1s_segment::Segment;

/// What was counted at a node.
fn node_value(alloc: Global, t: &NodeTotals) -> Result<Value, AllocError>
    ensures { IfOk result (λ v. view v ≡ node_value t.now) }
{
    json!(in alloc; {
        "bad": t.bad,
        "clash": t.clash,
        "drop": t.drop,
        "full": t.full,
        "good": t.good,
        "jam": t.jam,
        "node": t.node,
        "sent": t.sent,
    })
}

/// What has become of an offer: the ticks that it waited, or a word.
fn wait_value(alloc: Global, wait: Wait) -> Result<Value, AllocError>
    ensures { IfOk result (λ v. view v ≡ wait_value wait) }
{
    match wait {
        Wait::Off => Value::try_from_str(alloc, "off"),
        Wait::Full => Value::try_from_str(alloc, "full"),
        Wait::Open => Value::try_from_str(alloc, "none"),
        Wait::Left(ticks) => Ok(Value::from(ticks)),
    }
}

/// What was counted at each node, the nodes ascending.
fn node_values(alloc: Global, seg: &Segment) -> Result<Vec<Value>, AllocError>
    ensures { (s : Script) (t : ℕ) → Stands s t seg.now → IfOk result (λ nodes. map view nodes.items ≡ node_values s t) }
{
    let mut nodes = Vec::new(alloc);
    for node in 0..MOST_NODES {
        if let Some(totals) = seg.totals(node) {
            nodes.push(node_value(alloc, &totals)?)?;
        }
    }
    Ok(nodes)
}

/// What has become of each offer, the offers ascending.
fn offer_values(alloc: Global, seg: &Segment) -> Result<Vec<Value>, AllocError>
    ensures { (s : Script) (t : ℕ) → Stands s t seg.now → IfOk result (λ offers. map view offers.items ≡ offer_values s t) }
{
    let mut offers = Vec::new(alloc);
    for number in 1..=LAST_OFFER {
        if let Some(wait) = seg.wait(number) {
            offers.push(wait_value(alloc, wait)?)?;
        }
    }
    Ok(offers)
}

/// The summary of the ticks that were played, as one JSON object with the keys `nodes`, `offers` and `settled`: what was
/// counted at each node, the nodes ascending; what has become of each offer, the offers ascending, as the number of ticks
/// that it waited or as `none`, `full` or `off`, where an offer that hasn't left yet is `none`; and the first tick in which
/// every status was OK, or null. It is refused only where memory is.
pub fn json_of(alloc: Global, seg: &Segment) -> Result<Value, AllocError>
    ensures { (s : Script) (t : ℕ) → Stands s t seg.now → IfOk result (λ v. view v ≡ summary_value s t) }
{
    let nodes = node_values(alloc, seg)?;
    let offers = offer_values(alloc, seg)?;
    json!(in alloc; {"nodes": nodes, "offers": offers, "settled": seg.settled()})
}
