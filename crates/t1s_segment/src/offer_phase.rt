//! The acts of a tick, which come before all nodes drive.
ghost use Rattle.std.specs.Prelude.{◌≡◌, ◌≤◌, ◌<◌, ◌+◌, ◌||◌, ℕ, nat_lt, max, [], ◌∷◌, length, map, get_or};
ghost use Rattle.t1s_world.specs.Events.{SeesEvents};
ghost use Rattle.t1s_line.specs.declared.offers.OfferState.TheVariants.{Unknown};
ghost use Rattle.t1s_line.specs.Acts.{has_act, is_noisy, offers_at};
ghost use Rattle.t1s_line.specs.Offers.{after_offers, after_records, offer_event, records_of};
ghost use Rattle.t1s_line.specs.Totals.{after_refusals};
ghost use Rattle.t1s_acts.specs.Upcoming.{AreComing, noise_end, offers_of};
ghost use Rattle.t1s_segment.specs.Numbers.{AwaitActs, HaveTotals};

use crate::machine::NodeMachine;
use crate::totals::{after_refusal, position_of};
use t1s_acts::{UpcomingActs, keep_outcome};
use t1s_line::{Event, NodeTotals, OfferOutcome, OfferState, Watch};
use t1s_ring::Queued;
use t1s_script::Deed;

/// Tells what became of an offer.
fn tell_outcome<W: Watch>(watch: &mut W, tick: u64, node: u8, number: u16, outcome: OfferOutcome)
    ensures { SeesEvents W.sees watch.old
        (offer_event (record { tick = tick; node = node; number = number; outcome = outcome }) ∷ []) watch.new }
{
    let event = match outcome {
        OfferOutcome::Taken => Event::Taken { tick, node, number },
        OfferOutcome::Full => Event::Full { tick, node, number },
        OfferOutcome::Off => Event::Off { tick, node, number },
    };
    watch.event(&event);
}

/// One offer: the node of that number is given the frame, what becomes of it is told, counted and kept.
fn offer_one<N: NodeMachine, W: Watch>(
    nodes: &mut [N],
    totals: &mut [NodeTotals],
    states: &mut [OfferState],
    tick: u64,
    node: u8,
    queued: Queued,
    watch: &mut W,
)
    requires { length nodes.old ≡ length totals.old }
    ensures nodes { HaveTotals N.phases nodes.old totals.old →
        nodes.new ≡ after_offers N.phases tick (record { node = node; queued = queued } ∷ []) nodes.old }
    ensures totals { HaveTotals N.phases nodes.old totals.old →
        totals.new ≡ after_refusals totals.old (records_of N.phases tick (record { node = node; queued = queued } ∷ []) nodes.old) }
    ensures states { HaveTotals N.phases nodes.old totals.old → (k : ℕ) → get_or states.new k Unknown ≡
        after_records k (get_or states.old k Unknown) (records_of N.phases tick (record { node = node; queued = queued } ∷ []) nodes.old) }
    ensures events { HaveTotals N.phases nodes.old totals.old → SeesEvents W.sees watch.old
        (map offer_event (records_of N.phases tick (record { node = node; queued = queued } ∷ []) nodes.old)) watch.new }
{
    let Some(i) = position_of(totals, node) else {
        return;
    };
    let number = queued.number;
    let outcome = nodes[i].offer(tick, queued);
    tell_outcome(watch, tick, node, number, outcome);
    after_refusal(&mut totals[i], outcome);
    keep_outcome(states, number, tick, outcome);
}

/// One act. It answers up to which tick a noise lasts.
fn act_one<N: NodeMachine, W: Watch>(
    nodes: &mut [N],
    totals: &mut [NodeTotals],
    states: &mut [OfferState],
    noise_until: u64,
    tick: u64,
    deed: Deed,
    watch: &mut W,
) -> u64
    requires { length nodes.old ≡ length totals.old }
    ensures nodes { HaveTotals N.phases nodes.old totals.old → nodes.new ≡ after_offers N.phases tick (offers_of deed) nodes.old }
    ensures totals { HaveTotals N.phases nodes.old totals.old →
        totals.new ≡ after_refusals totals.old (records_of N.phases tick (offers_of deed) nodes.old) }
    ensures states { HaveTotals N.phases nodes.old totals.old → (k : ℕ) → get_or states.new k Unknown ≡
        after_records k (get_or states.old k Unknown) (records_of N.phases tick (offers_of deed) nodes.old) }
    ensures events { HaveTotals N.phases nodes.old totals.old →
        SeesEvents W.sees watch.old (map offer_event (records_of N.phases tick (offers_of deed) nodes.old)) watch.new }
    ensures noise { result ≡ max noise_until (noise_end deed) }
{
    match deed {
        Deed::Noise { until } => noise_until.max(until),
        Deed::Offer {
            number,
            node,
            frame,
        } => {
            let queued = Queued { number, frame };
            offer_one(nodes, totals, states, tick, node, queued, watch);
            noise_until
        }
    }
}

/// The acts of a tick, in the order of their lines. It answers up to which tick a noise lasts.
pub fn offer_all<N: NodeMachine, W: Watch>(
    nodes: &mut [N],
    totals: &mut [NodeTotals],
    states: &mut [OfferState],
    upcoming: &mut UpcomingActs,
    noise_until: u64,
    tick: u64,
    watch: &mut W,
) -> u64
    requires { length nodes.old ≡ length totals.old }
    ensures nodes { AwaitActs N.phases tick nodes.old totals.old upcoming.old →
        nodes.new ≡ after_offers N.phases tick (offers_at upcoming.old tick) nodes.old }
    ensures totals { AwaitActs N.phases tick nodes.old totals.old upcoming.old →
        totals.new ≡ after_refusals totals.old (records_of N.phases tick (offers_at upcoming.old tick) nodes.old) }
    ensures states { AwaitActs N.phases tick nodes.old totals.old upcoming.old → (k : ℕ) → get_or states.new k Unknown ≡
        after_records k (get_or states.old k Unknown) (records_of N.phases tick (offers_at upcoming.old tick) nodes.old) }
    ensures events { AwaitActs N.phases tick nodes.old totals.old upcoming.old →
        SeesEvents W.sees watch.old (map offer_event (records_of N.phases tick (offers_at upcoming.old tick) nodes.old)) watch.new }
    ensures coming { AreComing tick upcoming.old → AreComing (tick + 1) upcoming.new }
    ensures due { AreComing tick upcoming.old → (u : ℕ) → tick < u → has_act upcoming.new u ≡ has_act upcoming.old u }
    ensures offers { AreComing tick upcoming.old → (u : ℕ) → tick < u → offers_at upcoming.new u ≡ offers_at upcoming.old u }
    ensures noise { AreComing tick upcoming.old → (u : ℕ) → tick ≤ u →
        (is_noisy upcoming.new u || nat_lt u result) ≡ (is_noisy upcoming.old u || nat_lt u noise_until) }
{
    let mut until = noise_until;
    while let Some(deed) = upcoming.take_due(tick) {
        until = act_one(nodes, totals, states, until, tick, deed, watch);
    }
    until
}
