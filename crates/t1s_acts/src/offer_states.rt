//! How offers stand between two ticks.
ghost use Rattle.std.specs.Prelude.{◌≡◌, ◌==◌, ◌-◌, ◌<◌, ℕ, IfOk, IfSome, get_or, length, if◌then◌else◌};
ghost use Rattle.t1s_script.specs.Script.{offer_number};
ghost use Rattle.t1s_line.specs.declared.offers.OfferState.TheVariants.{Expected, Unknown};
ghost use Rattle.t1s_line.specs.Offers.{after_leave, after_outcome, first_state, is_number, leaves_number, wait_of};
ghost use Rattle.t1s_line.specs.Outcomes.{DriveOutcome};
ghost use Rattle.t1s_acts.specs.Upcoming.{AreWithin};

use std::alloc::{AllocError, Global};
use t1s_line::{OfferOutcome, OfferState, Wait};
use t1s_script::{Act, Deed};

/// How an offer stands after its tick.
fn after_outcome(state: OfferState, tick: u64, outcome: OfferOutcome) -> OfferState
    ensures { result ≡ after_outcome tick outcome state }
{
    match (state, outcome) {
        (OfferState::Unknown, _) => OfferState::Unknown,
        (_, OfferOutcome::Taken) => OfferState::Taken(tick),
        (_, OfferOutcome::Full) => OfferState::Full,
        (_, OfferOutcome::Off) => OfferState::Off,
    }
}

/// How it stands once its first H began in this tick.
fn after_leave(state: OfferState, tick: u64) -> OfferState
    ensures { result ≡ after_leave tick state }
{
    match state {
        OfferState::Taken(at) => OfferState::Left(tick.saturating_sub(at)),
        _ => state,
    }
}

/// What is told of it.
pub fn wait_of(state: OfferState) -> Option<Wait>
    ensures { result ≡ wait_of state }
{
    match state {
        OfferState::Unknown => None,
        OfferState::Expected | OfferState::Taken(_) => Some(Wait::Open),
        OfferState::Off => Some(Wait::Off),
        OfferState::Full => Some(Wait::Full),
        OfferState::Left(wait) => Some(Wait::Left(wait)),
    }
}

/// Keeps what became of the offer of this number.
pub fn keep_outcome(states: &mut [OfferState], number: u16, tick: u64, outcome: OfferOutcome)
    ensures { (k : ℕ) → get_or states.new k Unknown ≡
        (if number == k then after_outcome tick outcome (get_or states.old k Unknown) else get_or states.old k Unknown) }
{
    let at = usize::from(number);
    if at < states.len() {
        states[at] = after_outcome(states[at], tick, outcome);
    }
}

/// Keeps that the frame of this number leaves in this tick, if one does.
pub fn keep_leave(states: &mut [OfferState], leaves: Option<u16>, tick: u64)
    ensures { (d : DriveOutcome) (k : ℕ) → leaves ≡ d.leaves → get_or states.new k Unknown ≡
        (if leaves_number k d then after_leave tick (get_or states.old k Unknown) else get_or states.old k Unknown) }
{
    if let Some(number) = leaves {
        let at = usize::from(number);
        if at < states.len() {
            states[at] = after_leave(states[at], tick);
        }
    }
}

/// The number of an offer, if the act is one.
fn offer_number(act: &Act) -> Option<u16>
    ensures { result ≡ offer_number act.now }
{
    match &act.deed {
        Deed::Offer { number, .. } => Some(*number),
        Deed::Noise { .. } => None,
    }
}

/// The greatest number of an offer among these acts, and 0 where there is none.
fn last_number(acts: &[Act]) -> u16
    ensures { AreWithin acts.now result }
{
    let mut last = 0;
    for act in acts {
        last = offer_number(act).unwrap_or(0).max(last);
    }
    last
}

/// The offer of an act, if it is one, is expected.
fn expect(states: &mut [OfferState], act: &Act)
    requires { IfSome (offer_number act.now) (λ number. number < length states.old) }
    ensures { (k : ℕ) → get_or states.new k Unknown ≡
        (if is_number k (offer_number act.now) then Expected else get_or states.old k Unknown) }
{
    if let Some(number) = offer_number(act) {
        states[usize::from(number)] = OfferState::Expected;
    }
}

/// How the offers of these acts stand before the first tick, each at its number.
pub fn first_states(alloc: Global, acts: &[Act]) -> Result<Vec<OfferState>, AllocError>
    ensures { IfOk result (λ states. (number : ℕ) → get_or states.items number Unknown ≡ first_state acts.now number) }
{
    let mut states = Vec::new(alloc);
    states.resize(usize::from(last_number(acts)) + 1, OfferState::Unknown)?;
    for act in acts {
        expect(states.as_mut_slice(), act);
    }
    Ok(states)
}
