use super::*;
use std::alloc::Global;
use std::test::Fail;
use t1s_frame::Frame;
use t1s_line::{OfferOutcome, OfferState, Wait};
use t1s_script::{Act, Deed};

/// An offer of a frame to node 0.
fn offer(tick: u64, number: u16) -> Result<Act, Fail> {
    let frame = Frame::of_offer(&[0x11; 60])?;
    let deed = Deed::Offer {
        number,
        node: 0,
        frame,
    };
    Ok(Act { tick, deed })
}

/// A noise at tick 300, and offers 1 and 3 at tick 500.
fn acts(alloc: Global) -> Result<Vec<Act>, Fail> {
    let mut acts = Vec::with_capacity(alloc, 3)?;
    acts.push(Act {
        tick: 300,
        deed: Deed::Noise { until: 340 },
    })?;
    acts.push(offer(500, 1)?)?;
    acts.push(offer(500, 3)?)?;
    Ok(acts)
}

/// The number of an offer that is due.
fn number_of(deed: Option<Deed>) -> Option<u16> {
    match deed {
        Some(Deed::Offer { number, .. }) => Some(number),
        _ => None,
    }
}

#[test]
fn acts_leave_in_their_ticks(rt: HostRuntime) -> Result<(), Fail> {
    let acts = acts(rt.alloc())?;
    let mut upcoming = UpcomingActs::new(rt.alloc(), acts.as_slice())?;
    assert_eq!(rt; upcoming.free_for(0, 1000), 300);
    assert_eq!(rt; upcoming.free_for(0, 20), 20);
    assert!(rt; upcoming.take_due(299).is_none());
    assert!(rt; matches!(upcoming.take_due(300), Some(Deed::Noise { until: 340 })));
    assert_eq!(rt; upcoming.free_for(301, 1000), 199);
    assert_eq!(rt; number_of(upcoming.take_due(500)), Some(1));
    assert_eq!(rt; upcoming.free_for(500, 1000), 0);
    assert_eq!(rt; number_of(upcoming.take_due(500)), Some(3));
    assert!(rt; upcoming.take_due(500).is_none());
    assert_eq!(rt; upcoming.free_for(501, 1000), 1000);
    Ok(())
}

#[test]
fn an_offer_stands_as_its_events_tell(rt: HostRuntime) -> Result<(), Fail> {
    let acts = acts(rt.alloc())?;
    let mut states = first_states(rt.alloc(), acts.as_slice())?;
    assert_eq!(rt; states.get(1), Some(&OfferState::Expected));
    assert_eq!(rt; states.get(2), Some(&OfferState::Unknown));
    keep_outcome(states.as_mut_slice(), 1, 500, OfferOutcome::Taken);
    keep_outcome(states.as_mut_slice(), 2, 500, OfferOutcome::Taken);
    keep_outcome(states.as_mut_slice(), 3, 500, OfferOutcome::Full);
    assert_eq!(rt;
        states.get(1).and_then(|state| wait_of(*state)),
        Some(Wait::Open)
    );
    assert_eq!(rt; states.get(2).and_then(|state| wait_of(*state)), None);
    assert_eq!(rt;
        states.get(3).and_then(|state| wait_of(*state)),
        Some(Wait::Full)
    );
    keep_leave(states.as_mut_slice(), None, 600);
    keep_leave(states.as_mut_slice(), Some(1), 620);
    keep_leave(states.as_mut_slice(), Some(1), 700);
    assert_eq!(rt;
        states.get(1).and_then(|state| wait_of(*state)),
        Some(Wait::Left(120))
    );
    Ok(())
}
