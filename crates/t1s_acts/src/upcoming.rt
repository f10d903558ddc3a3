//! The acts of a script that are still to come, with the frames that they offer.
ghost use Rattle.std.specs.Prelude.{◌≡◌};

use std::alloc::{AllocError, Global};
use std::marker::Model;
use t1s_script::{Act, Deed};

/// The acts that are still to come, in the order of their lines. An act leaves by value, and its frame with it.
#[derive(Drop)]
pub struct UpcomingActs {
    // the next one last
    acts: Vec<Act>,
}

impl Model for UpcomingActs {
    ghost use Rattle.std.specs.Prelude.{List, reverse};
    ghost use Rattle.t1s_script.specs.declared.script.Act.{Act};

    ghost Value = { List Act };

    ghost view = { λ u. reverse u.acts.items };
}

/// The same act, with a frame of its own.
fn copy_of(act: &Act) -> Act
    ensures { result ≡ act.now }
{
    let deed = match &act.deed {
        Deed::Offer {
            number,
            node,
            frame,
        } => Deed::Offer {
            number: *number,
            node: *node,
            frame: frame.copy(),
        },
        Deed::Noise { until } => Deed::Noise { until: *until },
    };
    Act {
        tick: act.tick,
        deed,
    }
}

impl UpcomingActs {
    ghost use Rattle.std.specs.Prelude.{◌≡◌, ◌∷◌, ◌≢◌, List, IfOk, IfSome};
    ghost use Rattle.t1s_script.specs.declared.script.Act.{Act};
    ghost use Rattle.t1s_acts.specs.Upcoming.{next_due, after_due, free_ticks};

    /// All of these acts are still to come.
    pub fn new(alloc: Global, acts: &[Act]) -> Result<UpcomingActs, AllocError>
        ensures { IfOk result (λ u. u ≡ acts.now) }
    {
        let mut upcoming = Vec::with_capacity(alloc, acts.len())?;
        for act in acts {
            upcoming.push(copy_of(act))?;
        }
        upcoming.as_mut_slice().reverse();
        Ok(UpcomingActs { acts: upcoming })
    }

    /// Takes the next act, if it is one of this tick.
    pub fn take_due(&mut self, tick: u64) -> Option<Deed>
        ensures deed { result ≡ next_due tick self.old }
        ensures rest { self.new ≡ after_due tick self.old }
    {
        match self.acts.last() {
            Some(act) if act.tick == tick => self.acts.pop().map(|act| act.deed),
            _ => None,
        }
    }

    /// How many ticks from this one on come before the next act, at most so many.
    pub fn free_for(&self, tick: u64, most: u64) -> u64
        ensures { result ≡ free_ticks tick most self.now }
    {
        match self.acts.last() {
            Some(act) => act.tick.saturating_sub(tick).min(most),
            None => most,
        }
    }
}
