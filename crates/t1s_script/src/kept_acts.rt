// The acts of the timed lines so far.
ghost use Rattle.std.specs.Prelude.{◌≡◌, ◌++◌, ◌∷◌, ◌<◌, ◌≤◌, [], OnOk, length};
ghost use Rattle.t1s_script.specs.Limits.{most_acts};
ghost use Rattle.t1s_script.specs.Script.{offers_in};

use crate::script::{Act, ActList, Deed};
use std::alloc::{AllocError, Global};
use std::marker::Model;

/// The acts of the timed lines so far. How many of them are offers is counted along, so that an offer is numbered
/// without a look at those before it.
#[derive(Drop)]
pub struct KeptActs {
    list: ActList,
    offers: u16,
}

impl Model for KeptActs {
    ghost use Rattle.std.specs.Prelude.{◌≡◌, ◌≤◌, List, length};
    ghost use Rattle.t1s_script.specs.Limits.{most_acts};
    ghost use Rattle.t1s_script.specs.Script.{offers_in};
    ghost use Rattle.t1s_script.specs.declared.script.Act.{Act};

    ghost Value = { List Act };

    ghost view = { λ k. k.list };

    ghost invariant = { λ k. (k.offers ≡ offers_in k.list) × (length k.list ≤ most_acts) };
}

/// How many offers an act is.
fn offers_of(act: &Act) -> u16
    ensures value { result ≡ offers_in (act.now ∷ []) }
    ensures few { result ≤ 1 }
{
    match &act.deed {
        Deed::Offer { .. } => 1,
        Deed::Noise { .. } => 0,
    }
}

impl KeptActs {
    /// No timed line stood yet. It takes no memory.
    pub fn none(alloc: Global) -> KeptActs
        ensures { result ≡ [] }
    {
        KeptActs {
            list: ActList::none(alloc),
            offers: 0,
        }
    }

    /// How many acts there are.
    pub fn len(&self) -> usize
        ensures { result ≡ length self.now }
    {
        self.list.as_slice().len()
    }

    /// How many of them are offers.
    pub fn offers(&self) -> u16
        ensures value { result ≡ offers_in self.now }
        ensures few { result ≤ most_acts }
    {
        self.offers
    }

    /// One more act.
    pub fn push(&mut self, act: Act) -> Result<(), AllocError>
        requires { length self.old < most_acts }
        ensures { OnOk result (self.new ≡ self.old ++ act ∷ []) }
    {
        let offers = self.offers + offers_of(&act);
        self.list.push(act)?;
        self.offers = offers;
        Ok(())
    }

    /// The list of all acts.
    pub fn list(self) -> ActList
        ensures { result ≡ self }
    {
        self.list
    }
}
