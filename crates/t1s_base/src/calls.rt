// The calls of a source or a sink whose faults are planned.
ghost use Rattle.std.specs.Prelude.{◌≡◌};
ghost use Rattle.t1s_base.specs.Causes.{count_after_fault};
ghost use Rattle.t1s_base.specs.Memory.{no_calls, is_next_listed, after_call};

use std::marker::Model;

/// Raises a count by one. A count of 18446744073709551615 stays there.
pub(crate) fn raise(count: &mut u64)
    ensures { count.new ≡ count_after_fault count.old }
{
    *count = count.saturating_add(1);
}

/// Counts calls from 1, and knows which of them are to fail.
#[derive(Drop)]
pub(crate) struct Calls {
    fails: Vec<u64>,
    made: u64,
    failed: u64,
}

impl Model for Calls {
    ghost use Rattle.t1s_base.specs.Memory.{CallsState};

    ghost Value = { CallsState };

    ghost view = { λ calls. record { fails = calls.fails.items; made = calls.made; failed = calls.failed } };
}

impl Calls {
    /// No call was made yet; those with the numbers in `fails` are to fail.
    pub(crate) fn new(fails: Vec<u64>) -> Calls
        ensures { result ≡ no_calls fails.items }
    {
        Calls {
            fails,
            made: 0,
            failed: 0,
        }
    }

    /// Counts a call, and answers whether it is to fail.
    pub(crate) fn count(&mut self) -> bool
        ensures listed { result ≡ is_next_listed self.old }
        ensures counted { self.new ≡ after_call self.old }
    {
        raise(&mut self.made);
        self.fails.contains(&self.made)
    }

    /// Counts the fault of the call that was counted last.
    pub(crate) fn fail(&mut self)
        ensures { self.new ≡ record self.old { failed = count_after_fault self.old.failed } }
    {
        raise(&mut self.failed);
    }
}
