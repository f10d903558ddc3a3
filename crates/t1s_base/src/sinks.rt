// What octets are written to.
ghost use Rattle.std.specs.Prelude.{◌≡◌, ◌≤◌, List, ℕ, Bool, true, false, length, take, IfErr, OnOk, OnErr};
ghost use Rattle.std.specs.declared.option.Option.{Option};
ghost use Rattle.t1s_base.specs.Causes.{HasCause};
ghost use Rattle.t1s_base.specs.Octets.{Grows};

use crate::Failed;

/// A write stopped after the first `taken` octets of its piece.
#[derive(Clone, Copy, Debug, PartialEq, Eq)]
pub struct WriteStop {
    pub taken: usize,
}

/// What octets are written to.
pub trait Sink {
    /// The octets that were written, where the sink tells them.
    ghost written: { Self → Option (List ℕ) };

    /// How often the sink has failed. A count of 18446744073709551615 stays there.
    ghost faults: { Self → ℕ };

    /// Whether the sink is finished. A new sink isn't.
    ghost finished: { Self → Bool };

    /// Appends the piece, all of it at Ok.
    fn write(&mut self, piece: &[u8]) -> Result<(), WriteStop>
        ensures bound { IfErr result (λ stop. stop.taken ≤ length piece.now) }
        ensures whole { OnOk result (Grows (written self.old) (written self.new) piece.now) }
        ensures prefix { IfErr result (λ stop. Grows (written self.old) (written self.new) (take stop.taken piece.now)) }
        ensures unfinished { finished self.new ≡ false }
        ensures cause { HasCause (faults self.old) (faults self.new) result };

    /// Ends the writing: Ok says that nothing is held back.
    fn finish(&mut self) -> Result<(), Failed>
        ensures finished { OnOk result (finished self.new ≡ true) }
        ensures as_before { OnErr result (finished self.new ≡ finished self.old) }
        ensures octets { written self.new ≡ written self.old }
        ensures cause { HasCause (faults self.old) (faults self.new) result };
}
