// What octets are read from.
ghost use Rattle.std.specs.Prelude.{◌≡◌, ◌<◌, ◌↔◌, List, [], ℕ, length, take, IfOk, IfSome, OnErr};
ghost use Rattle.std.specs.Io.{ReadsAtMost};
ghost use Rattle.std.specs.declared.option.Option.{Option};
ghost use Rattle.t1s_base.specs.Causes.{HasCause};
ghost use Rattle.t1s_base.specs.Octets.{Gives};

/// The object failed, and its count of faults rose.
#[derive(Clone, Copy, Debug, PartialEq, Eq)]
pub struct Failed;

/// What octets are read from.
pub trait Source {
    /// The octets that are left, where the source tells them.
    ghost left: { Self → Option (List ℕ) };

    /// How often the source has failed. A count of 18446744073709551615 stays there.
    ghost faults: { Self → ℕ };

    /// Reads the next octets into the first places of `into`, and answers how many, which is 0 only at the
    /// end of the input. What stands after them in `into` may be anything. `Failed` takes nothing.
    fn read(&mut self, into: &mut [u8]) -> Result<usize, Failed>
        requires { 0 < length into.old }
        ensures bound { ReadsAtMost result into.new }
        ensures octets { IfOk result (λ count. Gives (left self.old) (left self.new) (take count into.new)) }
        ensures end { IfOk result (λ count. IfSome (left self.old) (λ octets. (count ≡ 0) ↔ (octets ≡ []))) }
        ensures none_taken { OnErr result (left self.new ≡ left self.old) }
        ensures cause { HasCause (faults self.old) (faults self.new) result };
}
