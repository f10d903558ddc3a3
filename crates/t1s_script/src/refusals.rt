// Why a script is refused.
ghost use Rattle.std.specs.Prelude.{◌≡◌, alloc_error};
ghost use Rattle.t1s_script.specs.declared.refusals.ScriptFault.TheVariants.{Memory};

use std::alloc::{AllocError, AllocFailed};

/// What is wrong with a script. A line is refused for the first of these that holds of it.
#[derive(Clone, Copy, PartialEq, Eq, Debug)]
pub enum ScriptReason {
    /// It has more than 1,048,576 octets. Its line is 0.
    TooLong,
    /// Its first line is none of `t1s 1`, `t1s 2` and `t1s 3`, or it has no line. Its line is 1.
    FirstLine,
    /// A line that isn't skipped stands after `end`.
    AfterEnd,
    /// A line begins with none of the words of the script's version.
    UnknownWord,
    /// A line has not as many fields as its word takes.
    Form,
    /// A field isn't one to ten decimal digits without a leading zero.
    Number,
    /// A number is outside its range.
    OutOfRange,
    /// A text of octets has an odd length or an octet that isn't a hex digit, or that of one octet isn't two
    /// hex digits.
    Hex,
    /// A frame has fewer than 14 or more than 1518 octets.
    FrameSize,
    /// A line that may stand once stands again, or an `also` line repeats an ID of the same node.
    Twice,
    /// A line names a node that has no earlier `node` line.
    UnknownNode,
    /// A timed tick is below the tick of an earlier timed line, or `end` isn't above the last timed tick.
    Order,
    /// More than 4096 timed lines, more than 64 `draw` lines of a node, or more than three `also` lines of one.
    TooMany,
    /// `end` comes and no `node` line stood before.
    NoNode,
    /// There is no `end` line. Its line is the number of lines plus 1.
    NoEnd,
}

/// The first line at which a script is refused, and why.
#[derive(Clone, Copy, PartialEq, Eq, Debug)]
pub struct ScriptRefusal {
    /// The line's number, counted from 1.
    pub line: u32,
    /// What is wrong there.
    pub reason: ScriptReason,
}

/// Why a line isn't taken.
#[derive(Drop)]
pub enum LineFault {
    /// It is refused.
    Reason(ScriptReason),
    /// Out of memory.
    Memory(AllocError),
}

impl From<ScriptReason> for LineFault {
    ghost use Rattle.std.specs.Prelude.{◌≡◌};
    ghost use Rattle.t1s_script.specs.declared.refusals.LineFault.TheVariants.{Reason};

    ghost from_gives = { λ reason fault. fault ≡ Reason reason };

    fn from(reason: ScriptReason) -> LineFault {
        LineFault::Reason(reason)
    }
}

impl From<AllocError> for LineFault {
    ghost use Rattle.std.specs.Prelude.{◌≡◌};
    ghost use Rattle.t1s_script.specs.declared.refusals.LineFault.TheVariants.{Memory};

    ghost from_gives = { λ error fault. fault ≡ Memory error };

    fn from(error: AllocError) -> LineFault {
        LineFault::Memory(error)
    }
}

/// Why no script was read.
#[derive(Drop, Debug)]
pub enum ScriptFault {
    /// The octets are no script.
    Refused(ScriptRefusal),
    /// Out of memory.
    Memory(AllocError),
}

impl<T: Drop> From<AllocFailed<T>> for ScriptFault {
    ghost from_gives = { λ _ fault. fault ≡ Memory alloc_error };

    fn from(failed: AllocFailed<T>) -> ScriptFault {
        ScriptFault::Memory(AllocError::from(failed))
    }
}
