// The whole input of a command that reads a script.
ghost use Rattle.std.specs.Prelude.{◌≡◌, ◌≤◌, ◌⊎◌, ℕ, List, [], length, Some, IfOk};
ghost use Rattle.std.specs.Result.{IsErrOf};
ghost use Rattle.t1s_base.specs.Causes.{FaultCountRose};
ghost use Rattle.t1s_base.specs.Octets.{Gives};

use std::alloc::Global;
use t1s_base::{Failed, Source};

/// How many octets are asked for at once.
pub(crate) const PIECE: usize = 4096;

/// At this octet the reading ends: a script has fewer.
const LAST: usize = 1_048_577;

/// Why an input wasn't read whole.
#[derive(Clone, Copy, PartialEq, Eq, Debug)]
pub(crate) enum ReadStop {
    /// The source failed.
    Failed,
    /// It was out of memory.
    Memory,
}

/// Reads a source to its end, or to the octet 1,048,577, in pieces of at most 4096 octets.
pub(crate) fn read_whole<S: Source>(alloc: Global, source: &mut S) -> Result<Vec<u8>, ReadStop>
    ensures octets { IfOk result (λ bytes. Gives (S.left source.old) (S.left source.new) bytes.items) }
    ensures whole { IfOk result (λ bytes. (rest : List ℕ) → S.left source.new ≡ Some rest → (rest ≡ []) ⊎ (length bytes.items ≡ 1048577)) }
    ensures bound { IfOk result (λ bytes. length bytes.items ≤ 1048577) }
    ensures later { S.faults source.old ≤ S.faults source.new }
    ensures failed { IsErrOf result ReadStop.Failed → FaultCountRose (S.faults source.old) (S.faults source.new) }
    ensures kept { ¬ (IsErrOf result ReadStop.Failed) → S.faults source.new ≡ S.faults source.old }
{
    let mut bytes = Vec::new(alloc);
    let mut piece = [0u8; PIECE];
    while bytes.len() < LAST {
        let room = PIECE.min(LAST - bytes.len());
        match source.read(&mut piece[..room]) {
            Ok(0) => return Ok(bytes),
            Ok(count) => {
                if bytes.extend_from_slice(&piece[..count]).is_err() {
                    return Err(ReadStop::Memory);
                }
            }
            Err(Failed) => return Err(ReadStop::Failed),
        }
    }
    Ok(bytes)
}
