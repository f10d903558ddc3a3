// How a script is read.
ghost use Rattle.std.specs.Prelude.{◌≡◌, ◌+◌, ◌≤◌, IfOk, Ok, map};
ghost use Rattle.t1s_script.specs.Lines.{lines_of};
ghost use Rattle.t1s_script.specs.ParsedLine.{parsed_line};
ghost use Rattle.t1s_script.specs.Draft.{fault_at, script_at};
ghost use Rattle.t1s_script.specs.Reading.{IsAnswer, script_after_first, script_of};
ghost use Rattle.t1s_script.specs.Script.{IsScript};

use crate::draft::Draft;
use crate::parsing::read_line;
use crate::refusals::{LineFault, ScriptFault, ScriptReason, ScriptRefusal};
use crate::script::Script;
use crate::text::Lines;
use crate::versions::Version;
use std::alloc::Global;

/// How many octets a script has at most.
const MOST_OCTETS: usize = 1_048_576;

/// The refusal of that line.
fn refusal(line: u32, reason: ScriptReason) -> ScriptFault
    ensures { result ≡ ScriptFault.Refused (record { line = line; reason = reason }) }
{
    ScriptFault::Refused(ScriptRefusal { line, reason })
}

/// What a line that isn't taken is answered with.
fn fault_at(line: u32, fault: LineFault) -> ScriptFault
    ensures { result ≡ fault_at line fault }
{
    match fault {
        LineFault::Reason(reason) => refusal(line, reason),
        LineFault::Memory(error) => ScriptFault::Memory(error),
    }
}

/// The script of all lines, where the next line would have that number.
fn finished(alloc: Global, number: u32, draft: Draft) -> Result<Script, ScriptFault>
    ensures { IsAnswer (script_at number draft draft.end) result }
{
    match draft.end {
        Some(end) => draft.script(alloc, end).map_err(ScriptFault::Memory),
        None => Err(refusal(number, ScriptReason::NoEnd)),
    }
}

/// Reads the lines after the first, as those of that version.
fn read_lines(alloc: Global, version: Version, mut lines: Lines<'_>) -> Result<Script, ScriptFault>
    requires { lines.taken ≡ 1 }
    ensures { IsAnswer (script_after_first (map (parsed_line version) (lines_of lines.entry.rest.now))) result }
{
    let mut draft = Draft::start(alloc);
    while let Some(line) = lines.next() {
        if let Err(fault) = draft.take(alloc, read_line(version, line)) {
            return Err(fault_at(lines.taken(), fault));
        }
    }
    finished(alloc, lines.taken() + 1, draft)
}

/// Reads a script, in one pass over its octets. It is refused at the first line that breaks a rule, for
/// the first reason of `ScriptReason` that holds of that line. It takes no memory but for what the script
/// keeps: its nodes, its draws and its acts.
pub fn read_script(alloc: Global, bytes: &[u8]) -> Result<Script, ScriptFault>
    ensures answer { IsAnswer (script_of bytes.now) result }
    ensures valid { IfOk result IsScript }
{
    if bytes.len() > MOST_OCTETS {
        return Err(refusal(0, ScriptReason::TooLong));
    }
    let mut lines = Lines::of(bytes);
    match lines.next().and_then(Version::of) {
        Some(version) => read_lines(alloc, version, lines),
        None => Err(refusal(1, ScriptReason::FirstLine)),
    }
}
