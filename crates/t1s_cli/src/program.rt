// All that the program does.
ghost use Rattle.std.specs.Prelude.{◌≡◌, ◌≢◌, ◌⊎◌, ◌↔◌, ◌^◌, ◌≤◌, ℕ, List, [], length, true, Ok, Err, Some, drop};
ghost use Rattle.t1s_base.specs.Causes.{FaultCountRose};
ghost use Rattle.t1s_base.specs.Octets.{Gives, Grows, GrowsByPrefix};
ghost use Rattle.t1s_script.specs.Reading.{script_of};
ghost use Rattle.t1s_script.specs.declared.script.Script.{Script};
ghost use Rattle.t1s_script.specs.declared.refusals.ScriptRefusal.{ScriptRefusal};
ghost use Rattle.t1s_capture.specs.declared.items.Refusal.{Refusal};
ghost use Rattle.t1s_capture.specs.Captures.{IsCapture, IsCapturePrefix};
ghost use Rattle.t1s_capture.specs.Offences.{IsFirstOffence};
ghost use Rattle.t1s_report.specs.RefusalLines.{refused_line};
ghost use Rattle.t1s_cli.specs.declared.commands.ScriptTask.{ScriptTask};
ghost use Rattle.t1s_cli.specs.declared.commands.CaptureTask.{CaptureTask};
ghost use Rattle.t1s_cli.specs.declared.commands.GeneratedTask.{GeneratedTask};
ghost use Rattle.t1s_cli.specs.declared.commands.ScriptNumbers.{ScriptNumbers};
ghost use Rattle.t1s_cli.specs.Generated.{IsGeneratedText};
ghost use Rattle.t1s_cli.specs.Answers.{answer_of, status_of, text_of, IsWholeText, IsRefusedText, IsTextSoFar, IsTaskText};
ghost use Rattle.t1s_cli.specs.CaptureCall.{IsReadInPieces};
ghost use Rattle.t1s_cli.specs.Faults.{HasFaultCause};
ghost use Rattle.t1s_cli.specs.RunLaws.{RunLaws};
ghost use Rattle.t1s_cli.specs.Words.{AreTask, AreCaptureTask, AreGeneratedTask, AreCommand, ReadsInput};

use crate::commands::{CaptureTask, Command, command_of};
use crate::decode_command::decode_command;
use crate::generated_commands::generated_command;
use crate::script_commands::script_command;
use crate::status::Status;
use std::alloc::Global;
use t1s_base::{Sink, Source};

/// Does all that the program does: takes the words of the command line, reads the source and writes to
/// the sink.
///
/// With the one word `run` it reads a script to its end, in pieces of at most 4096 octets and up to the
/// octet 1,048,577, and writes the report of the script's run, each line by one `write` call.
///
/// With the one word `check` it reads a script in the same way, and writes whether it is fit by one `write`
/// call: the span and the bound, or the first premise that isn't met and its two values.
///
/// With the one word `json` it reads a script in the same way, and writes the summary of the script's run as one JSON
/// object and LF, by one `write` call.
///
/// With the word `capture` and a number of a node, 0 to 31, it reads a script in the same way, and writes the capture of
/// what that node hears in the script's run: the header, at most one text in each tick, and the last octets, each by
/// one `write` call. Where the script has no such node it writes the refusal `UnknownNode` of line 0.
///
/// With the word `pcap` and a number of a node, 0 to 31, it reads a script in the same way, and writes the good frames
/// that arrive at that node in the script's run as a pcap file: the header, and a record for each, each by one `write`
/// call. A missing node is refused as with `capture`.
///
/// With the one word `decode` it reads a capture in such pieces, up to the octet that is refused, and writes
/// the line of each item and the line of the end or of the refusal, each by one `write` call. It takes no
/// memory for that.
///
/// With the word `gen` and three numbers, a seed of 32 bits, 1 to 16 nodes and at most 400 frames, it reads nothing, and
/// writes the script that they make, each line by one `write` call. It takes no memory for that. With the word `load` and
/// such numbers it plays that script, and writes the summary of its run without the events, each line by one `write` call.
///
/// The answers: `Usage` where the words are no row of this table, and nothing was read or written. `ReadFault` and
/// `WriteFault` where the source or the sink failed, at once. `Refused` where the input is no script or no capture, or
/// the node is missing, and the last line says so. `Memory` where it was out of memory, before the first octet is
/// written. `Done` in all other cases.
pub fn workbench<S: Source, K: Sink>(
    alloc: Global,
    words: &[String],
    source: &mut S,
    sink: &mut K,
) -> Status
    // Any words.
    ensures usage { (result ≡ Status.Usage) ↔ ¬ (AreCommand words.now) }
    ensures usage_leaves_both { result ≡ Status.Usage → (source.new ≡ source.old) × (sink.new ≡ sink.old) }
    ensures read_fault { HasFaultCause (S.faults source.old) (S.faults source.new) Status.ReadFault result }
    ensures write_fault { HasFaultCause (K.faults sink.old) (K.faults sink.new) Status.WriteFault result }
    ensures memory_writes_nothing { result ≡ Status.Memory → sink.new ≡ sink.old }
    ensures finishes { (result ≡ Status.Done) ⊎ (result ≡ Status.Refused) → K.finished sink.new ≡ true }
    ensures done_reads_all { (octets : List ℕ) → ReadsInput words.now → S.left source.old ≡ Some octets → result ≡ Status.Done → S.left source.new ≡ Some [] }

    // The commands that read a script.
    ensures script_done { (task : ScriptTask) (octets : List ℕ) → AreTask words.now task → S.left source.old ≡ Some octets → result ≡ Status.Done →
        (text : List ℕ) × (answer_of task octets ≡ Ok text) × Grows (K.written sink.old) (K.written sink.new) text }
    ensures script_refused { (task : ScriptTask) (octets : List ℕ) → AreTask words.now task → S.left source.old ≡ Some octets → result ≡ Status.Refused →
        (refusal : ScriptRefusal) × (answer_of task octets ≡ Err refusal) × Grows (K.written sink.old) (K.written sink.new) (refused_line refusal) }
    ensures script_write_fault { (task : ScriptTask) (octets : List ℕ) → AreTask words.now task → S.left source.old ≡ Some octets → result ≡ Status.WriteFault →
        GrowsByPrefix (K.written sink.old) (K.written sink.new) (text_of (answer_of task octets)) }
    ensures script_read_fault { (task : ScriptTask) → AreTask words.now task → result ≡ Status.ReadFault → sink.new ≡ sink.old }
    ensures script_reads { (task : ScriptTask) (octets : List ℕ) → AreTask words.now task → S.left source.old ≡ Some octets →
        (result ≡ Status.Done) ⊎ ((result ≡ Status.Refused) ⊎ (result ≡ Status.WriteFault)) → S.left source.new ≡ Some (drop 1048577 octets) }
    ensures script_completes { (task : ScriptTask) (octets : List ℕ) → AreTask words.now task → S.left source.old ≡ Some octets →
        ¬ (FaultCountRose (S.faults source.old) (S.faults source.new)) → ¬ (FaultCountRose (K.faults sink.old) (K.faults sink.new)) →
        (result ≡ status_of (answer_of task octets)) ⊎ (result ≡ Status.Memory) }
    ensures run_laws { (octets : List ℕ) (s : Script) → AreTask words.now ScriptTask.Run → S.left source.old ≡ Some octets → script_of octets ≡ Ok s → RunLaws octets s }

    // The commands that read a capture.
    ensures capture_done { (task : CaptureTask) (octets : List ℕ) → AreCaptureTask words.now task → S.left source.old ≡ Some octets → result ≡ Status.Done →
        (text : List ℕ) × IsWholeText task octets text × Grows (K.written sink.old) (K.written sink.new) text }
    ensures capture_refused { (task : CaptureTask) (octets : List ℕ) → AreCaptureTask words.now task → S.left source.old ≡ Some octets → result ≡ Status.Refused →
        (text : List ℕ) × IsRefusedText task octets text × Grows (K.written sink.old) (K.written sink.new) text }
    ensures capture_write_fault { (task : CaptureTask) (octets : List ℕ) → AreCaptureTask words.now task → S.left source.old ≡ Some octets → result ≡ Status.WriteFault →
        (text : List ℕ) × IsTaskText task octets text × GrowsByPrefix (K.written sink.old) (K.written sink.new) text }
    ensures capture_read_fault { (task : CaptureTask) → AreCaptureTask words.now task → result ≡ Status.ReadFault →
        (taken : List ℕ) × (text : List ℕ) × Gives (S.left source.old) (S.left source.new) taken × IsCapturePrefix taken ×
        IsTextSoFar task taken text × Grows (K.written sink.old) (K.written sink.new) text }
    ensures capture_reads { (task : CaptureTask) → AreCaptureTask words.now task →
        (taken : List ℕ) × Gives (S.left source.old) (S.left source.new) taken × IsReadInPieces taken }
    ensures capture_takes_no_memory { (task : CaptureTask) → AreCaptureTask words.now task → result ≢ Status.Memory }
    ensures capture_completes { (task : CaptureTask) (octets : List ℕ) → AreCaptureTask words.now task → S.left source.old ≡ Some octets →
        ¬ (FaultCountRose (S.faults source.old) (S.faults source.new)) → ¬ (FaultCountRose (K.faults sink.old) (K.faults sink.new)) →
        (IsCapture octets → length octets ≤ 2 ^ 30 → result ≡ Status.Done) ×
        ((refusal : Refusal) → IsFirstOffence octets refusal.offset refusal.why → result ≡ Status.Refused) }

    // The commands that read nothing.
    ensures generated_source { (task : GeneratedTask) → AreGeneratedTask words.now task → source.new ≡ source.old }
    ensures generated_answers { (task : GeneratedTask) → AreGeneratedTask words.now task → (result ≢ Status.ReadFault) × (result ≢ Status.Refused) }
    ensures generated_done { (task : GeneratedTask) → AreGeneratedTask words.now task → result ≡ Status.Done →
        (text : List ℕ) × IsGeneratedText task text × Grows (K.written sink.old) (K.written sink.new) text }
    ensures generated_write_fault { (task : GeneratedTask) → AreGeneratedTask words.now task → result ≡ Status.WriteFault →
        (text : List ℕ) × IsGeneratedText task text × GrowsByPrefix (K.written sink.old) (K.written sink.new) text }
    ensures gen_takes_no_memory { (n : ScriptNumbers) → AreGeneratedTask words.now (GeneratedTask.Gen n) → result ≢ Status.Memory }
    ensures generated_completes { (task : GeneratedTask) → AreGeneratedTask words.now task → ¬ (FaultCountRose (K.faults sink.old) (K.faults sink.new)) →
        (result ≡ Status.Done) ⊎ (result ≡ Status.Memory) }
{
    match command_of(words) {
        Some(Command::OnScript(task)) => script_command(alloc, task, source, sink),
        Some(Command::OnCapture(CaptureTask::Decode)) => decode_command(source, sink),
        Some(Command::OnNumbers(task)) => generated_command(alloc, task, sink),
        None => Status::Usage,
    }
}
