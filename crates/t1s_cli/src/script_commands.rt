// The commands that read a script.
ghost use Rattle.std.specs.Prelude.{◌≡◌, ◌≢◌};
ghost use Rattle.t1s_script.specs.Script.{IsScript};
ghost use Rattle.t1s_report.specs.RefusalLines.{refused_line};
ghost use Rattle.t1s_cli.specs.Answers.{answer_of, has_node, status_of, task_answer, text_of};
ghost use Rattle.t1s_cli.specs.ScriptCall.{ScriptCall};
ghost use Rattle.t1s_cli.specs.TextOutcome.{TextOutcome};

use crate::capture_command::capture_script;
use crate::check_command::check_script;
use crate::commands::ScriptTask;
use crate::json_command::json_script;
use crate::pcap_command::pcap_script;
use crate::run_command::run_script;
use crate::script_input::{ReadStop, read_whole};
use crate::status::Status;
use crate::text_end::write_last;
use std::alloc::Global;
use t1s_base::{Line, Sink, Source};
use t1s_report::refused_line;
use t1s_script::{Script, ScriptFault, ScriptReason, ScriptRefusal, read_script};

/// The script has no node with the number that is asked for: a refusal of no line.
const NO_SUCH_NODE: ScriptRefusal = ScriptRefusal {
    line: 0,
    reason: ScriptReason::UnknownNode,
};

/// Writes the line of a refusal. It takes no memory.
fn refuse<K: Sink>(refusal: &ScriptRefusal, sink: &mut K) -> Status
    ensures outcome { TextOutcome K.written K.faults K.finished Status.Refused (refused_line refusal.now) sink.old sink.new result }
    ensures takes_none { result ≢ Status.Memory }
{
    let mut line = Line::new();
    refused_line(&mut line, refusal);
    write_last(&line, sink, Status::Refused)
}

/// Whether the script has a node with this number.
fn has_node(script: &Script, node: u8) -> bool
    ensures { result ≡ has_node script.now node }
{
    script.nodes.as_slice().iter().any(|line| line.no == node)
}

/// Does the task with a script, and writes its text, or why the task refuses the script.
fn do_task<K: Sink>(alloc: Global, task: ScriptTask, script: &Script, sink: &mut K) -> Status
    requires { IsScript script.now }
    ensures { TextOutcome K.written K.faults K.finished (status_of (task_answer task script.now)) (text_of (task_answer task script.now)) sink.old sink.new result }
{
    match task {
        ScriptTask::Run => run_script(alloc, script, sink),
        ScriptTask::Check => check_script(script, sink),
        ScriptTask::Json => json_script(alloc, script, sink),
        ScriptTask::Capture(node) => {
            if has_node(script, node) {
                capture_script(alloc, node, script, sink)
            } else {
                refuse(&NO_SUCH_NODE, sink)
            }
        }
        ScriptTask::Pcap(node) => {
            if has_node(script, node) {
                pcap_script(alloc, node, script, sink)
            } else {
                refuse(&NO_SUCH_NODE, sink)
            }
        }
    }
}

/// Reads the octets of a script and does the task with it, or writes why it is refused.
fn do_task_on<K: Sink>(alloc: Global, task: ScriptTask, bytes: &[u8], sink: &mut K) -> Status
    ensures { TextOutcome K.written K.faults K.finished (status_of (answer_of task bytes.now)) (text_of (answer_of task bytes.now)) sink.old sink.new result }
{
    match read_script(alloc, bytes) {
        Ok(script) => do_task(alloc, task, &script, sink),
        Err(ScriptFault::Refused(refusal)) => refuse(&refusal, sink),
        Err(ScriptFault::Memory(_)) => Status::Memory,
    }
}

/// Reads a script to its end, in pieces of at most 4096 octets and up to the octet 1,048,577, and does the task with it.
pub(crate) fn script_command<S: Source, K: Sink>(
    alloc: Global,
    task: ScriptTask,
    source: &mut S,
    sink: &mut K,
) -> Status
    ensures { ScriptCall S.left S.faults K.written K.faults K.finished task source.old source.new sink.old sink.new result }
{
    match read_whole(alloc, source) {
        Ok(bytes) => do_task_on(alloc, task, bytes.as_slice(), sink),
        Err(ReadStop::Failed) => Status::ReadFault,
        Err(ReadStop::Memory) => Status::Memory,
    }
}
