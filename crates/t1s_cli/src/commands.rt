// What the words of the command line ask for.
ghost use Rattle.std.specs.Prelude.{◌≡◌, ◌↔◌, ◌≤◌, ℕ, Some, decimal};
ghost use Rattle.t1s_base.specs.Limits.{last_node};
ghost use Rattle.t1s_cli.specs.declared.commands.ScriptTask.{ScriptTask};
ghost use Rattle.t1s_cli.specs.declared.commands.CaptureTask.{CaptureTask};
ghost use Rattle.t1s_cli.specs.declared.commands.GeneratedTask.{GeneratedTask};
ghost use Rattle.t1s_cli.specs.declared.commands.ScriptNumbers.{ScriptNumbers};
ghost use Rattle.t1s_cli.specs.Generated.{AreInRange};
ghost use Rattle.t1s_cli.specs.Words.{AreTask, AreCaptureTask, AreGeneratedTask};

use t1s_base::{LAST_NODE, read_number};

/// What is done with a script that was read.
#[derive(Clone, Copy, PartialEq, Eq, Debug)]
pub(crate) enum ScriptTask {
    /// `run`: writes the report of its run.
    Run,
    /// `check`: writes whether it is fit.
    Check,
    /// `json`: writes the summary of its run as a JSON object.
    Json,
    /// `capture K`: writes what the node with this number hears in its run.
    Capture(u8),
    /// `pcap K`: writes the frames that arrive at the node with this number in its run.
    Pcap(u8),
}

/// What is done with a capture while it is read.
#[derive(Clone, Copy, PartialEq, Eq, Debug)]
pub(crate) enum CaptureTask {
    /// `decode`: writes its items.
    Decode,
}

/// The numbers that a script is made from: a seed, how many nodes, and how many frames.
#[derive(Clone, Copy, PartialEq, Eq, Debug)]
pub(crate) struct ScriptNumbers {
    pub(crate) seed: u64,
    pub(crate) nodes: u8,
    pub(crate) frames: u16,
}

/// What is done with a script that is made from numbers.
#[derive(Clone, Copy, PartialEq, Eq, Debug)]
pub(crate) enum GeneratedTask {
    /// `gen`: writes it.
    Gen(ScriptNumbers),
    /// `load`: writes the summary of its run.
    Load(ScriptNumbers),
}

/// A row of the table of commands.
#[derive(Clone, Copy, PartialEq, Eq, Debug)]
pub(crate) enum Command {
    /// Reads a script, and does the task.
    OnScript(ScriptTask),
    /// Reads a capture, and does the task.
    OnCapture(CaptureTask),
    /// Reads nothing, and does the task.
    OnNumbers(GeneratedTask),
}

/// The greatest seed of a script that is made.
const LAST_SEED: u64 = 4_294_967_295;
/// The most nodes of it, fewer than a segment may have.
const MOST_NODES_MADE: u64 = 16;
/// The most frames of it.
const MOST_FRAMES_MADE: u64 = 400;

/// The number of a node that a word writes: 0 to [`LAST_NODE`].
fn node_number(word: &[u8]) -> Option<u8>
    ensures { (node : ℕ) → (result ≡ Some node) ↔ ((node ≤ last_node) × (word.now ≡ decimal node)) }
{
    match read_number(word) {
        Some(number) if number <= u64::from(LAST_NODE) => Some(number as u8),
        _ => None,
    }
}

/// The number that a word writes, if it is one of these.
fn number_in(word: &[u8], least: u64, most: u64) -> Option<u64>
    requires { most ≤ 4294967295 }
    ensures { (n : ℕ) → (result ≡ Some n) ↔ ((least ≤ n) × (n ≤ most) × (word.now ≡ decimal n)) }
{
    match read_number(word) {
        Some(number) if least <= number && number <= most => Some(number),
        _ => None,
    }
}

/// The numbers that three words write, if each is in its range.
fn script_numbers(seed: &[u8], nodes: &[u8], frames: &[u8]) -> Option<ScriptNumbers>
    ensures { (n : ScriptNumbers) → (result ≡ Some n) ↔
        (AreInRange n × (seed.now ≡ decimal n.seed) × (nodes.now ≡ decimal n.nodes) × (frames.now ≡ decimal n.frames)) }
{
    let seed = number_in(seed, 0, LAST_SEED)?;
    let nodes = number_in(nodes, 1, MOST_NODES_MADE)?;
    let frames = number_in(frames, 0, MOST_FRAMES_MADE)?;
    Some(ScriptNumbers {
        seed,
        nodes: nodes as u8,
        frames: frames as u16,
    })
}

/// The task with numbers that the words ask for, if they ask for one.
fn generated_task_of(words: &[String]) -> Option<GeneratedTask>
    ensures { (task : GeneratedTask) → (result ≡ Some task) ↔ AreGeneratedTask words.now task }
{
    match words {
        [word, seed, nodes, frames] if word.as_bytes() == b"gen".as_slice() => {
            let numbers = script_numbers(seed.as_bytes(), nodes.as_bytes(), frames.as_bytes())?;
            Some(GeneratedTask::Gen(numbers))
        }
        [word, seed, nodes, frames] if word.as_bytes() == b"load".as_slice() => {
            let numbers = script_numbers(seed.as_bytes(), nodes.as_bytes(), frames.as_bytes())?;
            Some(GeneratedTask::Load(numbers))
        }
        _ => None,
    }
}

/// The row that the words are, if they are one.
pub(crate) fn command_of(words: &[String]) -> Option<Command>
    ensures script { (task : ScriptTask) → (result ≡ Some (Command.OnScript task)) ↔ AreTask words.now task }
    ensures capture { (task : CaptureTask) → (result ≡ Some (Command.OnCapture task)) ↔ AreCaptureTask words.now task }
    ensures generated { (task : GeneratedTask) → (result ≡ Some (Command.OnNumbers task)) ↔ AreGeneratedTask words.now task }
{
    match words {
        [word] if word.as_bytes() == b"run".as_slice() => {
            Some(Command::OnScript(ScriptTask::Run))
        }
        [word] if word.as_bytes() == b"check".as_slice() => {
            Some(Command::OnScript(ScriptTask::Check))
        }
        [word] if word.as_bytes() == b"json".as_slice() => {
            Some(Command::OnScript(ScriptTask::Json))
        }
        [word] if word.as_bytes() == b"decode".as_slice() => {
            Some(Command::OnCapture(CaptureTask::Decode))
        }
        [word, number] if word.as_bytes() == b"capture".as_slice() => {
            let node = node_number(number.as_bytes())?;
            Some(Command::OnScript(ScriptTask::Capture(node)))
        }
        [word, number] if word.as_bytes() == b"pcap".as_slice() => {
            let node = node_number(number.as_bytes())?;
            Some(Command::OnScript(ScriptTask::Pcap(node)))
        }
        _ => Some(Command::OnNumbers(generated_task_of(words)?)),
    }
}
