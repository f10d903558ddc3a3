// All that a call does.
ghost use Rattle.std.specs.Prelude.{◌≡◌, ◌≤◌, ◌⊎◌, ◌↔◌, ℕ, List, [], ◌∷◌, ◌++◌, true, false, Some, None};
ghost use Rattle.t1s_base.specs.Causes.{FaultCountRose};
ghost use Rattle.t1s_base.specs.Octets.{Gives, Grows, GrowsByPrefix};
ghost use Rattle.t1s_waveform.specs.Dumps.{IsDump};
ghost use Rattle.t1s_drawing.specs.Calls.{HasFaultCause};
ghost use Rattle.t1s_drawing.specs.Drawn.{Drawn, status_of};
ghost use Rattle.t1s_drawing.specs.DrawCall.{AreWords, DrawCall, dump_window, heard_window, hearing, picture_window, window_in, window_of, word_octets};
ghost use Rattle.t1s_drawing.specs.Written.{drawing_of};
ghost use Rattle.t1s_drawing.specs.Xml.{IsDocument};
ghost use Rattle.t1s_drawing.specs.declared.window.Window.{Window};

use crate::drawing::Drawing;
use crate::parsing::small_number;
use crate::progress::MOST_LANES;
use crate::status::Status;
use crate::window::{Form, Window};
use crate::writing::write_opening;
use t1s_base::{Failed, Sink, Source};

/// How many octets are read at once.
const PIECE: usize = 4096;

/// The window of these numbers, where it has a tick and a node, and no more than 32 nodes.
fn window_of(
    form: Form,
    from: Option<u32>,
    until: Option<u32>,
    nodes: Option<u32>,
) -> Option<Window>
    ensures { result ≡ window_of form from until nodes }
{
    match (from, until, nodes) {
        (Some(from), Some(until), Some(nodes)) => {
            if from < until && 0 < nodes && nodes <= MOST_LANES {
                Some(Window {
                    form,
                    from,
                    until,
                    nodes,
                    heard: None,
                })
            } else {
                None
            }
        }
        _ => None,
    }
}

/// The window of a picture.
fn picture_window(word: &[u8], from: &[u8], until: &[u8], nodes: &[u8]) -> Option<Window>
    ensures { result ≡ picture_window word.now from.now until.now nodes.now }
{
    if word == b"picture".as_slice() {
        window_of(
            Form::Picture,
            small_number(from),
            small_number(until),
            small_number(nodes),
        )
    } else {
        None
    }
}

/// The window of a dump.
fn dump_window(word: &[u8], until: &[u8], nodes: &[u8]) -> Option<Window>
    ensures { result ≡ dump_window word.now until.now nodes.now }
{
    if word == b"wave".as_slice() {
        window_of(
            Form::Waveform,
            Some(0),
            small_number(until),
            small_number(nodes),
        )
    } else {
        None
    }
}

/// The window that also shows what this node hears, where there is such a node.
fn hearing(window: Option<Window>, node: Option<u32>) -> Option<Window>
    ensures { result ≡ hearing window node }
{
    match (window, node) {
        (Some(w), Some(node)) => {
            if node < w.nodes {
                Some(Window {
                    form: w.form,
                    from: w.from,
                    until: w.until,
                    nodes: w.nodes,
                    heard: Some(node),
                })
            } else {
                None
            }
        }
        _ => None,
    }
}

/// The window of a dump that shows what a node hears.
fn heard_window(word: &[u8], until: &[u8], nodes: &[u8], node: &[u8]) -> Option<Window>
    ensures { result ≡ heard_window word.now until.now nodes.now node.now }
{
    hearing(dump_window(word, until, nodes), small_number(node))
}

/// The window that four words name.
fn window_of_four(word: &[u8], first: &[u8], second: &[u8], third: &[u8]) -> Option<Window>
    ensures { result ≡ window_in (word.now ∷ first.now ∷ second.now ∷ third.now ∷ []) }
{
    if word == b"picture".as_slice() {
        picture_window(word, first, second, third)
    } else {
        heard_window(word, first, second, third)
    }
}

/// The window that the words name.
fn window_in(words: &[String]) -> Option<Window>
    ensures { result ≡ window_in (word_octets words.now) }
{
    match words {
        [word, first, second, third] => window_of_four(
            word.as_bytes(),
            first.as_bytes(),
            second.as_bytes(),
            third.as_bytes(),
        ),
        [word, until, nodes] => { dump_window(word.as_bytes(), until.as_bytes(), nodes.as_bytes()) }
        _ => None,
    }
}

/// Reads a report in pieces of at most 4096 octets, and writes what its lines give.
fn read_report<S: Source, K: Sink>(
    w: &Window,
    drawing: Drawing,
    source: &mut S,
    sink: &mut K,
) -> Status
    requires { drawing.number ≤ 1073741825 }
    ensures { (first : K) → Drawn K.written K.faults w.now [] drawing first sink.old → DrawCall S.left S.faults K.written K.faults K.finished w.now source.old source.new first sink.new result }
{
    let mut drawing = drawing;
    let mut piece = [0u8; PIECE];
    loop {
        match source.read(&mut piece) {
            Ok(0) => return drawing.end(w, sink),
            Ok(count) => match drawing.take_piece(w, &piece[..count], sink) {
                Ok(()) => {}
                Err(status) => return status,
            },
            Err(Failed) => return Status::ReadFault,
        }
    }
}

/// Reads a report and writes what the window asks for.
fn draw_window<S: Source, K: Sink>(w: &Window, source: &mut S, sink: &mut K) -> Status
    ensures { DrawCall S.left S.faults K.written K.faults K.finished w.now source.old source.new sink.old sink.new result }
{
    let drawing = Drawing::new();
    match write_opening(w, &drawing.progress, sink) {
        Ok(()) => read_report(w, drawing, source, sink),
        Err(Failed) => Status::WriteFault,
    }
}

/// Does all that the program does: takes the words of the command line, reads a report and writes its picture or its dump.
///
/// The words are `picture FROM UNTIL NODES`: the first tick that is drawn, the tick after the last one, and how many nodes
/// the segment has, numbered from 0; or `wave UNTIL NODES`, or `wave UNTIL NODES K`. The report is that of the command `run`, and is
/// read in pieces of at most 4096 octets. With K further lines may stand among its events, in the order of their ticks:
/// `TICK hears K WHAT`, by which node K hears from that tick on `silence`, a `beacon`, a `run` of pieces, a `bare` commit, or of a
/// torn burst the symbols (`torn`) or the `blur`. The picture is an SVG, written in one pass: the lanes, the ticks and the legend, then what each line
/// of the report gives, by one `write` call a line, and at its end the bars of what is still driven. The dump is a value
/// change dump (VCD) with a time unit of 100 ns, a tick: the wires of each node, then for each tick that has an event what it
/// changes, and one tick later the ends of its pulses, and at its end the tick UNTIL; with K also a wire of three bits, what node K
/// hears. No memory is taken.
///
/// The answers: `Usage` where the words are no others, and nothing was read or written. `ReadFault` and `WriteFault` where the
/// source or the sink failed, at once. `Refused` where the input is no report: the last line says which line isn't, by its
/// number from 1, and why. `Done` in all other cases.
pub fn draw<S: Source, K: Sink>(words: &[String], source: &mut S, sink: &mut K) -> Status
    ensures usage { (result ≡ Status.Usage) ↔ (window_in (word_octets words.now) ≡ None) }
    ensures usage_leaves_both { result ≡ Status.Usage → (source.new ≡ source.old) × (sink.new ≡ sink.old) }
    ensures read_fault { HasFaultCause (S.faults source.old) (S.faults source.new) Status.ReadFault result }
    ensures write_fault { HasFaultCause (K.faults sink.old) (K.faults sink.new) Status.WriteFault result }
    ensures finishes { (result ≡ Status.Done) ⊎ (result ≡ Status.Refused) → K.finished sink.new ≡ true }
    ensures done { (w : Window) (octets : List ℕ) → AreWords words.now w → S.left source.old ≡ Some octets → result ≡ Status.Done →
        ((drawing_of w octets).refused ≡ false) × Grows (K.written sink.old) (K.written sink.new) (drawing_of w octets).text × (S.left source.new ≡ Some []) }
    // A picture is an XML document.
    ensures document { (w : Window) (octets : List ℕ) → AreWords words.now w → w.form ≡ Form.Picture → S.left source.old ≡ Some octets → result ≡ Status.Done → IsDocument (drawing_of w octets).text }
    // A dump is a valid one.
    ensures dump { (w : Window) (octets : List ℕ) → AreWords words.now w → w.form ≡ Form.Waveform → S.left source.old ≡ Some octets → result ≡ Status.Done → IsDump (drawing_of w octets).text }
    ensures refused { (w : Window) (octets : List ℕ) → AreWords words.now w → S.left source.old ≡ Some octets → result ≡ Status.Refused →
        ((drawing_of w octets).refused ≡ true) × Grows (K.written sink.old) (K.written sink.new) (drawing_of w octets).text }
    ensures write_fault_text { (w : Window) (octets : List ℕ) → AreWords words.now w → S.left source.old ≡ Some octets → result ≡ Status.WriteFault →
        GrowsByPrefix (K.written sink.old) (K.written sink.new) (drawing_of w octets).text }
    ensures read_fault_text { (w : Window) → AreWords words.now w → result ≡ Status.ReadFault →
        (taken : List ℕ) × Gives (S.left source.old) (S.left source.new) taken ×
        ((more : List ℕ) → GrowsByPrefix (K.written sink.old) (K.written sink.new) (drawing_of w (taken ++ more)).text) }
    ensures completes { (w : Window) (octets : List ℕ) → AreWords words.now w → S.left source.old ≡ Some octets →
        ¬ (FaultCountRose (S.faults source.old) (S.faults source.new)) → ¬ (FaultCountRose (K.faults sink.old) (K.faults sink.new)) →
        result ≡ status_of (drawing_of w octets) }
{
    match window_in(words) {
        Some(w) => draw_window(&w, source, sink),
        None => Status::Usage,
    }
}
