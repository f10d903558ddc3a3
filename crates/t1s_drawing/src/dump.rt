// How a value change dump is written.
ghost use Rattle.std.specs.Prelude.{◌≡◌, ◌+◌, ◌≤◌, ◌<◌, true, false, List, [], ◌∷◌, ◌++◌, length, codes};
ghost use Rattle.t1s_waveform.specs.Dumps.{items_text, time_text};
ghost use Rattle.t1s_drawing.specs.Calls.{Wrote};
ghost use Rattle.t1s_drawing.specs.Dump.{before_text, changes_text, dump_opening, event_changes, event_text, fallen_text, falls_text, heard_scope_text, heard_start_text, last_time, moved_text, time_after, with_begin, with_scopes, with_starts, with_wires};
ghost use Rattle.t1s_drawing.specs.Progress.{at_start};

use crate::progress::Progress;
use crate::report::{Event, Happening};
use crate::window::Window;
use crate::writing::{Piece, write_each, write_line};
use t1s_base::{Failed, Line, Sink};
use t1s_waveform::{Heard, put_change, put_drive, put_heard, put_heard_scope, put_time};

/// Writes a text.
fn write_octets<K: Sink>(text: &[u8], sink: &mut K) -> Result<(), Failed>
    ensures { Wrote K.written K.faults text.now sink.old sink.new result }
{
    match sink.write(text) {
        Ok(()) => Ok(()),
        Err(_) => Err(Failed),
    }
}

/// Writes the unit of time, and the declarations of the wires of each node.
fn write_scopes<K: Sink>(w: &Window, progress: &Progress, sink: &mut K) -> Result<(), Failed>
    requires { progress.now ≡ at_start }
    ensures { Wrote K.written K.faults (with_scopes w.now) sink.old sink.new result }
{
    match write_octets(b"$timescale 100 ns $end\n", sink) {
        Ok(()) => write_each(Piece::Scopes, w, progress, w.nodes, sink),
        Err(failed) => Err(failed),
    }
}

/// The declaration of the wire of what a node hears, where the dump shows that, in an empty line.
fn put_heard_wire(out: &mut Line, heard: Option<u32>)
    requires { out.old ≡ [] }
    ensures { out.new ≡ heard_scope_text heard }
{
    if let Some(node) = heard {
        put_heard_scope(out, node);
    }
}

/// Writes it.
fn write_heard_wire<K: Sink>(w: &Window, sink: &mut K) -> Result<(), Failed>
    ensures { Wrote K.written K.faults (heard_scope_text w.now.heard) sink.old sink.new result }
{
    let mut line = Line::new();
    put_heard_wire(&mut line, w.heard);
    write_line(&line, sink)
}

/// Writes all declarations.
fn write_wires<K: Sink>(w: &Window, progress: &Progress, sink: &mut K) -> Result<(), Failed>
    requires { progress.now ≡ at_start }
    ensures { Wrote K.written K.faults (with_wires w.now) sink.old sink.new result }
{
    match write_scopes(w, progress, sink) {
        Ok(()) => write_heard_wire(w, sink),
        Err(failed) => Err(failed),
    }
}

/// Writes all up to tick 0.
fn write_begin<K: Sink>(w: &Window, progress: &Progress, sink: &mut K) -> Result<(), Failed>
    requires { progress.now ≡ at_start }
    ensures { Wrote K.written K.faults (with_begin w.now) sink.old sink.new result }
{
    match write_wires(w, progress, sink) {
        Ok(()) => write_octets(b"$enddefinitions $end\n#0\n", sink),
        Err(failed) => Err(failed),
    }
}

/// Writes all up to the values of the wires of the nodes.
fn write_starts<K: Sink>(w: &Window, progress: &Progress, sink: &mut K) -> Result<(), Failed>
    requires { progress.now ≡ at_start }
    ensures { Wrote K.written K.faults (with_starts w.now) sink.old sink.new result }
{
    match write_begin(w, progress, sink) {
        Ok(()) => write_each(Piece::Starts, w, progress, w.nodes, sink),
        Err(failed) => Err(failed),
    }
}

/// What a node hears at first, where the dump shows that, in an empty line.
fn put_heard_start(out: &mut Line, heard: Option<u32>)
    requires { out.old ≡ [] }
    ensures { out.new ≡ heard_start_text heard }
{
    if let Some(_) = heard {
        put_heard(out, Heard::Silence);
    }
}

/// Writes it.
fn write_heard_start<K: Sink>(w: &Window, sink: &mut K) -> Result<(), Failed>
    ensures { Wrote K.written K.faults (heard_start_text w.now.heard) sink.old sink.new result }
{
    let mut line = Line::new();
    put_heard_start(&mut line, w.heard);
    write_line(&line, sink)
}

/// Writes all that stands before the changes of the lines.
pub(crate) fn write_dump_opening<K: Sink>(
    w: &Window,
    progress: &Progress,
    sink: &mut K,
) -> Result<(), Failed>
    requires { progress.now ≡ at_start }
    ensures { Wrote K.written K.faults (dump_opening w.now) sink.old sink.new result }
{
    match write_starts(w, progress, sink) {
        Ok(()) => write_heard_start(w, sink),
        Err(failed) => Err(failed),
    }
}

/// Writes a time.
fn write_time<K: Sink>(tick: u64, sink: &mut K) -> Result<(), Failed>
    ensures { Wrote K.written K.faults (time_text tick) sink.old sink.new result }
{
    let mut line = Line::new();
    put_time(&mut line, tick);
    write_line(&line, sink)
}

/// Writes that the pulses of the latest tick fall one tick later.
fn write_fallen<K: Sink>(w: &Window, progress: &Progress, sink: &mut K) -> Result<(), Failed>
    ensures { Wrote K.written K.faults (fallen_text w.now progress.now) sink.old sink.new result }
{
    match write_time(u64::from(progress.tick) + 1, sink) {
        Ok(()) => write_each(Piece::Falls, w, progress, w.nodes, sink),
        Err(failed) => Err(failed),
    }
}

/// Writes it where there are pulses.
fn write_falls<K: Sink>(w: &Window, progress: &Progress, sink: &mut K) -> Result<(), Failed>
    ensures { Wrote K.written K.faults (falls_text w.now progress.now) sink.old sink.new result }
{
    if progress.pulses.any {
        write_fallen(w, progress, sink)
    } else {
        write_octets(b"", sink)
    }
}

/// The latest time, once the pulses have fallen.
fn last_time(progress: &Progress) -> u64
    ensures { result ≡ last_time progress.now }
{
    if progress.pulses.any {
        u64::from(progress.tick) + 1
    } else {
        u64::from(progress.tick)
    }
}

/// Writes a tick, if it is later.
fn write_time_after<K: Sink>(progress: &Progress, tick: u32, sink: &mut K) -> Result<(), Failed>
    ensures { Wrote K.written K.faults (time_after progress.now tick) sink.old sink.new result }
{
    if last_time(progress) < u64::from(tick) {
        write_time(u64::from(tick), sink)
    } else {
        write_octets(b"", sink)
    }
}

/// Writes that time goes on to a tick.
pub(crate) fn write_moved<K: Sink>(
    w: &Window,
    progress: &Progress,
    tick: u32,
    sink: &mut K,
) -> Result<(), Failed>
    ensures { Wrote K.written K.faults (moved_text w.now progress.now tick) sink.old sink.new result }
{
    match write_falls(w, progress, sink) {
        Ok(()) => write_time_after(progress, tick, sink),
        Err(failed) => Err(failed),
    }
}

/// Writes the time of an event, if it is a new one.
fn write_before<K: Sink>(
    w: &Window,
    progress: &Progress,
    event: Event,
    sink: &mut K,
) -> Result<(), Failed>
    ensures { Wrote K.written K.faults (before_text w.now progress.now event) sink.old sink.new result }
{
    if progress.tick < event.tick {
        write_moved(w, progress, event.tick, sink)
    } else {
        write_octets(b"", sink)
    }
}

/// What changes at a node, in an empty line.
fn put_event(out: &mut Line, event: Event)
    requires { out.old ≡ [] }
    ensures { out.new ≡ items_text (event_changes event) }
{
    let node = event.node;
    match event.what {
        Happening::Beacon => put_drive(out, node, true, false, false),
        Happening::Commit => put_drive(out, node, false, true, false),
        Happening::Leave(_) => put_drive(out, node, false, false, true),
        Happening::Quiet => put_drive(out, node, false, false, false),
        Happening::InStep => put_change(out, node, b'e', true),
        Happening::LostStep => put_change(out, node, b'e', false),
        Happening::Taken(_) => put_change(out, node, b'f', true),
        Happening::Full(_) => put_change(out, node, b'g', true),
        Happening::Off(_) => put_change(out, node, b'g', true),
        Happening::Good => put_change(out, node, b'h', true),
        Happening::Bad => put_change(out, node, b'i', true),
        Happening::Jam(_) => put_change(out, node, b'j', true),
        Happening::Drop(_) => put_change(out, node, b'k', true),
        Happening::Hears(what) => put_heard(out, what),
    }
}

/// Writes what an event changes.
fn write_event_changes<K: Sink>(event: Event, sink: &mut K) -> Result<(), Failed>
    ensures { Wrote K.written K.faults (items_text (event_changes event)) sink.old sink.new result }
{
    let mut line = Line::new();
    put_event(&mut line, event);
    write_line(&line, sink)
}

/// Writes the time of an event, if it is a new one, and what it changes.
fn write_event<K: Sink>(
    w: &Window,
    progress: &Progress,
    event: Event,
    sink: &mut K,
) -> Result<(), Failed>
    ensures { Wrote K.written K.faults (event_text w.now progress.now event) sink.old sink.new result }
{
    match write_before(w, progress, event, sink) {
        Ok(()) => write_event_changes(event, sink),
        Err(failed) => Err(failed),
    }
}

/// Writes the changes that a line tells.
pub(crate) fn write_changes<K: Sink>(
    w: &Window,
    progress: &Progress,
    event: Option<Event>,
    sink: &mut K,
) -> Result<(), Failed>
    ensures { Wrote K.written K.faults (changes_text w.now progress.now event) sink.old sink.new result }
{
    match event {
        Some(event) => write_event(w, progress, event, sink),
        None => write_octets(b"", sink),
    }
}
