// How an input is drawn while it is read.
ghost use Rattle.std.specs.Prelude.{◌≡◌, ◌≢◌, ◌⊎◌, ◌+◌, ◌-◌, ◌*◌, ◌<◌, ◌≤◌, ℕ, List, [], ◌∷◌, ◌++◌, length, Ok, Err, IfOk, IfErr, OnOk, OnErr, true};
ghost use Rattle.t1s_drawing.specs.Calls.{HasFaultCause};
ghost use Rattle.t1s_drawing.specs.Drawn.{Drawn, DrawEnd, DrawStop};
ghost use Rattle.t1s_drawing.specs.DrawSteps.{octets_left, TextOutcome};
ghost use Rattle.t1s_drawing.specs.Written.{line_step, refused_line};
ghost use Rattle.t1s_drawing.specs.Progress.{at_start};

use crate::parsing::line_of;
use crate::progress::{Progress, Reason, Told};
use crate::status::Status;
use crate::window::Window;
use crate::writing::{write_closing, write_refusal, write_told};
use t1s_base::{Failed, Line, Sink, put_text};

const LINE_FEED: u8 = b'\n';

/// How many lines a report has at most.
const MOST_LINES: u32 = 1_073_741_824;

/// How far an input was drawn.
#[derive(Drop)]
pub(crate) struct Drawing {
    /// The octets of the line that has begun.
    pub(crate) line: Line,
    /// The number of that line: they are counted from 1.
    pub(crate) number: u32,
    pub(crate) progress: Progress,
}

impl Drawing {
    /// Nothing was read.
    pub(crate) fn new() -> Drawing
        ensures line { result.line ≡ [] }
        ensures number { result.number ≡ 1 }
        ensures progress { result.progress ≡ at_start }
    {
        Drawing {
            line: Line::new(),
            number: 1,
            progress: Progress::new(),
        }
    }

    /// What the line that has begun gives, where it ends here.
    fn step(&mut self, w: &Window) -> Result<Told, Reason>
        ensures ok { IfOk result (λ told. line_step w.now self.old.progress self.old.number self.old.line ≡ Ok (self.new.progress, told)) }
        ensures err { IfErr result (λ reason. line_step w.now self.old.progress self.old.number self.old.line ≡ Err reason) }
        ensures line { self.new.line ≡ self.old.line }
        ensures number { self.new.number ≡ self.old.number }
        ensures few { OnOk result (self.old.number ≤ 1073741824) }
    {
        let said = line_of(self.line.as_slice());
        if self.number > MOST_LINES {
            return Err(Reason::TooMany);
        }
        match said {
            Some(line) => self.progress.take(w, line),
            None => Err(Reason::Line),
        }
    }

    /// Refuses the line that has begun.
    fn refuse<K: Sink>(&self, reason: Reason, sink: &mut K) -> Status
        ensures { TextOutcome K.written K.faults K.finished Status.Refused (refused_line self.now.number reason) sink.old sink.new result }
    {
        match write_refusal(self.number, reason, sink) {
            Ok(()) => finish(sink, Status::Refused),
            Err(Failed) => Status::WriteFault,
        }
    }

    /// Takes the line feed after a line.
    fn take_line<K: Sink>(&mut self, w: &Window, sink: &mut K) -> Result<(), Status>
        requires { self.old.number ≤ 1073741825 }
        ensures ok { (first : K) (octets : List ℕ) → Drawn K.written K.faults w.now octets self.old first sink.old →
            OnOk result (Drawn K.written K.faults w.now (octets ++ 10 ∷ []) self.new first sink.new) }
        ensures err { (first : K) (octets : List ℕ) → Drawn K.written K.faults w.now octets self.old first sink.old →
            IfErr result (λ status. DrawStop K.written K.faults K.finished w.now (octets ++ 10 ∷ []) first sink.new status) }
        ensures number { OnOk result (self.new.number ≤ 1073741825) }
        ensures further { OnOk result (octets_left self.new < octets_left self.old) }
    {
        match self.step(w) {
            Ok(told) => match write_told(w, self.line.as_slice(), told, sink) {
                Ok(()) => {
                    self.line.clear();
                    self.number += 1;
                    Ok(())
                }
                Err(Failed) => Err(Status::WriteFault),
            },
            Err(reason) => Err(self.refuse(reason, sink)),
        }
    }

    /// Takes the next octet.
    fn take<K: Sink>(&mut self, w: &Window, octet: u8, sink: &mut K) -> Result<(), Status>
        requires { self.old.number ≤ 1073741825 }
        ensures ok { (first : K) (octets : List ℕ) → Drawn K.written K.faults w.now octets self.old first sink.old →
            OnOk result (Drawn K.written K.faults w.now (octets ++ octet ∷ []) self.new first sink.new) }
        ensures err { (first : K) (octets : List ℕ) → Drawn K.written K.faults w.now octets self.old first sink.old →
            IfErr result (λ status. DrawStop K.written K.faults K.finished w.now (octets ++ octet ∷ []) first sink.new status) }
        ensures number { OnOk result (self.new.number ≤ 1073741825) }
        ensures further { OnOk result (octets_left self.new < octets_left self.old) }
    {
        if octet == LINE_FEED {
            return self.take_line(w, sink);
        }
        match put_text(&mut self.line, &[octet]) {
            Ok(()) => Ok(()),
            Err(_) => Err(self.refuse(Reason::TooLong, sink)),
        }
    }

    /// Takes the octets of a piece.
    pub(crate) fn take_piece<K: Sink>(
        &mut self,
        w: &Window,
        piece: &[u8],
        sink: &mut K,
    ) -> Result<(), Status>
        requires { self.old.number ≤ 1073741825 }
        ensures ok { (first : K) (octets : List ℕ) → Drawn K.written K.faults w.now octets self.old first sink.old →
            OnOk result (Drawn K.written K.faults w.now (octets ++ piece.now) self.new first sink.new) }
        ensures err { (first : K) (octets : List ℕ) → Drawn K.written K.faults w.now octets self.old first sink.old →
            IfErr result (λ status. DrawStop K.written K.faults K.finished w.now (octets ++ piece.now) first sink.new status) }
        ensures number { OnOk result (self.new.number ≤ 1073741825) }
        ensures further { OnOk result (octets_left self.new + length piece.now ≤ octets_left self.old) }
    {
        for octet in piece {
            match self.take(w, *octet, sink) {
                Ok(()) => {}
                Err(status) => return Err(status),
            }
        }
        Ok(())
    }

    /// Ends the picture where the input ends.
    pub(crate) fn end<K: Sink>(&self, w: &Window, sink: &mut K) -> Status
        ensures { (first : K) (octets : List ℕ) → Drawn K.written K.faults w.now octets self.now first sink.old →
            DrawEnd K.written K.faults K.finished w.now octets first sink.new result }
    {
        if !self.line.as_slice().is_empty() || !self.progress.in_summary {
            return self.refuse(Reason::End, sink);
        }
        match write_closing(w, &self.progress, sink) {
            Ok(()) => finish(sink, Status::Done),
            Err(Failed) => Status::WriteFault,
        }
    }
}

/// Finishes a sink to which all was written.
fn finish<K: Sink>(sink: &mut K, whole: Status) -> Status
    requires { whole ≢ Status.WriteFault }
    ensures answer { (result ≡ whole) ⊎ (result ≡ Status.WriteFault) }
    ensures end { result ≡ whole → K.finished sink.new ≡ true }
    ensures octets { K.written sink.new ≡ K.written sink.old }
    ensures cause { HasFaultCause (K.faults sink.old) (K.faults sink.new) Status.WriteFault result }
{
    match sink.finish() {
        Ok(()) => whole,
        Err(_) => Status::WriteFault,
    }
}
