// The command `decode`: the items of a capture, written as it is read.
ghost use Rattle.std.specs.Prelude.{◌≡◌, ℕ, List, [], ◌∷◌, ◌++◌, OnOk, IfErr};
ghost use Rattle.t1s_capture.specs.State.{DecoderState};
ghost use Rattle.t1s_capture.specs.Advances.{AdvanceFits, advance_next};
ghost use Rattle.t1s_cli.specs.DecodeProgress.{AnswersOctet, ShownItems, DecodeProgress, DecodeEnd, DecodeStop};
ghost use Rattle.t1s_cli.specs.CaptureCall.{CaptureCall};

use crate::script_input::PIECE;
use crate::status::Status;
use crate::text_end::write_last;
use t1s_base::{Failed, Line, Sink, Source};
use t1s_capture::{Advance, Decoder};
use t1s_report::{end_line, item_line, offence_line};

/// Writes the line of the item that is handed out at an octet, or of its refusal. `Err` is the answer with which the
/// decoding ends there. The line is room for what is written.
fn write_answer<K: Sink>(advance: &Advance<'_>, line: &mut Line, sink: &mut K) -> Result<(), Status>
    requires { AdvanceFits advance.now }
    ensures ok { (first : K) (octets : List ℕ) (octet : ℕ) (decoder : DecoderState) →
        AnswersOctet octets octet (advance_next advance.now decoder) → ShownItems K.written K.faults octets first sink.old →
        OnOk result (DecodeProgress K.written K.faults (octets ++ octet ∷ []) decoder first sink.new) }
    ensures err { (first : K) (octets : List ℕ) (octet : ℕ) (decoder : DecoderState) →
        AnswersOctet octets octet (advance_next advance.now decoder) → ShownItems K.written K.faults octets first sink.old →
        IfErr result (λ status. DecodeStop K.written K.faults K.finished (octets ++ octet ∷ []) first sink.new status) }
{
    match *advance {
        Advance::More => Ok(()),
        Advance::Held(item) => {
            item_line(line, &item);
            match sink.write(line.as_slice()) {
                Ok(()) => Ok(()),
                Err(_) => Err(Status::WriteFault),
            }
        }
        Advance::Refused(refusal) => {
            offence_line(line, &refusal);
            Err(write_last(line, sink, Status::Refused))
        }
    }
}

/// Takes the octets of a piece, up to each item that is handed out. The decoder stays where it is.
fn decode_piece<K: Sink>(
    decoder: &mut Decoder,
    piece: &[u8],
    line: &mut Line,
    sink: &mut K,
) -> Result<(), Status>
    ensures ok { (first : K) (octets : List ℕ) → DecodeProgress K.written K.faults octets decoder.old first sink.old →
        OnOk result (DecodeProgress K.written K.faults (octets ++ piece.now) decoder.new first sink.new) }
    ensures err { (first : K) (octets : List ℕ) → DecodeProgress K.written K.faults octets decoder.old first sink.old →
        IfErr result (λ status. DecodeStop K.written K.faults K.finished (octets ++ piece.now) first sink.new status) }
{
    let mut at = 0;
    while at < piece.len() {
        let (count, advance) = decoder.advance(&piece[at..]);
        match write_answer(&advance, line, sink) {
            Ok(()) => at += count,
            Err(status) => return Err(status),
        }
    }
    Ok(())
}

/// Writes the last line where the octets end. The line is room for it.
fn decode_end<K: Sink>(decoder: Decoder, line: &mut Line, sink: &mut K) -> Status
    ensures { (first : K) (octets : List ℕ) → DecodeProgress K.written K.faults octets decoder first sink.old →
        DecodeEnd K.written K.faults K.finished octets first sink.new result }
{
    match decoder.finish() {
        Ok(counts) => {
            end_line(line, &counts);
            write_last(line, sink, Status::Done)
        }
        Err(refusal) => {
            offence_line(line, &refusal);
            write_last(line, sink, Status::Refused)
        }
    }
}

/// Reads a capture in pieces of at most 4096 octets, and writes the line of each item at its octet, and at
/// last the line of the end or of the first offence, each by one `write` call. It takes no memory.
pub(crate) fn decode_command<S: Source, K: Sink>(source: &mut S, sink: &mut K) -> Status
    ensures { CaptureCall S.left S.faults K.written K.faults K.finished source.old source.new sink.old sink.new result }
{
    let mut decoder = Decoder::new();
    let mut line = Line::new();
    let mut piece = [0u8; PIECE];
    loop {
        match source.read(&mut piece) {
            Ok(0) => return decode_end(decoder, &mut line, sink),
            Ok(count) => match decode_piece(&mut decoder, &piece[..count], &mut line, sink) {
                Ok(()) => {}
                Err(status) => return status,
            },
            Err(Failed) => return Status::ReadFault,
        }
    }
}
