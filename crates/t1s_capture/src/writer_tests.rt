ghost use Rattle.t1s_symbols.specs.Ranges.{IsHeard, IsSymbol};

use crate::{CaptureWriter, Decoder, Next};
use arrayvec::ArrayVec;
use std::process::Abort;
use t1s_base::{MOST_NODES, MOST_TICKS};
use t1s_symbols::{Heard, Quarter, Symbol};

/// What a writer has given out so far.
type Tape = ArrayVec<u8, 64>;

fn put(tape: &mut Tape, octets: &[u8]) {
    for octet in octets.iter() {
        let _ = tape.try_push(*octet);
    }
}

/// A writer for a node, with its header on the tape.
fn started(rt: &impl Abort, node: u8) -> (CaptureWriter, Tape) {
    assert!(rt; node < MOST_NODES);
    let writer = CaptureWriter::new(node);
    let mut tape = Tape::new();
    put(&mut tape, writer.head().as_slice());
    (writer, tape)
}

/// Hands in the same tick so many times.
fn hear(
    rt: &impl Abort,
    writer: &mut CaptureWriter,
    tape: &mut Tape,
    h: Heard,
    own: bool,
    times: u32,
)
    requires { IsHeard h }
{
    for _ in 0..times {
        assert!(rt; u64::from(writer.ticks()) < MOST_TICKS);
        put(tape, writer.heard(h, own).as_slice());
    }
}

/// Hands in so many quiet ticks at once.
fn quiet(rt: &impl Abort, writer: &mut CaptureWriter, tape: &mut Tape, n: u64) {
    assert!(rt; 1 <= n && n <= MOST_TICKS);
    assert!(rt; u64::from(writer.ticks()) + n <= MOST_TICKS);
    put(tape, writer.quiet(n).as_slice());
}

/// Hands in the four ticks of a symbol, so many times.
fn hear_symbol(
    rt: &impl Abort,
    writer: &mut CaptureWriter,
    tape: &mut Tape,
    sym: Symbol,
    times: u32,
)
    requires { IsSymbol sym }
{
    for _ in 0..times {
        hear(
            rt,
            writer,
            tape,
            Heard::One(Quarter { sym, part: 0 }),
            false,
            1,
        );
        hear(
            rt,
            writer,
            tape,
            Heard::One(Quarter { sym, part: 1 }),
            false,
            1,
        );
        hear(
            rt,
            writer,
            tape,
            Heard::One(Quarter { sym, part: 2 }),
            false,
            1,
        );
        hear(
            rt,
            writer,
            tape,
            Heard::One(Quarter { sym, part: 3 }),
            false,
            1,
        );
    }
}

/// Wants the whole tape to be these octets, and to be a capture of so many ticks.
fn check(rt: &impl Abort, writer: CaptureWriter, tape: Tape, ticks: u64, octets: &[u8]) {
    let mut tape = tape;
    put(&mut tape, writer.finish().as_slice());
    assert_eq!(rt; tape.as_slice(), octets);
    let mut decoder = Decoder::new();
    for octet in octets.iter() {
        decoder = match decoder.step(*octet) {
            Next::More(next) => next,
            Next::Held(held) => held.release(),
            Next::Refused(refusal) => panic!(rt; "{refusal:?}"),
        };
    }
    assert_eq!(rt; decoder.finish().map(|counts| counts.ticks), Ok(ticks));
}

#[test]
fn silence_is_a_gap(rt: HostRuntime) {
    let (writer, tape) = started(&rt, 2);
    check(&rt, writer, tape, 0, b"T1SC\x01\x02\x21");
    let (mut writer, mut tape) = started(&rt, 0);
    hear(&rt, &mut writer, &mut tape, Heard::Nothing, false, 8280);
    hear(&rt, &mut writer, &mut tape, Heard::Nothing, true, 20);
    check(
        &rt,
        writer,
        tape,
        8300,
        b"T1SC\x01\x00\x20\x00\x00\x20\x6C\x21",
    );
}

#[test]
fn a_beacon_between_gaps_is_written_by_its_symbols(rt: HostRuntime) {
    let (mut writer, mut tape) = started(&rt, 2);
    hear(&rt, &mut writer, &mut tape, Heard::Nothing, false, 8261);
    hear_symbol(&rt, &mut writer, &mut tape, Symbol::N, 5);
    hear(&rt, &mut writer, &mut tape, Heard::Nothing, false, 19);
    check(
        &rt,
        writer,
        tape,
        8300,
        b"T1SC\x01\x02\x20\x00\x00\x20\x45\x08\x08\x08\x08\x08\x20\x00\x00\x00\x13\x21",
    );
}

#[test]
fn a_row_is_torn_by_what_cannot_be_read(rt: HostRuntime) {
    let (mut writer, mut tape) = started(&rt, 1);
    hear_symbol(&rt, &mut writer, &mut tape, Symbol::N, 4);
    hear(&rt, &mut writer, &mut tape, Heard::Many, false, 1);
    hear_symbol(&rt, &mut writer, &mut tape, Symbol::N, 1);
    hear(&rt, &mut writer, &mut tape, Heard::Nothing, false, 1);
    let quarter = Heard::One(Quarter {
        sym: Symbol::J,
        part: 0,
    });
    hear(&rt, &mut writer, &mut tape, quarter, true, 2);
    check(
        &rt,
        writer,
        tape,
        24,
        b"T1SC\x01\x01\x08\x08\x08\x08\x22\x00\x00\x00\x05\x20\x00\x00\x00\x01\x22\x00\x00\x00\x02\x21",
    );
}

#[test]
fn a_row_is_torn_by_a_misplaced_symbol_and_by_its_end(rt: HostRuntime) {
    let (mut writer, mut tape) = started(&rt, 31);
    hear_symbol(&rt, &mut writer, &mut tape, Symbol::J, 1);
    hear_symbol(&rt, &mut writer, &mut tape, Symbol::H, 2);
    hear(&rt, &mut writer, &mut tape, Heard::Nothing, false, 3);
    hear_symbol(&rt, &mut writer, &mut tape, Symbol::J, 2);
    hear_symbol(&rt, &mut writer, &mut tape, Symbol::H, 1);
    check(
        &rt,
        writer,
        tape,
        27,
        b"T1SC\x01\x1F\x18\x22\x00\x00\x00\x08\x20\x00\x00\x00\x03\x18\x18\x04\x22\x00\x00\x00\x00\x21",
    );
}

/// A writer at its beginning, in a gap, after a burst, within a symbol of a burst, or after something that cannot be read.
fn writer_in(rt: &impl Abort, case: u32) -> (CaptureWriter, Tape) {
    let (mut writer, mut tape) = started(rt, 3);
    match case {
        0 => {}
        1 => hear(rt, &mut writer, &mut tape, Heard::Nothing, true, 7),
        2 => hear_symbol(rt, &mut writer, &mut tape, Symbol::N, 5),
        3 => {
            let sym = Symbol::J;
            hear_symbol(rt, &mut writer, &mut tape, sym, 2);
            let first = Heard::One(Quarter { sym, part: 0 });
            hear(rt, &mut writer, &mut tape, first, false, 1);
        }
        _ => hear(rt, &mut writer, &mut tape, Heard::Many, false, 3),
    }
    (writer, tape)
}

/// The text of a writer that goes on with a beacon, before which the gap is written.
fn text_of(rt: &impl Abort, writer: CaptureWriter, tape: Tape) -> Tape {
    let (mut writer, mut tape) = (writer, tape);
    hear_symbol(rt, &mut writer, &mut tape, Symbol::N, 5);
    put(&mut tape, writer.finish().as_slice());
    tape
}

#[test]
fn quiet_ticks_give_the_same_at_once_as_one_by_one(rt: HostRuntime) {
    for case in 0..5 {
        for n in [1, 2, 255, 70_000] {
            let (mut at_once, mut tape) = writer_in(&rt, case);
            quiet(&rt, &mut at_once, &mut tape, u64::from(n));
            let (mut one_by_one, mut want) = writer_in(&rt, case);
            hear(&rt, &mut one_by_one, &mut want, Heard::Nothing, false, n);
            assert_eq!(rt; tape.as_slice(), want.as_slice());
            assert_eq!(rt; at_once.ticks(), one_by_one.ticks());
            let text = text_of(&rt, at_once, tape);
            let wanted = text_of(&rt, one_by_one, want);
            assert_eq!(rt; text.as_slice(), wanted.as_slice());
        }
    }
}

#[test]
fn quiet_stretches_are_gaps(rt: HostRuntime) {
    let (mut writer, mut tape) = started(&rt, 2);
    quiet(&rt, &mut writer, &mut tape, 8261);
    hear_symbol(&rt, &mut writer, &mut tape, Symbol::N, 5);
    quiet(&rt, &mut writer, &mut tape, 1);
    quiet(&rt, &mut writer, &mut tape, 18);
    check(
        &rt,
        writer,
        tape,
        8300,
        b"T1SC\x01\x02\x20\x00\x00\x20\x45\x08\x08\x08\x08\x08\x20\x00\x00\x00\x13\x21",
    );
    let (mut writer, mut tape) = started(&rt, 0);
    quiet(&rt, &mut writer, &mut tape, 20_000_000);
    check(
        &rt,
        writer,
        tape,
        20_000_000,
        b"T1SC\x01\x00\x20\x01\x31\x2D\x00\x21",
    );
}
