ghost use Rattle.std.specs.Prelude.{◌≤◌, length};

use crate::{Counts, Decoder, Item, Next, Refusal, Why};
use std::process::Abort;
use std::test::Fail;
use t1s_frame::Frame;
use t1s_grammar::{PieceText, put_piece};
use t1s_pcs_rx::{Closer, Kind, PieceView};
use t1s_scramble::Scrambler;

/// Wants this item at this offset to be the next one of these, after so many.
fn check_item(
    rt: &impl Abort,
    items: &[(usize, Item<'_>)],
    count: usize,
    offset: usize,
    item: Item<'_>,
) {
    assert!(rt; count < items.len(), "an item at {offset}");
    assert_eq!(rt; offset, items[count].0);
    assert_eq!(rt; item, items[count].1);
}

/// Wants a decoder to hand out these items at these offsets, and to say this at the end of the octets.
fn check(
    rt: &impl Abort,
    octets: &[u8],
    items: &[(usize, Item<'_>)],
    end: Result<Counts, Refusal>,
) {
    check_parts(rt, &[octets], items, end);
}

/// The same for octets in parts.
fn check_parts(
    rt: &impl Abort,
    parts: &[&[u8]],
    items: &[(usize, Item<'_>)],
    end: Result<Counts, Refusal>,
) {
    let mut decoder = Decoder::new();
    let mut offset = 0usize;
    let mut count = 0usize;
    for part in parts.iter() {
        for octet in part.iter() {
            match decoder.step(*octet) {
                Next::More(next) => decoder = next,
                Next::Held(held) => {
                    check_item(rt, items, count, offset, held.item());
                    count = count.saturating_add(1);
                    decoder = held.release();
                }
                Next::Refused(refusal) => {
                    assert_eq!(rt; count, items.len());
                    assert_eq!(rt; Err(refusal), end);
                    return;
                }
            }
            offset = offset.saturating_add(1);
        }
    }
    assert_eq!(rt; count, items.len());
    assert_eq!(rt; decoder.finish(), end);
}

const NOTHING: Counts = Counts {
    ticks: 0,
    beacons: 0,
    runs: 0,
    bare: 0,
    torn: 0,
    pieces: 0,
    good: 0,
};

fn refused(offset: u64, why: Why) -> Result<Counts, Refusal> {
    Err(Refusal { offset, why })
}

/// Wants these octets to be refused, with nothing handed out before.
fn check_refused(rt: &impl Abort, octets: &[u8], offset: u64, why: Why) {
    check(rt, octets, &[], refused(offset, why));
}

#[test]
fn headers_and_counts_are_refused_at_their_first_offence(rt: HostRuntime) {
    check_refused(&rt, b"", 0, Why::Truncated);
    check_refused(&rt, b"T1SD", 3, Why::Magic);
    check_refused(&rt, b"T1SC\x02", 4, Why::Version);
    check_refused(&rt, b"T1SC\x01\x20", 5, Why::NodeByte);
    check_refused(&rt, b"T1SC\x01\xFF", 5, Why::NodeByte);
    check_refused(&rt, b"T1SC\x01\x02\x20\x00\x00\x00\x00", 10, Why::CountZero);
    check_refused(
        &rt,
        b"T1SC\x01\x02\x20\x00\x00\x00\x01\x20",
        11,
        Why::GapTwice,
    );
    check_refused(&rt, b"T1SC\x01\x02\x20\x00\x00", 9, Why::Truncated);
    check_refused(&rt, b"T1SC\x01\x02\x22\x00\x00\x00\x00", 10, Why::CountZero);
    check_refused(
        &rt,
        b"T1SC\x01\x02\x18\x22\x00\x00\x00\x00",
        11,
        Why::CountZero,
    );
}

#[test]
fn misplaced_octets_are_refused_where_they_stand(rt: HostRuntime) {
    check_refused(&rt, b"T1SC\x01\x02\x21\x00", 7, Why::AfterEnd);
    check_refused(&rt, b"T1SC\x01\x02\x00", 6, Why::Group);
    check_refused(&rt, b"T1SC\x01\x02\x1F", 6, Why::Group);
    check_refused(&rt, b"T1SC\x01\x02\x08\x08\x08\x20", 9, Why::Place);
    check_refused(&rt, b"T1SC\x01\x02\x08\x08\x08\x05", 9, Why::Group);
    check_refused(&rt, b"T1SC\x01\x02\x18\x04", 7, Why::Place);
    check_refused(&rt, b"T1SC\x01\x02\x18\x18\x04\x04\x0B", 11, Why::Truncated);
    check_refused(&rt, b"T1SC\x01\x02\x18\x18\x04\x21", 9, Why::Place);
}

#[test]
fn gaps_beacons_and_bare_commits_are_read(rt: HostRuntime) {
    for node in [
        b"T1SC\x01\x00\x21",
        b"T1SC\x01\x02\x21",
        b"T1SC\x01\x1F\x21",
    ] {
        check(&rt, node, &[], Ok(NOTHING));
    }
    check(
        &rt,
        b"T1SC\x01\x02\x20\x00\x00\x20\x40\x08\x08\x08\x08\x08\x21",
        &[(16, Item::Beacon { start: 8256 })],
        Ok(Counts {
            ticks: 8276,
            beacons: 1,
            ..NOTHING
        }),
    );
    check(
        &rt,
        b"T1SC\x01\x1F\x18\x18\x18\x20\x00\x00\x00\x05\x18\x21",
        &[
            (9, Item::Bare { start: 0, end: 12 }),
            (15, Item::Bare { start: 17, end: 21 }),
        ],
        Ok(Counts {
            ticks: 21,
            bare: 2,
            ..NOTHING
        }),
    );
}

/// A capture of one run, of one piece of twelve groups.
const RUN: [u8; 25] =
    *b"T1SC\x01\x02\x18\x18\x04\x04\x0B\x0B\x0B\x09\x16\x16\x16\x1D\x17\x16\x1C\x1B\x0D\x07\x21";

/// Wants a run of one piece of twelve groups, closed by this octet, to be read as a piece of this kind.
fn check_run(rt: &impl Abort, octet: u8, closer: Closer, kind: Kind) {
    let mut octets = RUN;
    octets[23] = octet;
    let view = PieceView {
        lead: 2,
        groups: 12,
        closer,
        kind,
        frame: &[],
    };
    check(
        rt,
        &octets,
        &[
            (23, Item::Piece { start: 0, view }),
            (
                24,
                Item::Run {
                    start: 0,
                    end: 72,
                    pieces: 1,
                },
            ),
        ],
        Ok(Counts {
            ticks: 72,
            runs: 1,
            pieces: 1,
            ..NOTHING
        }),
    );
}

#[test]
fn a_run_is_read_by_its_closer(rt: HostRuntime) {
    check_run(&rt, 0x07, Closer::R, Kind::Runt);
    check_run(&rt, 0x11, Closer::K, Kind::Errored);
    check_run(&rt, 0x19, Closer::S, Kind::Jabber);
}

/// A header, and a gap of 16 ticks.
const FRONT: &[u8] = b"T1SC\x01\x03\x20\x00\x00\x00\x10";

#[test]
fn a_piece_of_a_frame_gives_the_frame(rt: HostRuntime) -> Result<(), Fail> {
    let frame = Frame::of_offer(&[0x5A; 60])?;
    let mut text = PieceText::new();
    put_piece(&mut text, 3, &mut Scrambler::new(), &frame, true)?;
    let view = PieceView {
        lead: 3,
        groups: 140,
        closer: Closer::R,
        kind: Kind::Good,
        frame: frame.octets(),
    };
    check_parts(
        &rt,
        &[FRONT, text.as_slice(), b"\x18\x18\x21"],
        &[
            (157, Item::Piece { start: 16, view }),
            (
                160,
                Item::Run {
                    start: 16,
                    end: 612,
                    pieces: 1,
                },
            ),
        ],
        Ok(Counts {
            ticks: 612,
            runs: 1,
            pieces: 1,
            good: 1,
            ..NOTHING
        }),
    );
    Ok(())
}

#[test]
fn a_piece_of_a_torn_burst_is_handed_out_too(rt: HostRuntime) -> Result<(), Fail> {
    let frame = Frame::of_offer(&[0x5A; 60])?;
    let mut text = PieceText::new();
    put_piece(&mut text, 2, &mut Scrambler::new(), &frame, true)?;
    let view = PieceView {
        lead: 2,
        groups: 140,
        closer: Closer::R,
        kind: Kind::Good,
        frame: frame.octets(),
    };
    check_parts(
        &rt,
        &[
            FRONT,
            text.as_slice(),
            b"\x18\x18\x04\x22\x00\x00\x00\x00\x21",
        ],
        &[
            (156, Item::Piece { start: 16, view }),
            (
                164,
                Item::Torn {
                    start: 16,
                    end: 612,
                    symbols: 149,
                    blur: 0,
                },
            ),
        ],
        Ok(Counts {
            ticks: 612,
            torn: 1,
            pieces: 1,
            good: 1,
            ..NOTHING
        }),
    );
    Ok(())
}

#[test]
fn torn_bursts_are_read_with_their_blur(rt: HostRuntime) {
    check(
        &rt,
        b"T1SC\x01\x02\x08\x08\x08\x08\x22\x00\x00\x01\x03\x20\x00\x00\x00\x01\x22\x00\x00\x00\x02\x21",
        &[
            (
                14,
                Item::Torn {
                    start: 0,
                    end: 275,
                    symbols: 4,
                    blur: 259,
                },
            ),
            (
                24,
                Item::Torn {
                    start: 276,
                    end: 278,
                    symbols: 0,
                    blur: 2,
                },
            ),
        ],
        Ok(Counts {
            ticks: 278,
            torn: 2,
            ..NOTHING
        }),
    );
}

#[test]
fn only_a_gap_or_the_end_follows_a_torn_burst(rt: HostRuntime) {
    let torn = (
        11,
        Item::Torn {
            start: 0,
            end: 5,
            symbols: 1,
            blur: 1,
        },
    );
    for (octet, why) in [(0x18, Why::Place), (0x22, Why::Place), (0x05, Why::Group)] {
        let mut octets = *b"T1SC\x01\x02\x08\x22\x00\x00\x00\x01\x00";
        octets[12] = octet;
        check(&rt, &octets, &[torn], refused(12, why));
    }
}

/// What a decoder refuses after a header, of octets each row of which stands so many times.
fn refusal(rows: &[(&[u8], u16)]) -> Option<Refusal> {
    let mut decoder = Decoder::new();
    for (row, times) in [(b"T1SC\x01\x02".as_slice(), 1)].iter().chain(rows.iter()) {
        for _ in 0..*times {
            for octet in row.iter() {
                match decoder.step(*octet) {
                    Next::More(next) => decoder = next,
                    Next::Held(held) => decoder = held.release(),
                    Next::Refused(refusal) => return Some(refusal),
                }
            }
        }
    }
    None
}

#[test]
fn a_burst_is_too_long_at_its_three_counts(rt: HostRuntime) {
    let why = Why::BurstLong;
    assert_eq!(rt;
        refusal(&[(b"\x18", 4097)]),
        Some(Refusal { offset: 4102, why })
    );
    let nibbles: [(&[u8], u16); 2] = [(b"\x18\x18\x04\x04", 1), (b"\x1E", 3057)];
    assert_eq!(rt; refusal(&nibbles), Some(Refusal { offset: 3066, why }));
    let piece = b"\x18\x18\x04\x04\x1E\x1E\x1E\x1E\x1E\x1E\x1E\x1E\x1E\x0D\x11";
    let pieces: [(&[u8], u16); 2] = [(piece, 4096), (b"\x18\x18\x04", 1)];
    assert_eq!(rt; refusal(&pieces), Some(Refusal { offset: 61448, why }));
}

/// The item that is held after a piece of octets, where one is: how many of them were taken, whether it is a piece, the
/// tick of its end where it is a run, and the decoder that is released.
fn fed(decoder: Decoder, piece: &[u8]) -> Option<(usize, bool, u64, Decoder)>
    requires { 1 ≤ length piece.now }
{
    let (count, Next::Held(held)) = decoder.feed(piece) else {
        return None;
    };
    let (is_piece, end) = match held.item() {
        Item::Piece { .. } => (true, 0),
        Item::Run { end, .. } => (false, end),
        _ => (false, 0),
    };
    Some((count, is_piece, end, held.release()))
}

#[test]
fn octets_are_fed_up_to_each_item(rt: HostRuntime) -> Result<(), Fail> {
    let (count, is_piece, _, decoder) = fed(Decoder::new(), &RUN).ok_or("no item is held")?;
    assert_eq!(rt; count, 24);
    assert!(rt; is_piece);
    let (count, is_piece, end, decoder) = fed(decoder, b"\x21").ok_or("no item is held")?;
    assert_eq!(rt; count, 1);
    assert!(rt; !is_piece);
    assert_eq!(rt; end, 72);
    assert_eq!(rt; decoder.finish().map(|counts| counts.ticks), Ok(72));
    Ok(())
}

#[test]
fn octets_are_fed_up_to_a_refused_one_or_to_the_last(rt: HostRuntime) {
    let (count, next) = Decoder::new().feed(b"T1SC\x01\x02\x18\x04\x18");
    assert_eq!(rt; count, 8);
    let why = Why::Place;
    assert!(rt; matches!(next, Next::Refused(refusal) if refusal == Refusal { offset: 7, why }));
    let (count, next) = Decoder::new().feed(b"T1SC\x01");
    assert_eq!(rt; count, 5);
    let Next::More(decoder) = next else {
        return;
    };
    assert_eq!(rt; decoder.finish(), refused(5, Why::Truncated));
}
