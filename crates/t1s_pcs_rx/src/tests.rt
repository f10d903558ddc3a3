ghost use Rattle.t1s_symbols.specs.Ranges.{IsHeard};

use super::*;
use std::test::Fail;
use t1s_frame::Frame;
use t1s_grammar::{PieceText, put_piece};
use t1s_scramble::Scrambler;
use t1s_symbols::{Class, Heard, Quarter, Symbol, symbol_of};

/// The group of the symbol that closes a piece for jabber.
const CUT: u8 = 0x19;

/// A piece without its frame: its lead, nibbles, closer and kind, and the length of the frame.
type Shown = (u16, u16, Closer, Kind, usize);

/// The pieces of some ticks: how many pieces, the last of these, the tick of it, and whether its frame was the wanted one.
#[derive(Clone, Copy)]
struct PieceRecord {
    pieces: u16,
    last: Option<Shown>,
    tick: u64,
    same: bool,
}

/// A quarter of the symbol with a group.
fn quarter(group: u8, part: u8) -> Heard
    ensures { IsHeard result }
{
    match symbol_of(group) {
        Some(sym) => Heard::One(Quarter {
            sym,
            part: part % 4,
        }),
        None => Heard::Many,
    }
}

/// Hears groups, quarter by quarter.
fn hear_groups(rx: &mut PcsRx, groups: &[u8], frame: &[u8]) -> PieceRecord {
    let mut told = PieceRecord {
        pieces: 0,
        last: None,
        tick: 0,
        same: false,
    };
    let mut tick: u64 = 0;
    for group in groups {
        for part in 0..4u8 {
            if let RxEvent::Piece(view) = rx.hear(quarter(*group, part), false) {
                told.pieces = told.pieces.wrapping_add(1);
                told.last = Some((
                    view.lead,
                    view.groups,
                    view.closer,
                    view.kind,
                    view.frame.len(),
                ));
                told.tick = tick;
                told.same = view.frame == frame;
            }
            tick = tick.wrapping_add(1);
        }
    }
    told
}

/// The first groups, as many as are asked for.
fn front(groups: &[u8], count: usize) -> &[u8] {
    &groups[..count.min(groups.len())]
}

/// The groups after them.
fn back(groups: &[u8], count: usize) -> &[u8] {
    &groups[count.min(groups.len())..]
}

/// Hears groups after nothing.
fn hear_burst(rx: &mut PcsRx, groups: &[u8], frame: &[u8]) -> PieceRecord {
    let _ = rx.hear(Heard::Nothing, false);
    hear_groups(rx, groups, frame)
}

#[test]
fn a_whole_piece_is_handed_on_with_its_frame(rt: HostRuntime) -> Result<(), Fail> {
    let frame = Frame::of_offer(&[0; 60])?;
    let mut scrambler = Scrambler::new();
    let mut text = PieceText::new();
    let mut rx = PcsRx::new();
    assert_eq!(rt; rx.class(), Class::None);
    put_piece(&mut text, 2, &mut scrambler, &frame, true)?;
    let told = hear_burst(&mut rx, text.as_slice(), frame.octets());
    assert_eq!(rt; told.pieces, 1);
    assert_eq!(rt; told.tick, 4 * 146 - 1);
    assert_eq!(rt; told.last, Some((2, 140, Closer::R, Kind::Good, 64)));
    assert!(rt; told.same);
    assert_eq!(rt; rx.class(), Class::Run);
    put_piece(&mut text, 7, &mut scrambler, &frame, true)?;
    let told = hear_groups(&mut rx, text.as_slice(), frame.octets());
    assert_eq!(rt; told.pieces, 1);
    assert_eq!(rt; told.last, Some((7, 140, Closer::R, Kind::Good, 64)));
    assert!(rt; told.same);
    Ok(())
}

#[test]
fn a_piece_that_is_not_good_has_no_frame(rt: HostRuntime) -> Result<(), Fail> {
    let frame = Frame::of_offer(&[0; 60])?;
    let mut scrambler = Scrambler::new();
    let mut text = PieceText::new();
    let mut rx = PcsRx::new();
    put_piece(&mut text, 2, &mut scrambler, &frame, false)?;
    let told = hear_burst(&mut rx, text.as_slice(), &[]);
    assert_eq!(rt; told.pieces, 1);
    assert_eq!(rt; told.last, Some((2, 140, Closer::K, Kind::Errored, 0)));
    put_piece(&mut text, 2, &mut scrambler, &frame, true)?;
    let groups = text.as_slice();
    assert_eq!(rt; groups.len(), 146);
    let told = hear_burst(&mut rx, front(groups, 145), &[]);
    assert_eq!(rt; told.pieces, 0);
    let told = hear_groups(&mut rx, &[CUT], &[]);
    assert_eq!(rt; told.pieces, 1);
    assert_eq!(rt; told.last, Some((2, 140, Closer::S, Kind::Jabber, 0)));
    Ok(())
}

#[test]
fn a_torn_burst_hands_on_nothing_more(rt: HostRuntime) -> Result<(), Fail> {
    let frame = Frame::of_offer(&[0; 60])?;
    let mut scrambler = Scrambler::new();
    let mut text = PieceText::new();
    let mut rx = PcsRx::new();
    put_piece(&mut text, 2, &mut scrambler, &frame, true)?;
    let groups = text.as_slice();
    let _ = hear_burst(&mut rx, front(groups, 70), &[]);
    let _ = rx.hear(Heard::Many, false);
    assert_eq!(rt; rx.class(), Class::Run);
    assert_eq!(rt; hear_groups(&mut rx, back(groups, 70), &[]).pieces, 0);
    assert_eq!(rt; hear_groups(&mut rx, groups, &[]).pieces, 0);
    assert_eq!(rt; rx.class(), Class::Run);
    let told = hear_burst(&mut rx, groups, frame.octets());
    assert_eq!(rt; told.pieces, 1);
    assert!(rt; told.same);
    Ok(())
}

#[test]
fn a_burst_that_does_not_begin_at_its_start_is_not_read(rt: HostRuntime) -> Result<(), Fail> {
    let frame = Frame::of_offer(&[0; 60])?;
    let mut scrambler = Scrambler::new();
    let mut text = PieceText::new();
    let mut rx = PcsRx::new();
    put_piece(&mut text, 2, &mut scrambler, &frame, true)?;
    let _ = rx.hear(quarter(0x18, 1), false);
    assert_eq!(rt; rx.class(), Class::Other);
    let _ = rx.hear(quarter(0x18, 2), false);
    let _ = rx.hear(quarter(0x18, 3), false);
    assert_eq!(rt; hear_groups(&mut rx, text.as_slice(), &[]).pieces, 0);
    assert_eq!(rt; rx.class(), Class::Other);
    let _ = rx.hear(Heard::Nothing, false);
    let _ = rx.hear(Heard::Many, false);
    assert_eq!(rt; rx.class(), Class::Other);
    Ok(())
}

#[test]
fn the_first_symbol_sets_the_class(rt: HostRuntime) {
    let rows = [
        (Symbol::N, Class::Beacon),
        (Symbol::J, Class::Run),
        (Symbol::T, Class::Other),
        (Symbol::H, Class::Other),
    ];
    for (sym, class) in rows {
        let mut rx = PcsRx::new();
        for part in 0..3u8 {
            let _ = rx.hear(Heard::One(Quarter { sym, part }), false);
            assert_eq!(rt; rx.class(), Class::None);
        }
        let _ = rx.hear(Heard::One(Quarter { sym, part: 3 }), false);
        assert_eq!(rt; rx.class(), class);
        for part in 0..4u8 {
            let _ = rx.hear(
                Heard::One(Quarter {
                    sym: Symbol::J,
                    part,
                }),
                false,
            );
        }
        assert_eq!(rt; rx.class(), class);
        let _ = rx.hear(Heard::Nothing, false);
        assert_eq!(rt; rx.class(), class);
    }
}

#[test]
fn a_node_that_drives_has_no_class(rt: HostRuntime) {
    let mut rx = PcsRx::new();
    let told = hear_burst(&mut rx, &[0x18, 0x18], &[]);
    assert_eq!(rt; told.pieces, 0);
    assert_eq!(rt; rx.class(), Class::Run);
    let _ = rx.hear(quarter(0x04, 0), true);
    assert_eq!(rt; rx.class(), Class::None);
    let _ = rx.hear(quarter(0x04, 1), false);
    let _ = rx.hear(Heard::Many, false);
    assert_eq!(rt; rx.class(), Class::None);
    let _ = rx.hear(Heard::Nothing, true);
    let _ = rx.hear(Heard::Many, true);
    assert_eq!(rt; rx.class(), Class::None);
    let _ = rx.hear(Heard::Many, false);
    assert_eq!(rt; rx.class(), Class::None);
}
