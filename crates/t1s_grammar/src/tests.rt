use super::*;
use std::test::Fail;
use t1s_frame::Frame;
use t1s_scramble::Scrambler;
use t1s_symbols::Symbol;

/// The symbols of a piece up to its closer, each with how often it stands in a row.
const PIECE: [(Symbol, u16); 4] = [
    (Symbol::J, 2),
    (Symbol::H, 2),
    (Symbol::Nibble(7), 9),
    (Symbol::T, 1),
];

/// The place after `times` times a symbol.
fn after(place: Place, s: Symbol, times: u16) -> Result<Place, PlaceFault> {
    let mut place = place;
    for _ in 0..times {
        place = match s {
            Symbol::Nibble(n) => place.take(Symbol::Nibble(n % 16))?,
            Symbol::J => place.take(Symbol::J)?,
            Symbol::K => place.take(Symbol::K)?,
            Symbol::T => place.take(Symbol::T)?,
            Symbol::R => place.take(Symbol::R)?,
            Symbol::H => place.take(Symbol::H)?,
            Symbol::N => place.take(Symbol::N)?,
            Symbol::S => place.take(Symbol::S)?,
        };
    }
    Ok(place)
}

/// The place after symbols, each as often as it stands in a row.
fn judgement(place: Place, symbols: &[(Symbol, u16)]) -> Result<Place, PlaceFault> {
    let mut place = place;
    for (s, times) in symbols {
        place = after(place, *s, *times)?;
    }
    Ok(place)
}

/// The place after so many whole pieces.
fn after_pieces(count: u16) -> Result<Place, PlaceFault> {
    let mut place = Place::start();
    for _ in 0..count {
        place = judgement(place, &PIECE)?.take(Symbol::K)?;
    }
    Ok(place)
}

/// Whether symbols are a burst; the fault where they begin none.
fn is_burst(symbols: &[(Symbol, u16)]) -> Result<bool, PlaceFault> {
    Ok(judgement(Place::start(), symbols)?.is_burst())
}

/// Whether J and an H may follow so many pieces, and how many pieces, J and nibbles the place then counts.
fn opened(pieces: u16, lead: u16) -> Result<(u16, u16, u16), PlaceFault> {
    let place = after(after_pieces(pieces)?, Symbol::J, lead)?.take(Symbol::H)?;
    Ok((place.pieces(), place.lead(), place.nibbles()))
}

#[test]
fn bursts_are_told_from_their_beginnings(rt: HostRuntime) {
    assert_eq!(rt; is_burst(&[]), Ok(false));
    assert_eq!(rt; is_burst(&[(Symbol::N, 4)]), Ok(false));
    assert_eq!(rt; is_burst(&[(Symbol::N, 5)]), Ok(true));
    assert_eq!(rt; is_burst(&[(Symbol::N, 6)]), Err(PlaceFault::NotHere));
    assert_eq!(rt; is_burst(&[(Symbol::J, 1)]), Ok(true));
    assert_eq!(rt;
        is_burst(&[(Symbol::J, 1), (Symbol::H, 1)]),
        Err(PlaceFault::NotHere)
    );
    assert_eq!(rt; is_burst(&PIECE), Ok(false));
    let few = [
        (Symbol::J, 2),
        (Symbol::H, 2),
        (Symbol::Nibble(7), 8),
        (Symbol::T, 1),
    ];
    assert_eq!(rt; is_burst(&few), Err(PlaceFault::NotHere));
    let piece = judgement(Place::start(), &PIECE);
    if let Ok(place) = piece {
        assert_eq!(rt; (place.pieces(), place.lead(), place.nibbles()), (0, 2, 9));
        let run = judgement(place, &[(Symbol::R, 1), (Symbol::J, 3)]);
        assert!(rt; run.is_ok_and(|place| place.is_burst()));
    } else {
        assert!(rt; false);
    }
}

#[test]
fn the_counts_end_where_they_should(rt: HostRuntime) {
    let full = [
        (Symbol::J, 2),
        (Symbol::H, 2),
        (Symbol::Nibble(7), 3056),
        (Symbol::T, 1),
        (Symbol::S, 1),
    ];
    assert_eq!(rt; is_burst(&full), Ok(true));
    let over = [(Symbol::J, 2), (Symbol::H, 2), (Symbol::Nibble(7), 3057)];
    assert_eq!(rt; is_burst(&over), Err(PlaceFault::TooLong));
    assert_eq!(rt; is_burst(&[(Symbol::J, 4096)]), Ok(true));
    assert_eq!(rt; is_burst(&[(Symbol::J, 4097)]), Err(PlaceFault::TooLong));
    assert_eq!(rt; opened(4095, 2), Ok((4095, 2, 0)));
    assert_eq!(rt; opened(4096, 2), Err(PlaceFault::TooLong));
    assert_eq!(rt; opened(4096, 1), Err(PlaceFault::NotHere));
}

#[test]
fn a_piece_is_put_or_refused(rt: HostRuntime) -> Result<(), Fail> {
    let frame = Frame::of_offer(&[0; 60])?;
    let mut scrambler = Scrambler::new();
    let mut text = PieceText::new();
    assert!(rt; text.as_slice().is_empty());
    put_piece(&mut text, 2, &mut scrambler, &frame, true)?;
    assert_eq!(rt; text.as_slice().len(), 146);
    assert_eq!(rt;
        &text.as_slice()[..8],
        [0x18, 0x18, 0x04, 0x04, 0x0B, 0x0B, 0x0B, 0x09].as_slice()
    );
    assert_eq!(rt; &text.as_slice()[144..], [0x0D, 0x07].as_slice());

    let mut scrambler = Scrambler::new();
    let short = put_piece(&mut text, 1, &mut scrambler, &frame, true);
    assert_eq!(rt; short, Err(PutFault::LeadTooShort));
    let long = put_piece(&mut text, 4097, &mut scrambler, &frame, true);
    assert_eq!(rt; long, Err(PutFault::LeadTooLong));
    assert_eq!(rt; text.as_slice().len(), 146);

    put_piece(&mut text, 4096, &mut scrambler, &frame, false)?;
    assert_eq!(rt; text.as_slice().len(), 4240);
    assert_eq!(rt;
        &text.as_slice()[4094..4102],
        [0x18, 0x18, 0x04, 0x04, 0x0B, 0x0B, 0x0B, 0x09].as_slice()
    );
    assert_eq!(rt; &text.as_slice()[4238..], [0x0D, 0x11].as_slice());
    Ok(())
}
