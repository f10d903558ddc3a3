use super::*;
use std::test::Fail;

/// One octet more than the longest offer.
static OCTETS: [u8; 1519] = [0xA5; 1519];

/// The nibbles of a frame of 64 octets, from the tenth of its piece on.
fn piece_of(frame: &Frame) -> [u8; 131] {
    let mut nibbles = [0; 131];
    for i in 0..131_u16 {
        nibbles[usize::from(i)] = frame.nibble_at(13 + i).unwrap_or(0);
    }
    nibbles
}

/// The class of nibbles that may be a piece.
fn class_of(nibbles: &[u8]) -> Option<Arrival> {
    if nibbles.len() <= 3047 && nibbles.iter().all(|n| *n < 16) {
        Some(classify(nibbles))
    } else {
        None
    }
}

/// The class of the first nibbles of a piece, `count` of them, the one at `place` with bits of `flip` turned.
fn class_of_part(mut nibbles: [u8; 131], count: usize, place: usize, flip: u8) -> Option<Arrival> {
    if place < 131 {
        nibbles[place] ^= flip;
    }
    class_of(nibbles.get(..count)?)
}

/// A piece with one nibble more.
fn with(mut piece: PieceNibbles, nibble: u8) -> PieceNibbles {
    if nibble < 16 && piece.count() < MOST_NIBBLES {
        piece.push(nibble);
    }
    piece
}

#[test]
fn check_sequence_of_nine_digits(rt: HostRuntime) {
    assert_eq!(rt; fcs(b"123456789"), 0xCBF4_3926);
    assert_eq!(rt; fcs(b""), 0);
}

#[test]
fn offers_by_their_length(rt: HostRuntime) -> Result<(), Fail> {
    assert!(rt; matches!(Frame::of_offer(&OCTETS[..13]), Err(FrameFault::TooShort)));
    assert!(rt; matches!(Frame::of_offer(&OCTETS), Err(FrameFault::TooLong)));

    let short = Frame::of_offer(&OCTETS[..14])?;
    assert_eq!(rt; short.octets().len(), 64);
    assert_eq!(rt; &short.octets()[12..16], [0xA5, 0xA5, 0, 0].as_slice());
    assert_eq!(rt; &short.octets()[60..], [0x79, 0x6D, 0x23, 0xC4].as_slice());
    assert_eq!(rt; short.nibble_count(), 144);

    let long = Frame::of_offer(&OCTETS[..1518])?;
    assert_eq!(rt; long.octets().len(), 1522);
    assert_eq!(rt; &long.octets()[1518..], [0xA3, 0x21, 0x15, 0x32].as_slice());
    assert_eq!(rt; long.nibble_count(), 3060);
    assert_eq!(rt; long.copy().octets(), long.octets());
    for (place, nibble) in [
        (0, 5),
        (14, 5),
        (15, 13),
        (16, 5),
        (17, 10),
        (3058, 2),
        (3059, 3),
    ] {
        assert_eq!(rt; long.nibble_at(place), Some(nibble), "at {place}");
    }
    assert_eq!(rt; long.nibble_at(3060), None);
    Ok(())
}

#[test]
fn pieces_by_their_first_fault(rt: HostRuntime) -> Result<(), Fail> {
    let nibbles = piece_of(&Frame::of_offer(&OCTETS[..14])?);
    let rows = [
        (131, 3, 0, Arrival::Good),
        (131, 3, 1, Arrival::BadFcs),
        (130, 3, 1, Arrival::Odd),
        (129, 3, 1, Arrival::Runt),
        (3, 3, 1, Arrival::Runt),
        (130, 2, 8, Arrival::NoSfd),
        (2, 3, 0, Arrival::NoSfd),
    ];
    for (count, place, flip, class) in rows {
        assert_eq!(rt;
            class_of_part(nibbles, count, place, flip),
            Some(class),
            "{count} nibbles"
        );
    }
    Ok(())
}

#[test]
fn the_octets_of_a_piece_are_packed_as_its_nibbles_come(rt: HostRuntime) {
    let mut piece = PieceNibbles::new();
    assert!(rt; piece.octets().is_empty());
    for nibble in [5, 5, 13, 1, 2, 3] {
        piece = with(piece, nibble);
    }
    assert_eq!(rt; piece.octets(), [0x21].as_slice());
    assert_eq!(rt; piece.arrival(), Arrival::Odd);
    piece = with(piece, 4);
    assert_eq!(rt; piece.octets(), [0x21, 0x43].as_slice());
    assert_eq!(rt; piece.arrival(), Arrival::Runt);
    piece.clear();
    assert!(rt; piece.octets().is_empty());
    piece = with(piece, 7);
    assert_eq!(rt; piece.arrival(), Arrival::NoSfd);
}
