ghost use Rattle.std.specs.Prelude.{Some};

use crate::Status;
use crate::tests::{OneByOne, call, check_rows};
use std::alloc::{AllocError, Global};
use std::process::Abort;
use std::test::Fail;
use t1s_base::{Failed, MemSource, QuietSource, Source};
use t1s_frame::Frame;
use t1s_grammar::{PieceText, put_piece};
use t1s_scramble::Scrambler;

const EMPTY: &[u8] = b"T1SC\x01\x02\x21";

const ONE_BEACON: &[u8] = b"T1SC\x01\x02\x20\x00\x00\x20\x40\x08\x08\x08\x08\x08\x21";

const TWO_BEACONS: &[u8] =
    b"T1SC\x01\x0F\x08\x08\x08\x08\x08\x20\x00\x00\x00\x64\x08\x08\x08\x08\x08\x21";

const BEACON_AND_RUN: &[u8] =
    b"T1SC\x01\x02\x20\x00\x00\x20\x40\x08\x08\x08\x08\x08\x20\x00\x00\x00\x64\
\x18\x18\x04\x04\x0B\x0B\x0B\x09\x16\x16\x16\x1D\x17\x16\x1C\x1B\x0D\x07\x21";

/// Decodes octets that are given as they are asked for, and one octet a read, without a fault.
pub(crate) fn check(
    rt: &impl Abort,
    alloc: Global,
    octets: &[u8],
    status: Status,
    text: &[u8],
) -> Result<(), Fail> {
    let whole = QuietSource::new(Vec::from_slice(alloc, octets)?);
    let (answer, written) = call(alloc, &["decode"], whole, &[])?;
    assert_eq!(rt; answer, status, "{octets:?}");
    assert_eq!(rt; written.as_slice(), text, "{octets:?}");
    let pieces = OneByOne {
        octets: QuietSource::new(Vec::from_slice(alloc, octets)?),
    };
    let (answer, written) = call(alloc, &["decode"], pieces, &[])?;
    assert_eq!(rt; answer, status, "{octets:?} in pieces");
    assert_eq!(rt; written.as_slice(), text, "{octets:?} in pieces");
    Ok(())
}

/// Sees that each capture is decoded to its text with this answer.
fn check_table(
    rt: &impl Abort,
    alloc: Global,
    status: Status,
    table: &[(&[u8], &[u8])],
) -> Result<(), Fail> {
    for entry in table {
        check(rt, alloc, entry.0, status, entry.1)?;
    }
    Ok(())
}

#[test]
fn captures_are_decoded(rt: HostRuntime) -> Result<(), Fail> {
    check_table(
        &rt,
        rt.alloc(),
        Status::Done,
        &[
            (
                EMPTY,
                b"end 0 beacons 0 runs 0 bare 0 torn 0 pieces 0 good 0\n",
            ),
            (
                ONE_BEACON,
                b"beacon 8256\nend 8276 beacons 1 runs 0 bare 0 torn 0 pieces 0 good 0\n",
            ),
            (
                TWO_BEACONS,
                b"beacon 0\nbeacon 120\nend 140 beacons 2 runs 0 bare 0 torn 0 pieces 0 good 0\n",
            ),
            (
                BEACON_AND_RUN,
                b"beacon 8256\npiece 8376 2 12 R runt\nrun 8376 8448 1\nend 8448 beacons 1 runs 1 bare 0 torn 0 pieces 1 good 0\n",
            ),
        ],
    )
}

#[test]
fn runs_are_decoded_with_their_pieces(rt: HostRuntime) -> Result<(), Fail> {
    check_table(
        &rt,
        rt.alloc(),
        Status::Done,
        &[
            (
                b"T1SC\x01\x02\x18\x18\x04\x04\x0B\x0B\x0B\x09\x16\x16\x16\x1D\x17\x16\x1C\x1B\x0D\x07\x21",
                b"piece 0 2 12 R runt\nrun 0 72 1\nend 72 beacons 0 runs 1 bare 0 torn 0 pieces 1 good 0\n",
            ),
            (
                b"T1SC\x01\x02\x18\x18\x04\x04\x0B\x0B\x0B\x09\x16\x16\x16\x1D\x17\x16\x1C\x1B\x0D\x11\x21",
                b"piece 0 2 12 K errored\nrun 0 72 1\nend 72 beacons 0 runs 1 bare 0 torn 0 pieces 1 good 0\n",
            ),
            (
                b"T1SC\x01\x02\x18\x18\x04\x04\x0B\x0B\x0B\x09\x16\x16\x16\x1D\x17\x16\x1C\x1B\x0D\x19\x21",
                b"piece 0 2 12 S jabber\nrun 0 72 1\nend 72 beacons 0 runs 1 bare 0 torn 0 pieces 1 good 0\n",
            ),
        ],
    )
}

#[test]
fn bare_commits_and_torn_bursts_are_decoded(rt: HostRuntime) -> Result<(), Fail> {
    check_table(
        &rt,
        rt.alloc(),
        Status::Done,
        &[
            (
                b"T1SC\x01\x02\x18\x18\x21",
                b"bare 0 8\nend 8 beacons 0 runs 0 bare 1 torn 0 pieces 0 good 0\n",
            ),
            (
                b"T1SC\x01\x02\x08\x08\x08\x22\x00\x00\x00\x00\x21",
                b"torn 0 12 3 0\nend 12 beacons 0 runs 0 bare 0 torn 1 pieces 0 good 0\n",
            ),
            (
                b"T1SC\x01\x02\x08\x08\x08\x08\x22\x00\x00\x00\x03\x20\x00\x00\x00\x01\x21",
                b"torn 0 19 4 3\nend 20 beacons 0 runs 0 bare 0 torn 1 pieces 0 good 0\n",
            ),
            (
                b"T1SC\x01\x02\x18\x18\x04\x04\x0B\x0B\x0B\x09\x16\x16\x16\x1D\x17\x16\x1C\x1B\x0D\x07\x18\x22\x00\x00\x00\x02\x21",
                b"piece 0 2 12 R runt\ntorn 0 78 19 2\nend 78 beacons 0 runs 0 bare 0 torn 1 pieces 1 good 0\n",
            ),
        ],
    )
}

/// The parts, one after another.
fn joined(alloc: Global, parts: &[&[u8]]) -> Result<Vec<u8>, AllocError> {
    let mut all = Vec::new(alloc);
    for part in parts {
        for octet in part.iter() {
            all.push(*octet)?;
        }
    }
    Ok(all)
}

#[test]
fn a_good_piece_shows_the_octets_of_its_frame(rt: HostRuntime) -> Result<(), Fail> {
    let frame = Frame::of_offer(&[0x5A; 60])?;
    let mut piece = PieceText::new();
    put_piece(&mut piece, 2, &mut Scrambler::new(), &frame, true)?;
    let octets = joined(
        rt.alloc(),
        &[
            b"T1SC\x01\x02\x20\x00\x00\x00\x10",
            piece.as_slice(),
            b"\x21",
        ],
    )?;
    let fives = b"5a5a5a5a5a5a5a5a5a5a".as_slice();
    let text = joined(
        rt.alloc(),
        &[
            b"piece 16 2 140 R good ",
            fives,
            fives,
            fives,
            fives,
            fives,
            fives,
            b"\nrun 16 600 1\nend 600 beacons 0 runs 1 bare 0 torn 0 pieces 1 good 1\n",
        ],
    )?;
    check(
        &rt,
        rt.alloc(),
        octets.as_slice(),
        Status::Done,
        text.as_slice(),
    )
}

#[test]
fn first_offences_in_a_burst_are_refused(rt: HostRuntime) -> Result<(), Fail> {
    check_table(
        &rt,
        rt.alloc(),
        Status::Refused,
        &[
            (b"T1SC\x01\x02\x18\x04", b"refused 7 Place\n"),
            (
                b"T1SC\x01\x02\x18\x18\x04\x04\x0B",
                b"refused 11 Truncated\n",
            ),
            (
                b"T1SC\x01\x02\x18\x22\x00\x00\x00\x00",
                b"refused 11 CountZero\n",
            ),
            (
                b"T1SC\x01\x02\x08\x22\x00\x00\x00\x01\x18",
                b"torn 0 5 1 1\nrefused 12 Place\n",
            ),
        ],
    )
}

#[test]
fn first_offences_after_the_header_are_refused(rt: HostRuntime) -> Result<(), Fail> {
    check_table(
        &rt,
        rt.alloc(),
        Status::Refused,
        &[
            (
                b"T1SC\x01\x02\x20\x00\x00\x00\x01\x20",
                b"refused 11 GapTwice\n",
            ),
            (
                b"T1SC\x01\x02\x20\x00\x00\x00\x00",
                b"refused 10 CountZero\n",
            ),
            (b"T1SC\x01\x02\x21\x00", b"refused 7 AfterEnd\n"),
            (b"T1SC\x01\x02\x00", b"refused 6 Group\n"),
            (b"T1SC\x01\x02\x1F", b"refused 6 Group\n"),
            (b"T1SC\x01\x02\x08\x08\x08\x20", b"refused 9 Place\n"),
            (
                b"T1SC\x01\x02\x08\x08\x08\x08\x08\x20\x00",
                b"beacon 0\nrefused 13 Truncated\n",
            ),
        ],
    )
}

#[test]
fn first_offences_in_the_header_are_refused(rt: HostRuntime) -> Result<(), Fail> {
    check_table(
        &rt,
        rt.alloc(),
        Status::Refused,
        &[
            (b"", b"refused 0 Truncated\n"),
            (b"T1SD", b"refused 3 Magic\n"),
            (b"T1SC\x02", b"refused 4 Version\n"),
            (b"T1SC\x01\x20", b"refused 5 NodeByte\n"),
        ],
    )
}

/// Gives one octet a read, and fails in planned reads.
#[derive(Drop)]
struct FailingOneByOne {
    octets: MemSource,
}

impl Source for FailingOneByOne {
    ghost left = { λ source. Some source.octets.left };

    ghost faults = { λ source. source.octets.calls.failed };

    fn read(&mut self, into: &mut [u8]) -> Result<usize, Failed> {
        self.octets.read(&mut into[..1])
    }
}

#[test]
fn a_failed_read_leaves_the_lines_of_the_octets_before_it(rt: HostRuntime) -> Result<(), Fail> {
    let table: [(u64, &[u8]); 4] = [
        (1, b""),
        (12, b""),
        (13, b"beacon 0\n"),
        (23, b"beacon 0\nbeacon 120\n"),
    ];
    for (read, text) in table {
        let octets = MemSource::new(
            Vec::from_slice(rt.alloc(), TWO_BEACONS)?,
            Vec::from_slice(rt.alloc(), &[read])?,
        );
        let (answer, written) = call(rt.alloc(), &["decode"], FailingOneByOne { octets }, &[])?;
        assert_eq!(rt; answer, Status::ReadFault, "read {read}");
        assert_eq!(rt; written.as_slice(), text, "read {read}");
    }
    Ok(())
}

#[test]
fn a_fault_ends_the_decoding(rt: HostRuntime) -> Result<(), Fail> {
    let beacons: &[u8] = b"beacon 0\nbeacon 120\n";
    let whole: &[u8] =
        b"beacon 0\nbeacon 120\nend 140 beacons 2 runs 0 bare 0 torn 0 pieces 0 good 0\n";
    check_rows(
        &rt,
        rt.alloc(),
        &["decode"],
        &[
            (TWO_BEACONS, &[1], &[], Status::ReadFault, b""),
            (TWO_BEACONS, &[2], &[], Status::ReadFault, beacons),
            (TWO_BEACONS, &[], &[1], Status::WriteFault, b""),
            (TWO_BEACONS, &[], &[2], Status::WriteFault, b"beacon 0\n"),
            (TWO_BEACONS, &[], &[4], Status::WriteFault, whole),
        ],
    )?;
    Ok(())
}
