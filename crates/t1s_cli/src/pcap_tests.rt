use crate::Status;
use crate::offer_rows::{BURST, ONE_FRAME, Part};
use crate::offer_tests::joined;
use crate::tests::{NO_END, Row, check_rows};
use std::test::Fail;
use t1s_base::Line;
use t1s_report::{pcap_head, pcap_record};

const HEAD: &[u8] = b"\xA1\xB2\xC3\xD4\x00\x02\x00\x04\x00\x00\x00\x00\
\x00\x00\x00\x00\x00\x00\xFF\xFF\x00\x00\x00\x01";

/// The tick of the arrival is 9019.
const ONE_RECORD: &[Part] = &[
    (HEAD, b"", 0),
    (
        b"\x00\x00\x00\x00\x00\x00\x03\x85\x00\x00\x00\x3C\x00\x00\x00\x3C",
        b"\x00",
        60,
    ),
];

/// Two frames arrive in one drive, in the ticks 9020 and 9704.
const TWO_RECORDS: &[Part] = &[
    (HEAD, b"", 0),
    (
        b"\x00\x00\x00\x00\x00\x00\x03\x86\x00\x00\x00\x3C\x00\x00\x00\x3C",
        b"\x00",
        60,
    ),
    (
        b"\x00\x00\x00\x00\x00\x00\x03\xCA\x00\x00\x00\x3C\x00\x00\x00\x3C",
        b"\x11",
        60,
    ),
];

const LONG_FRAME: &[u8] =
    b"t1s 1\ncount 3\nnode 0 0 0\nnode 1 1 2\nnode 2 2 5\nfill 8300 1 1518 a5\nend 20700\n";

/// The frame's 3060 nibbles begin in tick 8442, so it arrives at the end of tick 20683.
const LONG_RECORD: &[Part] = &[
    (HEAD, b"", 0),
    (
        b"\x00\x00\x00\x00\x00\x00\x08\x14\x00\x00\x05\xEE\x00\x00\x05\xEE",
        b"\xA5",
        1518,
    ),
];

#[test]
fn good_arrivals_are_records(rt: HostRuntime) -> Result<(), Fail> {
    let table: [(&[u8], &str, &[Part]); 4] = [
        (ONE_FRAME, "0", ONE_RECORD),
        (ONE_FRAME, "1", &[(HEAD, b"", 0)]),
        (BURST, "2", TWO_RECORDS),
        (LONG_FRAME, "0", LONG_RECORD),
    ];
    for entry in table {
        let file = joined(rt.alloc(), entry.2)?;
        let row: Row<'_> = (entry.0, &[], &[], Status::Done, file.as_slice());
        check_rows(&rt, rt.alloc(), &["pcap", entry.1], &[row])?;
    }
    Ok(())
}

#[test]
fn pcap_answers_as_run_does(rt: HostRuntime) -> Result<(), Fail> {
    let missing: &[u8] = b"refused 0 UnknownNode\n";
    let table: [(&str, Row<'_>); 8] = [
        ("32", (ONE_FRAME, &[], &[], Status::Usage, b"")),
        ("00", (ONE_FRAME, &[], &[], Status::Usage, b"")),
        ("31", (ONE_FRAME, &[], &[], Status::Refused, missing)),
        ("3", (ONE_FRAME, &[], &[], Status::Refused, missing)),
        (
            "31",
            (NO_END, &[], &[], Status::Refused, b"refused 6 NoEnd\n"),
        ),
        ("0", (ONE_FRAME, &[2], &[], Status::ReadFault, b"")),
        ("0", (ONE_FRAME, &[], &[1], Status::WriteFault, b"")),
        ("0", (ONE_FRAME, &[], &[2], Status::WriteFault, HEAD)),
    ];
    for entry in table {
        check_rows(&rt, rt.alloc(), &["pcap", entry.0], &[entry.1])?;
    }
    Ok(())
}

#[test]
fn a_time_has_seconds_and_microseconds(rt: HostRuntime) -> Result<(), Fail> {
    let mut line = Line::new();
    pcap_record(&mut line, 12_345_678, &[7; 64]);
    let begin: &[u8] = b"\x00\x00\x00\x01\x00\x03\x94\x47\x00\x00\x00\x3C\x00\x00\x00\x3C\x07";
    assert_eq!(rt; line.as_slice().len(), 76);
    assert_eq!(rt; &line.as_slice()[..17], begin);
    assert_eq!(rt; pcap_head().as_slice(), HEAD);
    Ok(())
}
