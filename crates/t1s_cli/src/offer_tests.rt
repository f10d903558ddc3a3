ghost use Rattle.std.specs.Prelude.{None};

use crate::collision_rows::{
    EQUAL_DRAWS, EQUAL_DRAWS_REPORT, FULL_LINE, FULL_LINE_REPORT, JAMMED, JAMMED_REPORT,
    TWO_FRAMES, TWO_FRAMES_ANY_DRAW, TWO_FRAMES_REPORT,
};
use crate::decode_tests::check;
use crate::offer_rows::{
    AT_THE_START, AT_THE_START_REPORT, BURST, BURST_OF_ONE, BURST_OF_ONE_REPORT, BURST_REPORT,
    FULL_LOAD, FULL_LOAD_REPORT, LATE_FOLLOWER, LATE_FOLLOWER_REPORT, LATE_OFF, LATE_OFF_REPORT,
    ONE_FRAME, ONE_FRAME_REPORT, Part, SHORT_FRAME,
};
use crate::tests::{Row, call, check_rows};
use crate::{Status, play};
use std::alloc::{AllocError, Global};
use std::process::Abort;
use std::test::Fail;
use t1s_base::{Failed, QuietSource, Sink, WriteStop};
use t1s_script::read_script;
use t1s_segment::Segment;

/// The octets of a text.
pub(crate) fn joined(alloc: Global, parts: &[Part]) -> Result<Vec<u8>, AllocError> {
    let mut octets = Vec::new(alloc);
    for part in parts {
        let (text, digits, times) = *part;
        octets.extend_from_slice(text)?;
        for _ in 0..times {
            octets.extend_from_slice(digits)?;
        }
    }
    Ok(octets)
}

/// Sees that each script's run has its report.
pub(crate) fn check_reports(
    rt: &impl Abort,
    alloc: Global,
    table: &[(&[u8], &[Part])],
) -> Result<(), AllocError> {
    for entry in table {
        let report = joined(alloc, entry.1)?;
        let row: Row<'_> = (entry.0, &[], &[], Status::Done, report.as_slice());
        check_rows(rt, alloc, &["run"], &[row])?;
    }
    Ok(())
}

#[test]
fn offers_are_run(rt: HostRuntime) -> Result<(), Fail> {
    check_reports(
        &rt,
        rt.alloc(),
        &[
            (ONE_FRAME, ONE_FRAME_REPORT),
            (SHORT_FRAME, ONE_FRAME_REPORT),
            (TWO_FRAMES, TWO_FRAMES_REPORT),
            (TWO_FRAMES_ANY_DRAW, TWO_FRAMES_REPORT),
            (BURST, BURST_REPORT),
            (BURST_OF_ONE, BURST_OF_ONE_REPORT),
            (FULL_LINE, FULL_LINE_REPORT),
            (LATE_FOLLOWER, LATE_FOLLOWER_REPORT),
            (LATE_OFF, LATE_OFF_REPORT),
            (AT_THE_START, AT_THE_START_REPORT),
            (EQUAL_DRAWS, EQUAL_DRAWS_REPORT),
            (FULL_LOAD, FULL_LOAD_REPORT),
            (JAMMED, JAMMED_REPORT),
        ],
    )?;
    Ok(())
}

#[test]
fn a_fault_ends_a_run_with_frames(rt: HostRuntime) -> Result<(), Fail> {
    check_rows(
        &rt,
        rt.alloc(),
        &["run"],
        &[
            (ONE_FRAME, &[2], &[], Status::ReadFault, b""),
            (
                ONE_FRAME,
                &[],
                &[2],
                Status::WriteFault,
                b"8256 status 0 ok\n",
            ),
        ],
    )?;
    Ok(())
}

/// Counts its writes, and those of one whole line.
#[derive(Drop)]
struct Lines {
    writes: u64,
    lines: u64,
    finished: bool,
}

impl Sink for Lines {
    ghost written = { λ _. None };

    ghost faults = { λ _. 0 };

    ghost finished = { λ sink. sink.finished };

    fn write(&mut self, piece: &[u8]) -> Result<(), WriteStop> {
        let ends = piece.iter().filter(|octet| **octet == b'\n').count();
        if ends == 1 && piece.last() == Some(&b'\n') {
            self.lines = self.lines.saturating_add(1);
        }
        self.writes = self.writes.saturating_add(1);
        self.finished = false;
        Ok(())
    }

    fn finish(&mut self) -> Result<(), Failed> {
        self.finished = true;
        Ok(())
    }
}

#[test]
fn each_line_is_one_write(rt: HostRuntime) -> Result<(), Fail> {
    let script = read_script(rt.alloc(), ONE_FRAME)?;
    let mut sink = Lines {
        writes: 0,
        lines: 0,
        finished: false,
    };
    let mut segment = Segment::new(rt.alloc(), &script)?;
    assert_eq!(rt; play(&mut segment, &mut sink), Ok(()));
    assert_eq!(rt; sink.writes, 22);
    assert_eq!(rt; sink.lines, 22);
    assert!(rt; !sink.finished);
    Ok(())
}

/// The capture of node 0, which hears the run of one piece alone.
pub(crate) const AT_NODE_0: &[u8] =
    b"\x54\x31\x53\x43\x01\x00\x20\x00\x00\x20\xF4\x18\x18\x04\x04\x0B\x0B\x0B\x09\x16\x16\x16\x1D\x17\
\x16\x1C\x1B\x1B\x1D\x16\x1A\x0A\x0A\x0F\x16\x12\x0B\x0F\x0E\x0F\x0E\x0F\x09\x0F\x09\x17\x1C\x17\
\x1C\x1A\x14\x1B\x1C\x14\x09\x09\x0E\x09\x0E\x16\x13\x16\x0B\x14\x13\x15\x14\x1E\x1A\x1D\x0A\x1E\
\x0F\x1A\x12\x1A\x1D\x17\x15\x0E\x1E\x13\x1D\x1B\x0A\x1A\x12\x12\x12\x17\x15\x15\x1D\x13\x17\x16\
\x13\x1B\x1B\x15\x0B\x1A\x0A\x15\x17\x17\x0A\x16\x12\x0B\x1E\x0E\x0F\x16\x12\x09\x0F\x0E\x0F\x1D\
\x0F\x09\x15\x09\x16\x1C\x14\x16\x1C\x0E\x1B\x1C\x0E\x12\x09\x0E\x1A\x0E\x17\x1B\x15\x1E\x1E\x0A\
\x0F\x1E\x1E\x1B\x1D\x13\x1A\x0F\x13\x0B\x0E\x0D\x07\x20\x00\x00\x00\xB4\x21";

/// The capture of node 2, which hears the beacons too. The end of the script cuts the last one.
const AT_NODE_2: &[u8] =
    b"\x54\x31\x53\x43\x01\x02\x20\x00\x00\x20\x45\x08\x08\x08\x08\x08\x20\x00\x00\x00\x64\x08\x08\x08\
\x08\x08\x20\x00\x00\x00\x24\x18\x18\x04\x04\x0B\x0B\x0B\x09\x16\x16\x16\x1D\x17\x16\x1C\x1B\x1B\
\x1D\x16\x1A\x0A\x0A\x0F\x16\x12\x0B\x0F\x0E\x0F\x0E\x0F\x09\x0F\x09\x17\x1C\x17\x1C\x1A\x14\x1B\
\x1C\x14\x09\x09\x0E\x09\x0E\x16\x13\x16\x0B\x14\x13\x15\x14\x1E\x1A\x1D\x0A\x1E\x0F\x1A\x12\x1A\
\x1D\x17\x15\x0E\x1E\x13\x1D\x1B\x0A\x1A\x12\x12\x12\x17\x15\x15\x1D\x13\x17\x16\x13\x1B\x1B\x15\
\x0B\x1A\x0A\x15\x17\x17\x0A\x16\x12\x0B\x1E\x0E\x0F\x16\x12\x09\x0F\x0E\x0F\x1D\x0F\x09\x15\x09\
\x16\x1C\x14\x16\x1C\x0E\x1B\x1C\x0E\x12\x09\x0E\x1A\x0E\x17\x1B\x15\x1E\x1E\x0A\x0F\x1E\x1E\x1B\
\x1D\x13\x1A\x0F\x13\x0B\x0E\x0D\x07\x20\x00\x00\x00\x28\x08\x08\x08\x08\x08\x20\x00\x00\x00\x64\
\x08\x08\x08\x08\x22\x00\x00\x00\x03\x21";

const DECODED_AT_NODE_0: &[Part] = &[
    (b"piece 8436 2 140 R good ", b"00", 60),
    (
        b"\nrun 8436 9020 1\nend 9200 beacons 0 runs 1 bare 0 torn 0 pieces 1 good 1\n",
        b"",
        0,
    ),
];

const DECODED_AT_NODE_2: &[Part] = &[
    (
        b"beacon 8261\nbeacon 8381\npiece 8437 2 140 R good ",
        b"00",
        60,
    ),
    (
        b"\nrun 8437 9021 1\nbeacon 9061\ntorn 9181 9200 4 3\n\
end 9200 beacons 3 runs 1 bare 0 torn 1 pieces 1 good 1\n",
        b"",
        0,
    ),
];

/// What node 2 hears of two frames in one drive.
const BURST_AT_NODE_2: &[Part] = &[
    (
        b"beacon 8261\nbeacon 8381\npiece 8437 2 140 R good ",
        b"00",
        60,
    ),
    (b"\npiece 9021 27 140 R good ", b"11", 60),
    (
        b"\nrun 8437 9705 2\nbeacon 9745\n\
end 9800 beacons 3 runs 1 bare 0 torn 0 pieces 2 good 2\n",
        b"",
        0,
    ),
];

#[test]
fn two_frames_in_one_drive_are_two_pieces(rt: HostRuntime) -> Result<(), Fail> {
    let script = QuietSource::new(Vec::from_slice(rt.alloc(), BURST)?);
    let (status, octets) = call(rt.alloc(), &["capture", "2"], script, &[])?;
    assert_eq!(rt; status, Status::Done);
    let text = joined(rt.alloc(), BURST_AT_NODE_2)?;
    check(
        &rt,
        rt.alloc(),
        octets.as_slice(),
        Status::Done,
        text.as_slice(),
    )?;
    Ok(())
}

#[test]
fn frames_are_captured_and_decoded(rt: HostRuntime) -> Result<(), Fail> {
    assert_eq!(rt; AT_NODE_0.len(), 163);
    let table: [(&str, &[u8], &[Part]); 2] = [
        ("0", AT_NODE_0, DECODED_AT_NODE_0),
        ("2", AT_NODE_2, DECODED_AT_NODE_2),
    ];
    for row in table {
        let (node, octets, parts) = row;
        let capture: Row<'_> = (ONE_FRAME, &[], &[], Status::Done, octets);
        check_rows(&rt, rt.alloc(), &["capture", node], &[capture])?;
        let text = joined(rt.alloc(), parts)?;
        check(&rt, rt.alloc(), octets, Status::Done, text.as_slice())?;
    }
    let missing: Row<'_> = (
        ONE_FRAME,
        &[],
        &[],
        Status::Refused,
        b"refused 0 UnknownNode\n",
    );
    check_rows(&rt, rt.alloc(), &["capture", "7"], &[missing])?;
    Ok(())
}
