use crate::Status;
use crate::capture_tests::SCRIPT;
use crate::counted_calls::{Plan, check_plan};
use crate::offer_rows::{ONE_FRAME, ONE_FRAME_REPORT, Part};
use crate::offer_tests::{AT_NODE_0, joined};
use crate::tests::{NO_END, Row, call, check_rows};
use std::alloc::{AllocError, Global};
use std::process::Abort;
use std::test::Fail;
use t1s_base::QuietSource;

/// How many octets the first lines of a text have.
pub(crate) fn length_of_lines(text: &[u8], lines: u64) -> usize {
    let mut length = 0usize;
    let mut ended = 0u64;
    for octet in text {
        if ended < lines {
            length = length.saturating_add(1);
        }
        if *octet == b'\n' {
            ended = ended.saturating_add(1);
        }
    }
    length
}

/// The report has 22 lines, each one `write` call, and `finish` is the call after them.
#[test]
fn a_failed_write_of_a_run_leaves_the_lines_before_it(rt: HostRuntime) -> Result<(), Fail> {
    let report = joined(rt.alloc(), ONE_FRAME_REPORT)?;
    for lines in 0..24u64 {
        let status = if lines < 23 {
            Status::WriteFault
        } else {
            Status::Done
        };
        let plan = Plan {
            words: &["run"],
            input: ONE_FRAME,
            read: 0,
            write: lines.saturating_add(1),
        };
        let counts = check_plan(&rt, rt.alloc(), &plan, status, report.as_slice())?;
        let length = length_of_lines(report.as_slice(), lines);
        assert_eq!(rt; counts.octets, length, "after {lines} lines");
        assert_eq!(rt;
            counts.writes,
            lines.min(22).saturating_add(1),
            "after {lines} lines"
        );
        assert_eq!(rt; counts.reads, 2, "after {lines} lines");
    }
    Ok(())
}

/// Sees that the program makes so many calls of the sink and then gives this answer, and that it ends at once at each that
/// fails, having written more before each.
fn check_each_write(
    rt: &impl Abort,
    alloc: Global,
    words: &[&str],
    input: &[u8],
    wanted: (Status, u64),
) -> Result<(), AllocError> {
    let source = QuietSource::new(Vec::from_slice(alloc, input)?);
    let (answer, text) = call(alloc, words, source, &[])?;
    assert_eq!(rt; answer, wanted.0);
    let mut least = 0usize;
    for write in 1..wanted.1.saturating_add(1) {
        let plan = Plan {
            words,
            input,
            read: 0,
            write,
        };
        let counts = check_plan(rt, alloc, &plan, Status::WriteFault, text.as_slice())?;
        assert_eq!(rt; counts.writes, write);
        assert!(rt; write == 1 || least < counts.octets, "write {write}");
        least = counts.octets;
    }
    assert_eq!(rt; least, text.len());
    Ok(())
}

/// The words of a call, its input, its answer, and how many calls of the sink it makes.
type Writes<'a> = (&'a [&'a str], &'a [u8], Status, u64);

#[test]
fn no_call_of_the_sink_follows_a_failed_one(rt: HostRuntime) -> Result<(), Fail> {
    let table: [Writes<'_>; 10] = [
        (&["run"], NO_END, Status::Refused, 2),
        (&["check"], ONE_FRAME, Status::Done, 2),
        (&["json"], ONE_FRAME, Status::Done, 2),
        (&["capture", "2"], SCRIPT, Status::Done, 9),
        (&["capture", "7"], SCRIPT, Status::Refused, 2),
        (&["pcap", "0"], ONE_FRAME, Status::Done, 3),
        (&["decode"], AT_NODE_0, Status::Done, 4),
        (&["decode"], b"", Status::Refused, 2),
        (&["gen", "1", "1", "0"], b"", Status::Done, 6),
        (&["load", "1", "1", "0"], b"", Status::Done, 3),
    ];
    for row in table {
        check_each_write(&rt, rt.alloc(), row.0, row.1, (row.2, row.3))?;
    }
    Ok(())
}

/// The line of the piece in the capture of node 0, and the one of its run.
pub(crate) const PIECE_AND_RUN: &[Part] = &[
    (b"piece 8436 2 140 R good ", b"00", 60),
    (b"\nrun 8436 9020 1\n", b"", 0),
];

/// Sees that the program ends at once at this read, which fails, having made so many calls of the sink.
fn check_failed_read(
    rt: &impl Abort,
    alloc: Global,
    plan: &Plan<'_>,
    writes: u64,
) -> Result<(), AllocError> {
    let text = joined(alloc, PIECE_AND_RUN)?;
    let counts = check_plan(rt, alloc, plan, Status::ReadFault, text.as_slice())?;
    assert_eq!(rt; (counts.reads, counts.writes), (plan.read, writes));
    Ok(())
}

#[test]
fn no_read_follows_a_failed_one(rt: HostRuntime) -> Result<(), Fail> {
    let table: [(&[&str], &[u8], u64); 6] = [
        (&["run"], ONE_FRAME, 0),
        (&["check"], ONE_FRAME, 0),
        (&["json"], ONE_FRAME, 0),
        (&["capture", "0"], ONE_FRAME, 0),
        (&["pcap", "0"], ONE_FRAME, 0),
        (&["decode"], AT_NODE_0, 2),
    ];
    for row in table {
        let (words, input, writes) = row;
        for read in 1..3u64 {
            let plan = Plan {
                words,
                input,
                read,
                write: 0,
            };
            let writes = if read == 1 { 0 } else { writes };
            check_failed_read(&rt, rt.alloc(), &plan, writes)?;
        }
    }
    Ok(())
}

#[test]
fn a_second_read_that_fails_leaves_the_lines_of_the_first(rt: HostRuntime) -> Result<(), Fail> {
    let lines = joined(rt.alloc(), PIECE_AND_RUN)?;
    let row: Row<'_> = (AT_NODE_0, &[2], &[], Status::ReadFault, lines.as_slice());
    check_rows(&rt, rt.alloc(), &["decode"], &[row])?;
    Ok(())
}
