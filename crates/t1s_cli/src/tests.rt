ghost use Rattle.std.specs.Prelude.{Some};

use crate::{Status, play, workbench};
use std::alloc::{AllocError, Global};
use std::process::Abort;
use std::test::Fail;
use t1s_base::{Failed, MemSink, MemSource, QuietSource, Source};
use t1s_script::read_script;
use t1s_segment::Segment;

pub(crate) const SCRIPT: &[u8] = b"t1s 1\ncount 3\nnode 0 0 0\nnode 1 1 2\nnode 2 2 5\nend 9000\n";

const REPORT: &[u8] =
    b"8256 status 0 ok\n8256 beacon 0\n8276 quiet 0\n8282 status 1 ok\n8285 status 2 ok\n\
8376 beacon 0\n8396 quiet 0\n8496 beacon 0\n8516 quiet 0\n8616 beacon 0\n8636 quiet 0\n\
8736 beacon 0\n8756 quiet 0\n8856 beacon 0\n8876 quiet 0\n8976 beacon 0\n8996 quiet 0\n\
settled 8285\n\
node 0 sent 0 full 0 jam 0 drop 0 good 0 bad 0 clash 0\n\
node 1 sent 0 full 0 jam 0 drop 0 good 0 bad 0 clash 0\n\
node 2 sent 0 full 0 jam 0 drop 0 good 0 bad 0 clash 0\n";

pub(crate) const EARLY: &[u8] = b"t1s 1\ncount 3\nnode 0 0 0\nnode 1 1 2\nnode 2 2 5\nend 8256\n";

const NEVER_SETTLED: &[u8] = b"settled never\n\
node 0 sent 0 full 0 jam 0 drop 0 good 0 bad 0 clash 0\n\
node 1 sent 0 full 0 jam 0 drop 0 good 0 bad 0 clash 0\n\
node 2 sent 0 full 0 jam 0 drop 0 good 0 bad 0 clash 0\n";

pub(crate) const NO_END: &[u8] = b"t1s 1\ncount 3\nnode 0 0 0\nnode 1 1 2\nnode 2 2 5\n";

/// The room of a sink, in octets.
pub(crate) const ROOM: usize = 65_536;

/// The words, each one owned.
pub(crate) fn owned(alloc: Global, words: &[&str]) -> Result<Vec<String>, AllocError> {
    let mut all = Vec::new(alloc);
    for word in words {
        all.push(String::from_str(alloc, word)?)?;
    }
    Ok(all)
}

/// Calls the program over a source and an empty sink, and answers the status and what was written.
pub(crate) fn call<S: Source + Drop>(
    alloc: Global,
    words: &[&str],
    mut source: S,
    fails: &[u64],
) -> Result<(Status, Vec<u8>), AllocError> {
    let words = owned(alloc, words)?;
    let mut sink = MemSink::with_room(alloc, ROOM, Vec::from_slice(alloc, fails)?)?;
    let status = workbench(alloc, words.as_slice(), &mut source, &mut sink);
    Ok((status, Vec::from_slice(alloc, sink.written())?))
}

/// An input, the numbers of the reads and the writes that fail, the answer, and what is written.
pub(crate) type Row<'a> = (&'a [u8], &'a [u64], &'a [u64], Status, &'a [u8]);

/// Sees that these words give each row its answer and its text.
pub(crate) fn check_rows(
    rt: &impl Abort,
    alloc: Global,
    words: &[&str],
    rows: &[Row<'_>],
) -> Result<(), AllocError> {
    for row in rows {
        let (input, read_fails, write_fails, status, text) = *row;
        let source = MemSource::new(
            Vec::from_slice(alloc, input)?,
            Vec::from_slice(alloc, read_fails)?,
        );
        let (answer, written) = call(alloc, words, source, write_fails)?;
        assert_eq!(rt; answer, status);
        assert_eq!(rt; written.as_slice(), text);
    }
    Ok(())
}

/// Sees that these words give each input its text with this answer, where no call fails.
pub(crate) fn check_texts(
    rt: &impl Abort,
    alloc: Global,
    words: &[&str],
    status: Status,
    table: &[(&[u8], &[u8])],
) -> Result<(), AllocError> {
    for entry in table {
        let row: Row<'_> = (entry.0, &[], &[], status, entry.1);
        check_rows(rt, alloc, words, &[row])?;
    }
    Ok(())
}

#[test]
fn scripts_are_run_or_refused(rt: HostRuntime) -> Result<(), Fail> {
    check_rows(
        &rt,
        rt.alloc(),
        &["run"],
        &[
            (SCRIPT, &[], &[], Status::Done, REPORT),
            (EARLY, &[], &[], Status::Done, NEVER_SETTLED),
            (b"", &[], &[], Status::Refused, b"refused 1 FirstLine\n"),
            (
                b"t1s 1\nto 40\n",
                &[],
                &[],
                Status::Refused,
                b"refused 3 NoEnd\n",
            ),
            (NO_END, &[], &[], Status::Refused, b"refused 6 NoEnd\n"),
        ],
    )?;
    Ok(())
}

/// Scripts that are refused, and the lines of the refusals.
const REFUSED: [(&[u8], &[u8]); 8] = [
    (
        b"t1s 1\ncount 3\nnode 0 0 0\nnode 1 1 2\nnode 2 2 5\nnoise 9 9\n",
        b"refused 6 OutOfRange\n",
    ),
    (b"t1s 1\nnod 0 0 0\n", b"refused 2 UnknownWord\n"),
    (b"t1s 1\nto 15\n", b"refused 2 OutOfRange\n"),
    (b"t1s 1\nto 032\n", b"refused 2 Number\n"),
    (b"t1s 1\nend 10\n", b"refused 2 NoNode\n"),
    (b"t1s 1\nnode 0 0 0\n", b"refused 3 NoEnd\n"),
    (
        b"t1s 1\ncount 3\nnode 0 0 0\nnode 1 1 2\nnode 2 2 5\nend 9\nend 9\n",
        b"refused 7 AfterEnd\n",
    ),
    (
        b"t1s 1\ncount 3\nnode 0 0 0\nnode 1 1 2\nnode 2 2 5\nlate 9 5\n",
        b"refused 6 UnknownNode\n",
    ),
];

#[test]
fn refusals_of_scripts_are_written(rt: HostRuntime) -> Result<(), Fail> {
    check_texts(&rt, rt.alloc(), &["run"], Status::Refused, &REFUSED)?;
    Ok(())
}

#[test]
fn other_words_are_usage(rt: HostRuntime) -> Result<(), Fail> {
    let wrong: [&[&str]; 10] = [
        &[],
        &["run", "run"],
        &["check", "check"],
        &["json", "json"],
        &["decode", "0"],
        &["capture"],
        &["capture", "32"],
        &["capture", "01"],
        &["capture", "-1"],
        &["capture", "2", "2"],
    ];
    for words in wrong {
        check_rows(
            &rt,
            rt.alloc(),
            words,
            &[(SCRIPT, &[], &[], Status::Usage, b"")],
        )?;
    }
    Ok(())
}

#[test]
fn a_fault_ends_the_run(rt: HostRuntime) -> Result<(), Fail> {
    check_rows(
        &rt,
        rt.alloc(),
        &["run"],
        &[
            (SCRIPT, &[2], &[], Status::ReadFault, b""),
            (SCRIPT, &[], &[2], Status::WriteFault, b"8256 status 0 ok\n"),
            (SCRIPT, &[], &[22], Status::WriteFault, REPORT),
        ],
    )?;
    Ok(())
}

/// Fit scripts, and what `check` writes for them.
const FIT: [(&[u8], &[u8]); 3] = [
    (
        b"t1s 1\ncount 2\nrise 5\nnode 0 0 0\nnode 1 1 13\nend 10\n",
        b"fit 13 64335\n",
    ),
    (
        b"t1s 1\ncount 3\nnode 0 0 0\nnode 1 1 2\nnode 2 2 5\nend 10\n",
        b"fit 5 76840\n",
    ),
    (
        b"t1s 1\ncount 2\nnode 0 0 9\nnode 1 1 9\nend 10\n",
        b"fit 0 64200\n",
    ),
];

/// Scripts that aren't fit, and what `check` writes for them.
const UNFIT: [(&[u8], &[u8]); 8] = [
    (
        b"t1s 1\ncount 3\nnode 0 0 0\nnode 1 1 2\nnode 2 2 5\ntonode 2 40\nend 10\n",
        b"unfit 4 40 32\n",
    ),
    (
        b"t1s 1\ncount 3\nnode 0 0 0\nnode 1 1 2\nnode 2 2 5\nnoise 5 9\nend 10\n",
        b"unfit 5 5 9\n",
    ),
    (
        b"t1s 1\ncount 2\nrise 4\nnode 0 0 0\nnode 1 1 14\nend 10\n",
        b"unfit 7 32 32\n",
    ),
    (
        b"t1s 1\ncount 2\nnode 0 0 9\nnode 1 0 9\nend 10\n",
        b"unfit 1 2 1\n",
    ),
    (
        b"t1s 1\ncount 2\nnode 0 1 9\nnode 1 1 9\nend 10\n",
        b"unfit 1 0 1\n",
    ),
    (
        b"t1s 1\ncount 2\nnode 0 0 9\nnode 1 2 9\nend 10\n",
        b"unfit 3 2 2\n",
    ),
    (
        b"t1s 1\ncount 2\nnode 0 0 9\nnode 1 1 9\nnode 2 1 9\nend 10\n",
        b"unfit 2 2 1\n",
    ),
    (
        b"t1s 1\ncount 2\nburst 16\nnode 0 0 9\nnode 1 1 9\nend 10\n",
        b"unfit 6 16 15\n",
    ),
];

#[test]
fn check_tells_span_and_bound_of_a_fit_script(rt: HostRuntime) -> Result<(), Fail> {
    check_texts(&rt, rt.alloc(), &["check"], Status::Done, &FIT)?;
    Ok(())
}

#[test]
fn check_names_the_first_unmet_premise(rt: HostRuntime) -> Result<(), Fail> {
    check_texts(&rt, rt.alloc(), &["check"], Status::Done, &UNFIT)?;
    Ok(())
}

#[test]
fn check_answers_as_run_does(rt: HostRuntime) -> Result<(), Fail> {
    let fit: &[u8] = b"fit 5 76840\n";
    let no_end: &[u8] = b"refused 6 NoEnd\n";
    check_rows(
        &rt,
        rt.alloc(),
        &["check"],
        &[
            (SCRIPT, &[], &[], Status::Done, fit),
            (NO_END, &[], &[], Status::Refused, no_end),
            (NO_END, &[], &[2], Status::WriteFault, no_end),
            (SCRIPT, &[2], &[], Status::ReadFault, b""),
            (SCRIPT, &[], &[1], Status::WriteFault, b""),
            (SCRIPT, &[], &[2], Status::WriteFault, fit),
        ],
    )?;
    Ok(())
}

const LATE: &[u8] = b"t1s 1\ncount 3\nnode 0 0 0\nnode 1 1 2\nlate 1 8380\nend 8600\n";

const LATE_REPORT: &[u8] =
    b"8256 status 0 ok\n8256 beacon 0\n8276 quiet 0\n8376 beacon 0\n8396 quiet 0\n\
8496 beacon 0\n8516 quiet 0\n8522 status 1 ok\nsettled 8522\n\
node 0 sent 0 full 0 jam 0 drop 0 good 0 bad 0 clash 0\n\
node 1 sent 0 full 0 jam 0 drop 0 good 0 bad 0 clash 0\n";

#[test]
fn a_late_follower_waits_for_a_whole_beacon(rt: HostRuntime) -> Result<(), Fail> {
    let row: Row<'_> = (LATE, &[], &[], Status::Done, LATE_REPORT);
    check_rows(&rt, rt.alloc(), &["run"], &[row])?;
    Ok(())
}

/// Gives one octet a read.
#[derive(Drop)]
pub(crate) struct OneByOne {
    pub(crate) octets: QuietSource,
}

impl Source for OneByOne {
    ghost left = { λ source. Some source.octets };

    ghost faults = { λ _. 0 };

    fn read(&mut self, into: &mut [u8]) -> Result<usize, Failed> {
        self.octets.read(&mut into[..1])
    }
}

#[test]
fn the_pieces_of_the_input_change_nothing(rt: HostRuntime) -> Result<(), Fail> {
    let octets = QuietSource::new(Vec::from_slice(rt.alloc(), SCRIPT)?);
    let (answer, written) = call(rt.alloc(), &["run"], OneByOne { octets }, &[])?;
    assert_eq!(rt; answer, Status::Done);
    assert_eq!(rt; written.as_slice(), REPORT);
    Ok(())
}

#[test]
fn a_new_segment_is_played_to_its_end(rt: HostRuntime) -> Result<(), Fail> {
    let script = read_script(rt.alloc(), SCRIPT)?;
    let mut sink = MemSink::with_room(rt.alloc(), 4096, Vec::new(rt.alloc()))?;
    let mut segment = Segment::new(rt.alloc(), &script)?;
    assert_eq!(rt; play(&mut segment, &mut sink), Ok(()));
    assert!(rt; segment.at_end());
    assert_eq!(rt; sink.written(), REPORT);
    Ok(())
}
