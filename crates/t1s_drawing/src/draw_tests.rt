use crate::{Status, draw};
use std::test::Fail;
use t1s_base::{MemSink, MemSource};

const WORDS: [&str; 4] = ["picture", "0", "100", "2"];

/// Draws a report, where these calls of the source and of the sink fail.
fn drawn(
    rt: &HostRuntime,
    given: &[&str],
    report: &[u8],
    fails: (&[u64], &[u64]),
) -> Result<(Status, Vec<u8>), Fail> {
    let mut words = Vec::new(rt.alloc());
    for word in given {
        words.push(String::from_str(rt.alloc(), word)?)?;
    }
    let octets = Vec::from_slice(rt.alloc(), report)?;
    let mut source = MemSource::new(octets, Vec::from_slice(rt.alloc(), fails.0)?);
    let mut sink = MemSink::with_room(rt.alloc(), 65_536, Vec::from_slice(rt.alloc(), fails.1)?)?;
    let status = draw(words.as_slice(), &mut source, &mut sink);
    Ok((status, Vec::from_slice(rt.alloc(), sink.written())?))
}

/// Whether the text ends with the line.
fn ends_with(text: &[u8], line: &[u8]) -> bool {
    text.len() >= line.len() && &text[text.len() - line.len()..] == line
}

#[test]
fn an_input_that_is_no_report_is_refused_at_its_line(rt: HostRuntime) -> Result<(), Fail> {
    let table: [(&[u8], &[u8]); 8] = [
        (b"", b"\nrefused 1 End\n"),
        (b"settled never\n10", b"\nrefused 2 End\n"),
        (b"refused 4 UnknownWord\n", b"\nrefused 1 Line\n"),
        (b"10 beacon 0\n9 quiet 0\n", b"\nrefused 2 Order\n"),
        (b"settled never\n10 beacon 0\n", b"\nrefused 2 Order\n"),
        (b"node 0 sent 0\n", b"\nrefused 1 Order\n"),
        (b"10 beacon 2\n", b"\nrefused 1 Node\n"),
        (b"10 arrive 0 bad\n", b"\nrefused 1 Line\n"),
    ];
    for (report, line) in table {
        let (status, written) = drawn(&rt, &WORDS, report, (&[], &[]))?;
        assert_eq!(rt; status, Status::Refused);
        assert_eq!(rt; ends_with(written.as_slice(), line), true);
    }
    Ok(())
}

#[test]
fn signs_of_one_tick_stand_side_by_side(rt: HostRuntime) -> Result<(), Fail> {
    let table: [(&[u8], &[u8]); 5] = [
        (
            b"10 taken 0 1\n",
            b" x='80' y='61'>+1</text>\nrefused 2 End\n",
        ),
        (
            b"10 taken 0 1\n10 full 0 2\n",
            b" x='116' y='61'>full 2</text>\nrefused 3 End\n",
        ),
        (
            b"10 taken 0 1\n10 beacon 0\n10 status 0 ok\n",
            b" x='116' y='61'>ok</text>\nrefused 4 End\n",
        ),
        (
            b"10 taken 0 1\n10 taken 1 2\n",
            b" x='80' y='109'>+2</text>\nrefused 3 End\n",
        ),
        (
            b"10 taken 0 1\n11 taken 0 2\n",
            b" x='81' y='61'>+2</text>\nrefused 3 End\n",
        ),
    ];
    for (report, line) in table {
        let (_, written) = drawn(&rt, &WORDS, report, (&[], &[]))?;
        assert_eq!(rt; ends_with(written.as_slice(), line), true);
    }
    Ok(())
}

#[test]
fn faults_end_a_call_at_once(rt: HostRuntime) -> Result<(), Fail> {
    let report = b"10 beacon 0\nsettled never\n";
    let (status, written) = drawn(&rt, &WORDS, report, (&[], &[]))?;
    assert_eq!(rt; status, Status::Done);
    let bar = b"<title>beacon 10 to 100</title></rect>\n</svg>\n";
    assert_eq!(rt; ends_with(written.as_slice(), bar), true);
    assert_eq!(rt;
        drawn(&rt, &WORDS, report, (&[2], &[]))?.0,
        Status::ReadFault
    );
    assert_eq!(rt;
        drawn(&rt, &WORDS, report, (&[], &[3]))?.0,
        Status::WriteFault
    );
    assert_eq!(rt;
        drawn(&rt, &["picture", "9", "9", "2"], report, (&[], &[]))?.0,
        Status::Usage
    );
    Ok(())
}

const SCOPE: &[u8] = b"$scope module node_0 $end
$var wire 1 Aa drives_0 $end
$var wire 1 Ab beacon_0 $end
$var wire 1 Ac commit_0 $end
$var wire 1 Ad frame_0 $end
$var wire 1 Ae status_0 $end
$var wire 1 Af taken_0 $end
$var wire 1 Ag refused_0 $end
$var wire 1 Ah good_0 $end
$var wire 1 Ai bad_0 $end
$var wire 1 Aj jam_0 $end
$var wire 1 Ak drop_0 $end
$upscope $end
";

const START: &[u8] = b"#0\n0Aa\n0Ab\n0Ac\n0Ad\n0Ae\n0Af\n0Ag\n0Ah\n0Ai\n0Aj\n0Ak\n";

/// The dump of a segment with one node, where this stands after the values at tick 0.
fn dump_with(rt: &HostRuntime, changes: &[u8]) -> Result<Vec<u8>, Fail> {
    let mut text = Vec::from_slice(rt.alloc(), b"$timescale 100 ns $end\n")?;
    text.extend_from_slice(SCOPE)?;
    text.extend_from_slice(b"$enddefinitions $end\n")?;
    text.extend_from_slice(START)?;
    text.extend_from_slice(changes)?;
    Ok(text)
}

#[test]
fn a_dump_has_the_changes_of_each_tick(rt: HostRuntime) -> Result<(), Fail> {
    let table: [(&[u8], &[u8]); 6] = [
        (b"settled never\n", b"#50\n"),
        (
            b"0 beacon 0\n20 quiet 0\nsettled never\nnode 0 sent 0\noffer 1 lost\n",
            b"1Aa\n1Ab\n0Ac\n0Ad\n#20\n0Aa\n0Ab\n0Ac\n0Ad\n#50\n",
        ),
        (
            b"7 taken 0 1\n9 commit 0\n9 leave 0 1\nsettled 3\n",
            b"#7\n1Af\n#8\n0Af\n0Ag\n0Ah\n0Ai\n0Aj\n0Ak\n#9\n1Aa\n0Ab\n1Ac\n0Ad\n1Aa\n0Ab\n0Ac\n1Ad\n#50\n",
        ),
        (
            b"8 arrive 0 good 00ff\n9 arrive 0 odd\n9 status 0 ok\nsettled 9\n",
            b"#8\n1Ah\n#9\n0Af\n0Ag\n0Ah\n0Ai\n0Aj\n0Ak\n1Ai\n1Ae\n#10\n0Af\n0Ag\n0Ah\n0Ai\n0Aj\n0Ak\n#50\n",
        ),
        (
            b"48 off 0 1\n48 jam 0 2\n49 drop 0 2\nsettled never\n",
            b"#48\n1Ag\n1Aj\n#49\n0Af\n0Ag\n0Ah\n0Ai\n0Aj\n0Ak\n1Ak\n#50\n0Af\n0Ag\n0Ah\n0Ai\n0Aj\n0Ak\n",
        ),
        (
            b"60 status 0 ok\n61 status 0 lost\n61 full 0 3\nsettled 60\n",
            b"#60\n1Ae\n#61\n0Ae\n1Ag\n#62\n0Af\n0Ag\n0Ah\n0Ai\n0Aj\n0Ak\n",
        ),
    ];
    for (report, changes) in table {
        let (status, written) = drawn(&rt, &["wave", "50", "1"], report, (&[], &[]))?;
        assert_eq!(rt; status, Status::Done);
        let wanted = dump_with(&rt, changes)?;
        assert_eq!(rt; written.as_slice() == wanted.as_slice(), true);
    }
    Ok(())
}

#[test]
fn a_dump_ends_at_the_line_that_is_refused(rt: HostRuntime) -> Result<(), Fail> {
    let table: [(&[u8], &[u8]); 4] = [
        (b"", b"\n0Ak\nrefused 1 End\n"),
        (b"5 beacon 0\n4 quiet 0\n", b"\n0Ad\nrefused 2 Order\n"),
        (b"5 taken 0 1\n6 beacon 1\n", b"#5\n1Af\nrefused 2 Node\n"),
        (b"5 wave 0\n", b"\n0Ak\nrefused 1 Line\n"),
    ];
    for (report, line) in table {
        let (status, written) = drawn(&rt, &["wave", "50", "1"], report, (&[], &[]))?;
        assert_eq!(rt; status, Status::Refused);
        assert_eq!(rt; ends_with(written.as_slice(), line), true);
    }
    for words in [
        ["wave", "0", "1"],
        ["wave", "50", "0"],
        ["wave", "50", "33"],
    ] {
        assert_eq!(rt; drawn(&rt, &words, b"", (&[], &[]))?.0, Status::Usage);
    }
    Ok(())
}

#[test]
fn a_dump_shows_what_a_node_hears(rt: HostRuntime) -> Result<(), Fail> {
    let words = ["wave", "50", "2", "1"];
    let report = b"3 hears 1 torn\n7 hears 1 blur\n9 hears 1 silence\nsettled never\n";
    let (status, written) = drawn(&rt, &words, report, (&[], &[]))?;
    assert_eq!(rt; status, Status::Done);
    let changes = b"\n0Bk\nb000 aa\n#3\nb100 aa\n#7\nb101 aa\n#9\nb000 aa\n#50\n";
    assert_eq!(rt; ends_with(written.as_slice(), changes), true);
    let table: [(&[u8], &[u8]); 3] = [
        (b"3 hears 0 run\n", b"\nrefused 1 Node\n"),
        (b"3 hears 1 noise\n", b"\nrefused 1 Line\n"),
        (
            b"3 hears 1 bare\n2 hears 1 silence\n",
            b"\nb011 aa\nrefused 2 Order\n",
        ),
    ];
    for (report, line) in table {
        let (status, written) = drawn(&rt, &words, report, (&[], &[]))?;
        assert_eq!(rt; status, Status::Refused);
        assert_eq!(rt; ends_with(written.as_slice(), line), true);
    }
    let (_, written) = drawn(&rt, &WORDS, b"3 hears 0 run\n", (&[], &[]))?;
    assert_eq!(rt; ends_with(written.as_slice(), b"\nrefused 1 Node\n"), true);
    assert_eq!(rt;
        drawn(&rt, &["wave", "50", "2", "2"], b"", (&[], &[]))?.0,
        Status::Usage
    );
    Ok(())
}
