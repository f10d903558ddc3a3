use crate::Status;
use crate::counted_calls::{Plan, check_plan};
use crate::fault_tests::PIECE_AND_RUN;
use crate::offer_rows::Part;
use crate::offer_tests::{AT_NODE_0, joined};
use crate::tests::{Row, check_rows};
use std::alloc::{AllocError, Global};
use std::process::Abort;
use std::test::Fail;
use t1s_base::{Line, put_number, put_text};

/// The line of the piece in the capture of node 0.
const PIECE: &[Part] = &[(b"piece 8436 2 140 R good ", b"00", 60), (b"\n", b"", 0)];

/// Sees that the first octets of the capture of node 0 are refused where they end, after these lines.
fn check_cut(
    rt: &impl Abort,
    alloc: Global,
    lines: &[u8],
    octets: usize,
) -> Result<(), AllocError> {
    let mut line = Line::new();
    assert!(rt; put_text(&mut line, b"refused ").is_ok());
    assert!(rt; put_number(&mut line, octets as u64).is_ok());
    assert!(rt; put_text(&mut line, b" Truncated\n").is_ok());
    let mut text = Vec::from_slice(alloc, lines)?;
    text.extend_from_slice(line.as_slice())?;
    let cut = &AT_NODE_0[..octets.min(AT_NODE_0.len())];
    let row: Row<'_> = (cut, &[], &[], Status::Refused, text.as_slice());
    check_rows(rt, alloc, &["decode"], &[row])
}

/// The line of the piece is written at the octet of its closer, and that of its run at the octet after it.
#[test]
fn a_capture_that_is_cut_is_refused_where_it_ends(rt: HostRuntime) -> Result<(), Fail> {
    let table: [(usize, usize, &[Part]); 3] = [
        (0, 157, &[]),
        (157, 158, PIECE),
        (158, 163, PIECE_AND_RUN),
    ];
    for (first, after, parts) in table {
        let lines = joined(rt.alloc(), parts)?;
        for octets in first..after {
            check_cut(&rt, rt.alloc(), lines.as_slice(), octets)?;
        }
    }
    Ok(())
}

/// Sees that a script of so many octets `#` is refused so, and is asked for in 257 reads: of 4096 octets each, and of one.
fn check_long_script(
    rt: &impl Abort,
    alloc: Global,
    more: usize,
    refusal: &[u8],
) -> Result<(), AllocError> {
    let mut octets = Vec::new(alloc);
    for _ in 0..256 {
        octets.extend_from_slice(&[b'#'; 4096])?;
    }
    octets.extend_from_slice(&b"##"[..more.min(2)])?;
    let plan = Plan {
        words: &["run"],
        input: octets.as_slice(),
        read: 0,
        write: 0,
    };
    let counts = check_plan(rt, alloc, &plan, Status::Refused, refusal)?;
    assert_eq!(rt; counts.reads, 257, "{more} more");
    assert_eq!(rt; counts.octets, refusal.len(), "{more} more");
    Ok(())
}

#[test]
fn one_octet_too_many_is_refused_before_the_first_line(rt: HostRuntime) -> Result<(), Fail> {
    let too_long: &[u8] = b"refused 0 TooLong\n";
    check_long_script(&rt, rt.alloc(), 0, b"refused 1 FirstLine\n")?;
    check_long_script(&rt, rt.alloc(), 1, too_long)?;
    check_long_script(&rt, rt.alloc(), 2, too_long)?;
    Ok(())
}
