use crate::Status;
use crate::decode_tests::check;
use crate::offer_rows::Part;
use crate::offer_tests::check_reports;
use crate::tests::{Row, check_rows, check_texts};
use std::test::Fail;

/// Scripts with stubs, and what `check` writes for them: the stub counts in the span, and twice the span and `rise` together have
/// to stay below `to`.
const CHECKED: [(&[u8], &[u8]); 2] = [
    (
        b"t1s 2\ncount 2\nnode 0 0 0\nnode 1 1 9\nstub 1 4\nend 10\n",
        b"fit 13 64330\n",
    ),
    (
        b"t1s 2\ncount 2\nnode 0 0 0\nnode 1 1 9\nstub 1 5\nend 10\n",
        b"unfit 7 32 32\n",
    ),
];

/// Scripts whose stubs are refused, and the lines of the refusals.
const REFUSED: [(&[u8], &[u8]); 6] = [
    (
        b"t1s 1\ncount 2\nnode 0 0 0\nnode 1 1 9\nstub 1 4\nend 10\n",
        b"refused 5 UnknownWord\n",
    ),
    (
        b"t1s 2\ncount 2\nnode 0 0 0\nnode 1 1 9\nstub 1 32\nend 10\n",
        b"refused 5 OutOfRange\n",
    ),
    (
        b"t1s 2\ncount 2\nnode 0 0 0\nnode 1 1 9\nstub 2 4\nend 10\n",
        b"refused 5 UnknownNode\n",
    ),
    (
        b"t1s 2\ncount 2\nnode 0 0 0\nnode 1 1 9\nstub 1 4\nstub 1 4\nend 10\n",
        b"refused 6 Twice\n",
    ),
    (
        b"t1s 2\ncount 2\nnode 0 0 0\nstab 0 4\nend 10\n",
        b"refused 4 UnknownWord\n",
    ),
    (b"t1s 02\nnode 0 0 0\nend 10\n", b"refused 1 FirstLine\n"),
];

/// Node 1 is nearer along the trunk than node 2 by as much as its stub is long.
const AS_FAR: &[u8] = b"t1s 2\ncount 3\nnode 0 0 0\nnode 1 1 2\nstub 1 3\nnode 2 2 5\nend 8300\n";

const AS_FAR_REPORT: &[u8] =
    b"8256 status 0 ok\n8256 beacon 0\n8276 quiet 0\n8285 status 1 ok\n8285 status 2 ok\nsettled 8285\n\
node 0 sent 0 full 0 jam 0 drop 0 good 0 bad 0 clash 0\n\
node 1 sent 0 full 0 jam 0 drop 0 good 0 bad 0 clash 0\n\
node 2 sent 0 full 0 jam 0 drop 0 good 0 bad 0 clash 0\n";

/// Scripts of two nodes, and the reports of their runs: with the longest stub, with two stubs at one place, and as far apart as two
/// nodes can be.
const TWO_NODES: [(&[u8], &[u8]); 3] = [
    (
        b"t1s 2\ncount 2\nnode 0 0 0\nnode 1 1 0\nstub 1 31\nend 8320\n",
        b"8256 status 0 ok\n8256 beacon 0\n8276 quiet 0\n8311 status 1 ok\nsettled 8311\n\
node 0 sent 0 full 0 jam 0 drop 0 good 0 bad 0 clash 0\n\
node 1 sent 0 full 0 jam 0 drop 0 good 0 bad 0 clash 0\n",
    ),
    (
        b"t1s 2\ncount 2\nnode 0 0 9\nnode 1 1 9\nstub 0 3\nstub 1 4\nend 8300\n",
        b"8256 status 0 ok\n8256 beacon 0\n8276 quiet 0\n8287 status 1 ok\nsettled 8287\n\
node 0 sent 0 full 0 jam 0 drop 0 good 0 bad 0 clash 0\n\
node 1 sent 0 full 0 jam 0 drop 0 good 0 bad 0 clash 0\n",
    ),
    (
        b"t1s 2\ncount 10\nnode 0 0 255\nstub 0 31\nnode 1 1 0\nstub 1 31\nend 8600\n",
        b"8256 status 0 ok\n8256 beacon 0\n8276 quiet 0\n8597 status 1 ok\nsettled 8597\n\
node 0 sent 0 full 0 jam 0 drop 0 good 0 bad 0 clash 0\n\
node 1 sent 0 full 0 jam 0 drop 0 good 0 bad 0 clash 0\n",
    ),
];

/// A frame goes along the stub of its node: 5 ticks to node 0, and 6 to node 2.
const FRAME: &[u8] =
    b"t1s 2\ncount 3\nnode 0 0 0\nnode 1 1 2\nstub 1 3\nnode 2 2 5\nfill 8300 1 60 00\nend 9200\n";

const FRAME_REPORT: &[Part] = &[
    (
        b"8256 status 0 ok\n8256 beacon 0\n8276 quiet 0\n8285 status 1 ok\n8285 status 2 ok\n\
8300 taken 1 1\n8376 beacon 0\n8396 quiet 0\n8437 commit 1\n8445 leave 1 1\n9021 quiet 1\n\
9025 arrive 0 good ",
        b"00",
        60,
    ),
    (b"\n9026 arrive 2 good ", b"00", 60),
    (
        b"\n9062 beacon 0\n9082 quiet 0\n9182 beacon 0\nsettled 8285\n\
node 0 sent 0 full 0 jam 0 drop 0 good 1 bad 0 clash 0\n\
node 1 sent 1 full 0 jam 0 drop 0 good 0 bad 0 clash 0\n\
node 2 sent 0 full 0 jam 0 drop 0 good 1 bad 0 clash 0\noffer 1 wait 145\n",
        b"",
        0,
    ),
];

const AT_NODE_1: &[u8] =
    b"T1SC\x01\x01\x20\x00\x00\x20\x45\x08\x08\x08\x08\x08\x20\x00\x00\x00\x13\x21";

#[test]
fn stubs_are_checked_or_refused(rt: HostRuntime) -> Result<(), Fail> {
    check_texts(&rt, rt.alloc(), &["check"], Status::Done, &CHECKED)?;
    check_texts(&rt, rt.alloc(), &["check"], Status::Refused, &REFUSED)?;
    Ok(())
}

#[test]
fn signals_go_along_the_stubs(rt: HostRuntime) -> Result<(), Fail> {
    let row: Row<'_> = (AS_FAR, &[], &[], Status::Done, AS_FAR_REPORT);
    check_rows(&rt, rt.alloc(), &["run"], &[row])?;
    check_texts(&rt, rt.alloc(), &["run"], Status::Done, &TWO_NODES)?;
    check_reports(&rt, rt.alloc(), &[(FRAME, FRAME_REPORT)])?;
    Ok(())
}

#[test]
fn what_a_node_with_a_stub_hears_is_captured(rt: HostRuntime) -> Result<(), Fail> {
    let row: Row<'_> = (AS_FAR, &[], &[], Status::Done, AT_NODE_1);
    check_rows(&rt, rt.alloc(), &["capture", "1"], &[row])?;
    check(
        &rt,
        rt.alloc(),
        AT_NODE_1,
        Status::Done,
        b"beacon 8261\nend 8300 beacons 1 runs 0 bare 0 torn 0 pieces 0 good 0\n",
    )
}
