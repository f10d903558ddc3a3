use crate::Status;
use crate::decode_tests::check;
use crate::tests::{Row, check_rows};
use std::alloc::Global;
use std::process::Abort;
use std::test::Fail;

pub(crate) const SCRIPT: &[u8] = b"t1s 1\ncount 3\nnode 0 0 0\nnode 1 1 2\nnode 2 2 5\nend 8300\n";

const AT_NODE_2: &[u8] =
    b"T1SC\x01\x02\x20\x00\x00\x20\x45\x08\x08\x08\x08\x08\x20\x00\x00\x00\x13\x21";

const AT_NODE_0: &[u8] = b"T1SC\x01\x00\x20\x00\x00\x20\x6C\x21";

const TWO_COORDINATORS: &[u8] = b"t1s 1\ncount 3\nnode 0 0 0\nnode 1 1 4\nnode 7 0 0\nend 8300\n";

/// Nodes 1 and 2 have one ID: both send in its opportunity, and node 0 hears the one while the other is on its way.
const TWO_SENDERS: &[u8] = b"t1s 1\ncount 2\nto 40\nnode 0 0 0\nnode 1 1 1\nnode 2 1 13\n\
fill 10400 1 60 01\nfill 10400 2 60 02\nend 10700\n";

const LATE_NODE: &[u8] =
    b"t1s 1\ncount 3\nnode 0 0 0\nnode 1 1 2\nnode 2 2 5\nlate 2 8270\nend 8300\n";

/// Sees that this node's capture of a script is these octets, and that they are decoded to this text.
fn check_capture(
    rt: &impl Abort,
    alloc: Global,
    script: &[u8],
    node: &str,
    octets: &[u8],
    text: &[u8],
) -> Result<(), Fail> {
    let row: Row<'_> = (script, &[], &[], Status::Done, octets);
    check_rows(rt, alloc, &["capture", node], &[row])?;
    check(rt, alloc, octets, Status::Done, text)
}

#[test]
fn what_a_node_hears_is_captured(rt: HostRuntime) -> Result<(), Fail> {
    check_capture(
        &rt,
        rt.alloc(),
        SCRIPT,
        "2",
        AT_NODE_2,
        b"beacon 8261\nend 8300 beacons 1 runs 0 bare 0 torn 0 pieces 0 good 0\n",
    )?;
    check_capture(
        &rt,
        rt.alloc(),
        SCRIPT,
        "0",
        AT_NODE_0,
        b"end 8300 beacons 0 runs 0 bare 0 torn 0 pieces 0 good 0\n",
    )
}

#[test]
fn several_signals_or_any_in_a_drive_tear_a_burst(rt: HostRuntime) -> Result<(), Fail> {
    check_capture(
        &rt,
        rt.alloc(),
        TWO_COORDINATORS,
        "7",
        b"T1SC\x01\x07\x20\x00\x00\x20\x40\x22\x00\x00\x00\x14\x20\x00\x00\x00\x18\x21",
        b"torn 8256 8276 0 20\nend 8300 beacons 0 runs 0 bare 0 torn 1 pieces 0 good 0\n",
    )?;
    check_capture(
        &rt,
        rt.alloc(),
        TWO_COORDINATORS,
        "1",
        b"T1SC\x01\x01\x20\x00\x00\x20\x44\x22\x00\x00\x00\x14\x20\x00\x00\x00\x14\x21",
        b"torn 8260 8280 0 20\nend 8300 beacons 0 runs 0 bare 0 torn 1 pieces 0 good 0\n",
    )
}

#[test]
fn a_frame_that_meets_another_is_torn(rt: HostRuntime) -> Result<(), Fail> {
    check_capture(
        &rt,
        rt.alloc(),
        TWO_SENDERS,
        "0",
        b"T1SC\x01\x00\x20\x00\x00\x28\xFA\x18\x18\x04\x04\x0B\x0B\x22\x00\x00\x00\x68\x20\x00\x00\x00\x52\x21",
        b"torn 10490 10618 6 104\nend 10700 beacons 0 runs 0 bare 0 torn 1 pieces 0 good 0\n",
    )
}

#[test]
fn a_node_hears_nothing_before_its_start(rt: HostRuntime) -> Result<(), Fail> {
    check_capture(
        &rt,
        rt.alloc(),
        LATE_NODE,
        "2",
        b"T1SC\x01\x02\x20\x00\x00\x20\x4E\x22\x00\x00\x00\x0B\x20\x00\x00\x00\x13\x21",
        b"torn 8270 8281 0 11\nend 8300 beacons 0 runs 0 bare 0 torn 1 pieces 0 good 0\n",
    )
}

#[test]
fn a_missing_node_is_refused_after_all_of_the_script(rt: HostRuntime) -> Result<(), Fail> {
    check_rows(
        &rt,
        rt.alloc(),
        &["capture", "7"],
        &[
            (
                SCRIPT,
                &[],
                &[],
                Status::Refused,
                b"refused 0 UnknownNode\n",
            ),
            (
                b"t1s 1\nnode 0 0 0\n",
                &[],
                &[],
                Status::Refused,
                b"refused 3 NoEnd\n",
            ),
            (SCRIPT, &[1], &[], Status::ReadFault, b""),
            (SCRIPT, &[], &[1], Status::WriteFault, b""),
        ],
    )?;
    Ok(())
}

/// The capture of node 2 takes eight writes and then the end: the header, the gap at the beacon's first tick, each of
/// its five symbols, and the last gap.
#[test]
fn a_fault_ends_the_capture(rt: HostRuntime) -> Result<(), Fail> {
    check_rows(
        &rt,
        rt.alloc(),
        &["capture", "2"],
        &[
            (SCRIPT, &[2], &[], Status::ReadFault, b""),
            (SCRIPT, &[], &[1], Status::WriteFault, b""),
            (SCRIPT, &[], &[2], Status::WriteFault, b"T1SC\x01\x02"),
            (
                SCRIPT,
                &[],
                &[3],
                Status::WriteFault,
                b"T1SC\x01\x02\x20\x00\x00\x20\x45",
            ),
            (
                SCRIPT,
                &[],
                &[7],
                Status::WriteFault,
                b"T1SC\x01\x02\x20\x00\x00\x20\x45\x08\x08\x08\x08",
            ),
            (
                SCRIPT,
                &[],
                &[8],
                Status::WriteFault,
                b"T1SC\x01\x02\x20\x00\x00\x20\x45\x08\x08\x08\x08\x08",
            ),
            (SCRIPT, &[], &[9], Status::WriteFault, AT_NODE_2),
            (SCRIPT, &[], &[10], Status::Done, AT_NODE_2),
        ],
    )?;
    Ok(())
}
