use crate::Status;
use crate::offer_rows::ONE_FRAME;
use crate::tests::{Row, check_rows, check_texts};
use std::test::Fail;

const HIGHEST: &[u8] = b"t1s 3\ncount 2\nnode 0 0 0\nnode 31 1 2\nend 8300\n";

/// 32 nodes, at most 10 ticks apart.
const ALL_NODES: &[u8] =
    b"t1s 3\ncount 32\nnode 0 0 0\nnode 1 1 0\nnode 2 2 0\nnode 3 3 1\nnode 4 4 1\nnode 5 5 1\n\
node 6 6 2\nnode 7 7 2\nnode 8 8 2\nnode 9 9 3\nnode 10 10 3\nnode 11 11 3\nnode 12 12 4\n\
node 13 13 4\nnode 14 14 4\nnode 15 15 5\nnode 16 16 5\nnode 17 17 5\nnode 18 18 6\nnode 19 19 6\n\
node 20 20 6\nnode 21 21 7\nnode 22 22 7\nnode 23 23 7\nnode 24 24 8\nnode 25 25 8\nnode 26 26 8\n\
node 27 27 9\nnode 28 28 9\nnode 29 29 9\nnode 30 30 10\nnode 31 31 10\nend 8300\n";

/// The beacon of node 0 takes 2 ticks to node 31.
const AT_NODE_31: &[u8] =
    b"T1SC\x01\x1F\x20\x00\x00\x20\x42\x08\x08\x08\x08\x08\x20\x00\x00\x00\x16\x21";

/// There it takes 10 ticks.
const FAR_AT_NODE_31: &[u8] =
    b"T1SC\x01\x1F\x20\x00\x00\x20\x4A\x08\x08\x08\x08\x08\x20\x00\x00\x00\x0E\x21";

const HIGHEST_REPORT: &[u8] =
    b"8256 status 0 ok\n8256 beacon 0\n8276 quiet 0\n8282 status 31 ok\nsettled 8282\n\
node 0 sent 0 full 0 jam 0 drop 0 good 0 bad 0 clash 0\n\
node 31 sent 0 full 0 jam 0 drop 0 good 0 bad 0 clash 0\n";

/// No node gives beacons.
const LONGEST: &[u8] = b"t1s 3\ncount 2\nnode 31 1 0\nend 20000000\n";

/// One gap of 20,000,000 ticks.
const ALL_QUIET: &[u8] = b"T1SC\x01\x1F\x20\x01\x31\x2D\x00\x21";

const LONGEST_SUMMARY: &[u8] = b"{\"nodes\":[\
{\"bad\":0,\"clash\":0,\"drop\":0,\"full\":0,\"good\":0,\"jam\":0,\"node\":31,\"sent\":0}],\
\"offers\":[],\"settled\":null}\n";

const UNKNOWN_NODE: &[u8] = b"refused 0 UnknownNode\n";

#[test]
fn the_node_of_the_highest_number_is_captured(rt: HostRuntime) -> Result<(), Fail> {
    let heard: [(&[u8], &[u8]); 3] = [
        (HIGHEST, AT_NODE_31),
        (ALL_NODES, FAR_AT_NODE_31),
        (LONGEST, ALL_QUIET),
    ];
    check_texts(&rt, rt.alloc(), &["capture", "31"], Status::Done, &heard)?;
    let missing: [(&[u8], &[u8]); 1] = [(ONE_FRAME, UNKNOWN_NODE)];
    check_texts(
        &rt,
        rt.alloc(),
        &["capture", "31"],
        Status::Refused,
        &missing,
    )?;
    check_texts(
        &rt,
        rt.alloc(),
        &["capture", "16"],
        Status::Refused,
        &missing,
    )?;
    Ok(())
}

#[test]
fn the_node_of_the_highest_number_is_reported(rt: HostRuntime) -> Result<(), Fail> {
    let report: [(&[u8], &[u8]); 1] = [(HIGHEST, HIGHEST_REPORT)];
    check_texts(&rt, rt.alloc(), &["run"], Status::Done, &report)?;
    let summary: [(&[u8], &[u8]); 1] = [(LONGEST, LONGEST_SUMMARY)];
    check_texts(&rt, rt.alloc(), &["json"], Status::Done, &summary)?;
    Ok(())
}

#[test]
fn a_higher_number_is_usage(rt: HostRuntime) -> Result<(), Fail> {
    for number in ["32", "031", "255", "256", "4294967327"] {
        let row: Row<'_> = (HIGHEST, &[], &[], Status::Usage, b"");
        check_rows(&rt, rt.alloc(), &["capture", number], &[row])?;
        check_rows(&rt, rt.alloc(), &["pcap", number], &[row])?;
    }
    Ok(())
}
