use crate::Status;
use crate::offer_rows::Part;
use crate::offer_tests::check_reports;
use crate::tests::check_texts;
use std::test::Fail;

/// Scripts of nodes with several IDs, and what `check` writes for them.
const CHECKED: [(&[u8], &[u8]); 6] = [
    (
        b"t1s 3\ncount 3\nnode 0 0 0\nalso 0 2\nnode 1 1 2\nend 10\n",
        b"fit 2 76804\n",
    ),
    (
        b"t1s 3\ncount 3\nnode 0 2 0\nalso 0 0\nnode 1 1 2\nend 10\n",
        b"fit 2 76804\n",
    ),
    (
        b"t1s 3\ncount 3\nnode 0 0 0\nalso 0 1\nnode 1 1 2\nend 10\n",
        b"unfit 2 1 0\n",
    ),
    (
        b"t1s 3\ncount 3\nnode 0 0 0\nalso 0 2\nnode 1 1 2\nalso 1 2\nend 10\n",
        b"unfit 2 1 0\n",
    ),
    (
        b"t1s 3\ncount 3\nnode 0 1 0\nalso 0 0\nnode 1 2 2\nalso 1 0\nend 10\n",
        b"unfit 1 2 1\n",
    ),
    (
        b"t1s 3\ncount 3\nnode 0 0 0\nalso 0 3\nnode 1 1 2\nend 10\n",
        b"unfit 3 3 3\n",
    ),
];

/// Scripts whose further IDs are refused, and the lines of the refusals.
const REFUSED: [(&[u8], &[u8]); 6] = [
    (
        b"t1s 3\ncount 3\nnode 0 0 0\nalso 0 0\nnode 1 1 2\nend 10\n",
        b"refused 4 Twice\n",
    ),
    (
        b"t1s 3\nnode 0 0 0\nalso 0 1\nalso 0 2\nalso 0 3\nalso 0 3\nend 10\n",
        b"refused 6 Twice\n",
    ),
    (
        b"t1s 3\nnode 0 0 0\nalso 0 1\nalso 0 2\nalso 0 3\nalso 0 4\nend 10\n",
        b"refused 6 TooMany\n",
    ),
    (
        b"t1s 3\nnode 0 0 0\nalso 1 1\nend 10\n",
        b"refused 3 UnknownNode\n",
    ),
    (
        b"t1s 3\nnode 0 0 0\nalso 0 255\nend 10\n",
        b"refused 3 OutOfRange\n",
    ),
    (
        b"t1s 2\nnode 0 0 0\nalso 0 1\nend 10\n",
        b"refused 3 UnknownWord\n",
    ),
];

/// Numbers that only version 3 has.
const WIDER: [(&[u8], &[u8]); 3] = [
    (
        b"t1s 3\ncount 2\nnode 0 0 0\nnode 16 1 2\nend 10\n",
        b"fit 2 64220\n",
    ),
    (
        b"t1s 3\ncount 2\nnode 0 0 0\nnode 1 1 2\nend 2000001\n",
        b"fit 2 64220\n",
    ),
    (
        b"t1s 3\ncount 2\nnode 0 0 0\nnode 31 1 2\nlate 31 20000000\nfill 19999999 31 60 00\nend 20000000\n",
        b"fit 2 64220\n",
    ),
];

/// Numbers above those of a version.
const TOO_WIDE: [(&[u8], &[u8]); 6] = [
    (
        b"t1s 1\ncount 2\nnode 0 0 0\nnode 16 1 2\nend 10\n",
        b"refused 4 OutOfRange\n",
    ),
    (
        b"t1s 2\ncount 2\nnode 0 0 0\nnode 16 1 2\nend 10\n",
        b"refused 4 OutOfRange\n",
    ),
    (
        b"t1s 3\ncount 2\nnode 0 0 0\nnode 32 1 2\nend 10\n",
        b"refused 4 OutOfRange\n",
    ),
    (
        b"t1s 1\ncount 2\nnode 0 0 0\nnode 1 1 2\nend 2000001\n",
        b"refused 5 OutOfRange\n",
    ),
    (
        b"t1s 2\ncount 2\nnode 0 0 0\nnode 1 1 2\nend 2000001\n",
        b"refused 5 OutOfRange\n",
    ),
    (
        b"t1s 3\ncount 2\nnode 0 0 0\nnode 1 1 2\nend 20000001\n",
        b"refused 5 OutOfRange\n",
    ),
];

/// A node takes no part where its first ID is 255, and gives no beacons then, whatever its other IDs are.
const NO_PART: [(&[u8], &[u8]); 2] = [
    (
        b"t1s 3\ncount 3\nnode 0 0 0\nnode 1 255 2\nalso 1 1\nfill 8300 1 60 00\nend 8400\n",
        b"8256 status 0 ok\n8256 beacon 0\n8276 quiet 0\n8300 taken 1 1\n8376 beacon 0\n8396 quiet 0\n\
settled never\n\
node 0 sent 0 full 0 jam 0 drop 0 good 0 bad 0 clash 0\n\
node 1 sent 0 full 0 jam 0 drop 0 good 0 bad 0 clash 0\noffer 1 none\n",
    ),
    (
        b"t1s 3\ncount 3\nnode 0 255 0\nalso 0 0\nnode 1 1 2\nend 8400\n",
        b"settled never\n\
node 0 sent 0 full 0 jam 0 drop 0 good 0 bad 0 clash 0\n\
node 1 sent 0 full 0 jam 0 drop 0 good 0 bad 0 clash 0\n",
    ),
];

/// The second frame of node 0 goes out in the opportunity of its further ID, the last one of a cycle, and its next beacon comes right
/// behind.
const LAST_ID: &[u8] =
    b"t1s 3\ncount 3\nnode 0 0 0\nalso 0 2\nnode 1 1 2\nfill 8300 0 60 00\nfill 8300 0 60 11\nend 9740\n";

const LAST_ID_REPORT: &[Part] = &[
    (
        b"8256 status 0 ok\n8256 beacon 0\n8276 quiet 0\n8282 status 1 ok\n\
8300 taken 0 1\n8300 taken 0 2\n8376 beacon 0\n8396 quiet 0\n8400 commit 0\n8408 leave 0 1\n\
8984 quiet 0\n8985 arrive 1 good ",
        b"00",
        60,
    ),
    (
        b"\n9052 beacon 0\n9072 quiet 0\n9140 commit 0\n9148 leave 0 2\n9724 quiet 0\n9725 arrive 1 good ",
        b"11",
        60,
    ),
    (
        b"\n9728 beacon 0\nsettled 8282\n\
node 0 sent 2 full 0 jam 0 drop 0 good 0 bad 0 clash 0\n\
node 1 sent 0 full 0 jam 0 drop 0 good 2 bad 0 clash 0\noffer 1 wait 108\noffer 2 wait 848\n",
        b"",
        0,
    ),
];

/// The IDs of node 0 in the other order, by which it gives beacons as well. Behind its opportunity at the end of a cycle and two beacons
/// it has that of the ID 0 again: six drives in a row are its own.
const OTHER_ORDER: &[u8] =
    b"t1s 3\ncount 3\nnode 0 2 0\nalso 0 0\nnode 1 1 2\nfill 8300 0 60 00\nfill 8300 0 60 11\n\
fill 8300 0 60 22\nend 10460\n";

const OTHER_ORDER_REPORT: &[Part] = &[
    (
        b"8256 status 0 ok\n8256 beacon 0\n8276 quiet 0\n8282 status 1 ok\n\
8300 taken 0 1\n8300 taken 0 2\n8300 taken 0 3\n8376 beacon 0\n8396 quiet 0\n8400 commit 0\n\
8408 leave 0 1\n8984 quiet 0\n8985 arrive 1 good ",
        b"00",
        60,
    ),
    (
        b"\n9052 beacon 0\n9072 quiet 0\n9140 commit 0\n9148 leave 0 2\n9724 quiet 0\n9725 arrive 1 good ",
        b"11",
        60,
    ),
    (
        b"\n9728 beacon 0\n9748 quiet 0\n9848 beacon 0\n9868 quiet 0\n9872 commit 0\n9880 leave 0 3\n\
10456 quiet 0\n10457 arrive 1 good ",
        b"22",
        60,
    ),
    (
        b"\nsettled 8282\n\
node 0 sent 3 full 0 jam 0 drop 0 good 0 bad 0 clash 0\n\
node 1 sent 0 full 0 jam 0 drop 0 good 3 bad 0 clash 0\n\
offer 1 wait 108\noffer 2 wait 848\noffer 3 wait 1580\n",
        b"",
        0,
    ),
];

/// Node 1 has all IDs but that of the coordinator. Each of its frames is ready too late for the opportunities before the one in which it
/// goes out: that of the ID 4, 3, 2 and 1.
const FOUR_IDS: &[u8] =
    b"t1s 3\ncount 5\nnode 0 0 0\nnode 1 1 2\nalso 1 2\nalso 1 3\nalso 1 4\nfill 8300 1 60 00\n\
fill 8300 1 60 11\nfill 8300 1 60 22\nfill 8300 1 60 33\nend 11600\n";

const FOUR_IDS_REPORT: &[Part] = &[
    (
        b"8256 status 0 ok\n8256 beacon 0\n8276 quiet 0\n8282 status 1 ok\n\
8300 taken 1 1\n8300 taken 1 2\n8300 taken 1 3\n8300 taken 1 4\n\
8410 commit 1\n8418 leave 1 1\n8994 quiet 1\n8995 arrive 0 good ",
        b"00",
        60,
    ),
    (
        b"\n9000 beacon 0\n9020 quiet 0\n9122 commit 1\n9130 leave 1 2\n9706 quiet 1\n9707 arrive 0 good ",
        b"11",
        60,
    ),
    (
        b"\n9744 beacon 0\n9764 quiet 0\n9834 commit 1\n9842 leave 1 3\n10418 quiet 1\n10419 arrive 0 good ",
        b"22",
        60,
    ),
    (
        b"\n10488 beacon 0\n10508 quiet 0\n10546 commit 1\n10554 leave 1 4\n11130 quiet 1\n\
11131 arrive 0 good ",
        b"33",
        60,
    ),
    (
        b"\n11232 beacon 0\n11252 quiet 0\n11416 beacon 0\n11436 quiet 0\nsettled 8282\n\
node 0 sent 0 full 0 jam 0 drop 0 good 4 bad 0 clash 0\n\
node 1 sent 4 full 0 jam 0 drop 0 good 0 bad 0 clash 0\n\
offer 1 wait 118\noffer 2 wait 830\noffer 3 wait 1542\noffer 4 wait 2254\n",
        b"",
        0,
    ),
];

/// Two frames of node 1 in one cycle, in the opportunities of its IDs 1 and 6.
const TWICE_IN_A_CYCLE: &[u8] =
    b"t1s 3\ncount 8\nnode 0 0 0\nnode 1 1 2\nalso 1 6\nfill 8500 1 60 00\nfill 8500 1 60 11\nend 9940\n";

const TWICE_IN_A_CYCLE_REPORT: &[Part] = &[
    (
        b"8256 status 0 ok\n8256 beacon 0\n8276 quiet 0\n8282 status 1 ok\n8500 taken 1 1\n8500 taken 1 2\n\
8536 beacon 0\n8556 quiet 0\n8594 commit 1\n8602 leave 1 1\n9178 quiet 1\n9179 arrive 0 good ",
        b"00",
        60,
    ),
    (
        b"\n9310 commit 1\n9318 leave 1 2\n9894 quiet 1\n9895 arrive 0 good ",
        b"11",
        60,
    ),
    (
        b"\n9932 beacon 0\nsettled 8282\n\
node 0 sent 0 full 0 jam 0 drop 0 good 2 bad 0 clash 0\n\
node 1 sent 2 full 0 jam 0 drop 0 good 0 bad 0 clash 0\noffer 1 wait 102\noffer 2 wait 818\n",
        b"",
        0,
    ),
];

#[test]
fn further_ids_are_checked_or_refused(rt: HostRuntime) -> Result<(), Fail> {
    check_texts(&rt, rt.alloc(), &["check"], Status::Done, &CHECKED)?;
    check_texts(&rt, rt.alloc(), &["check"], Status::Refused, &REFUSED)?;
    Ok(())
}

#[test]
fn each_version_has_its_ranges(rt: HostRuntime) -> Result<(), Fail> {
    check_texts(&rt, rt.alloc(), &["check"], Status::Done, &WIDER)?;
    check_texts(&rt, rt.alloc(), &["check"], Status::Refused, &TOO_WIDE)?;
    Ok(())
}

#[test]
fn a_node_sends_in_the_opportunity_of_each_of_its_ids(rt: HostRuntime) -> Result<(), Fail> {
    check_reports(
        &rt,
        rt.alloc(),
        &[
            (LAST_ID, LAST_ID_REPORT),
            (OTHER_ORDER, OTHER_ORDER_REPORT),
            (FOUR_IDS, FOUR_IDS_REPORT),
            (TWICE_IN_A_CYCLE, TWICE_IN_A_CYCLE_REPORT),
        ],
    )?;
    Ok(())
}

#[test]
fn a_node_whose_first_id_is_255_takes_no_part(rt: HostRuntime) -> Result<(), Fail> {
    check_texts(&rt, rt.alloc(), &["run"], Status::Done, &NO_PART)?;
    Ok(())
}
