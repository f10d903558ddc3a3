// Scripts with frames, and the reports of their runs.

/// A text, and two digits that follow it so many times.
pub(crate) type Part = (&'static [u8], &'static [u8], usize);

/// A frame is sent in the next opportunity of its node.
pub(crate) const ONE_FRAME: &[u8] =
    b"t1s 1\ncount 3\nnode 0 0 0\nnode 1 1 2\nnode 2 2 5\nfill 8300 1 60 00\nend 9200\n";

/// A short frame is padded to the same.
pub(crate) const SHORT_FRAME: &[u8] =
    b"t1s 1\ncount 3\nnode 0 0 0\nnode 1 1 2\nnode 2 2 5\nfill 8300 1 14 00\nend 9200\n";

pub(crate) const ONE_FRAME_REPORT: &[Part] = &[
    (
        b"8256 status 0 ok\n8256 beacon 0\n8276 quiet 0\n8282 status 1 ok\n8285 status 2 ok\n\
8300 taken 1 1\n8376 beacon 0\n8396 quiet 0\n8434 commit 1\n8442 leave 1 1\n9018 quiet 1\n\
9019 arrive 0 good ",
        b"00",
        60,
    ),
    (b"\n9020 arrive 2 good ", b"00", 60),
    (
        b"\n9056 beacon 0\n9076 quiet 0\n9176 beacon 0\n9196 quiet 0\nsettled 8285\n\
node 0 sent 0 full 0 jam 0 drop 0 good 1 bad 0 clash 0\n\
node 1 sent 1 full 0 jam 0 drop 0 good 0 bad 0 clash 0\n\
node 2 sent 0 full 0 jam 0 drop 0 good 1 bad 0 clash 0\noffer 1 wait 142\n",
        b"",
        0,
    ),
];

/// Two frames of a node leave in one burst.
pub(crate) const BURST: &[u8] =
    b"t1s 1\ncount 3\nnode 0 0 0\nnode 1 1 2\nnode 2 2 5\nburst 1\nfill 8300 1 60 00\n\
fill 8300 1 60 11\nend 9800\n";

pub(crate) const BURST_REPORT: &[Part] = &[
    (
        b"8256 status 0 ok\n8256 beacon 0\n8276 quiet 0\n8282 status 1 ok\n8285 status 2 ok\n\
8300 taken 1 1\n8300 taken 1 2\n8376 beacon 0\n8396 quiet 0\n8434 commit 1\n8442 leave 1 1\n\
9019 arrive 0 good ",
        b"00",
        60,
    ),
    (b"\n9020 arrive 2 good ", b"00", 60),
    (
        b"\n9126 leave 1 2\n9702 quiet 1\n9703 arrive 0 good ",
        b"11",
        60,
    ),
    (b"\n9704 arrive 2 good ", b"11", 60),
    (
        b"\n9740 beacon 0\n9760 quiet 0\nsettled 8285\n\
node 0 sent 0 full 0 jam 0 drop 0 good 2 bad 0 clash 0\n\
node 1 sent 2 full 0 jam 0 drop 0 good 0 bad 0 clash 0\n\
node 2 sent 0 full 0 jam 0 drop 0 good 2 bad 0 clash 0\noffer 1 wait 142\noffer 2 wait 826\n",
        b"",
        0,
    ),
];

/// No frame follows the first one of a burst, which ends with the burst timer.
pub(crate) const BURST_OF_ONE: &[u8] =
    b"t1s 1\ncount 3\nnode 0 0 0\nnode 1 1 2\nnode 2 2 5\nburst 1\nfill 8300 1 60 00\nend 9200\n";

pub(crate) const BURST_OF_ONE_REPORT: &[Part] = &[
    (
        b"8256 status 0 ok\n8256 beacon 0\n8276 quiet 0\n8282 status 1 ok\n8285 status 2 ok\n\
8300 taken 1 1\n8376 beacon 0\n8396 quiet 0\n8434 commit 1\n8442 leave 1 1\n9019 arrive 0 good ",
        b"00",
        60,
    ),
    (b"\n9020 arrive 2 good ", b"00", 60),
    (
        b"\n9146 quiet 1\n9184 beacon 0\nsettled 8285\n\
node 0 sent 0 full 0 jam 0 drop 0 good 1 bad 0 clash 0\n\
node 1 sent 1 full 0 jam 0 drop 0 good 0 bad 0 clash 0\n\
node 2 sent 0 full 0 jam 0 drop 0 good 1 bad 0 clash 0\noffer 1 wait 142\n",
        b"",
        0,
    ),
];

/// A late node is offered a frame before it is in step.
pub(crate) const LATE_FOLLOWER: &[u8] =
    b"t1s 1\ncount 3\nnode 0 0 0\nnode 1 1 2\nlate 1 8380\nfill 8390 1 60 00\nend 9300\n";

pub(crate) const LATE_FOLLOWER_REPORT: &[Part] = &[
    (
        b"8256 status 0 ok\n8256 beacon 0\n8276 quiet 0\n8376 beacon 0\n8390 taken 1 1\n8396 quiet 0\n\
8496 beacon 0\n8516 quiet 0\n8522 status 1 ok\n8616 beacon 0\n8636 quiet 0\n8674 commit 1\n\
8682 leave 1 1\n9258 quiet 1\n9259 arrive 0 good ",
        b"00",
        60,
    ),
    (
        b"\n9296 beacon 0\nsettled 8522\nnode 0 sent 0 full 0 jam 0 drop 0 good 1 bad 0 clash 0\n\
node 1 sent 1 full 0 jam 0 drop 0 good 0 bad 0 clash 0\noffer 1 wait 292\n",
        b"",
        0,
    ),
];

/// A late node is offered a frame before its start.
pub(crate) const LATE_OFF: &[u8] =
    b"t1s 1\ncount 3\nnode 0 0 0\nnode 1 1 2\nlate 1 8380\nfill 8300 1 60 00\nend 9300\n";

pub(crate) const LATE_OFF_REPORT: &[Part] = &[(
    b"8256 status 0 ok\n8256 beacon 0\n8276 quiet 0\n8300 off 1 1\n8376 beacon 0\n8396 quiet 0\n\
8496 beacon 0\n8516 quiet 0\n8522 status 1 ok\n8616 beacon 0\n8636 quiet 0\n8736 beacon 0\n\
8756 quiet 0\n8856 beacon 0\n8876 quiet 0\n8976 beacon 0\n8996 quiet 0\n9096 beacon 0\n\
9116 quiet 0\n9216 beacon 0\n9236 quiet 0\nsettled 8522\n\
node 0 sent 0 full 0 jam 0 drop 0 good 0 bad 0 clash 0\n\
node 1 sent 0 full 0 jam 0 drop 0 good 0 bad 0 clash 0\noffer 1 off\n",
    b"",
    0,
)];

/// All nodes have long frames, and the last is offered more than its queue has room for.
pub(crate) const FULL_LOAD: &[u8] =
    b"t1s 1\ncount 3\nnode 0 0 0\nnode 1 1 2\nnode 2 2 5\nroom 2\nfill 8300 0 1518 00\n\
fill 8300 0 1518 01\nfill 8300 1 1518 02\nfill 8300 1 1518 03\nfill 8300 2 1518 04\n\
fill 8300 2 1518 05\nfill 8300 2 1518 06\nend 82500\n";

pub(crate) const FULL_LOAD_REPORT: &[Part] = &[
    (
        b"8256 status 0 ok\n8256 beacon 0\n8276 quiet 0\n8282 status 1 ok\n8285 status 2 ok\n\
8300 taken 0 1\n8300 taken 0 2\n8300 taken 1 3\n8300 taken 1 4\n8300 taken 2 5\n\
8300 taken 2 6\n8300 full 2 7\n8376 beacon 0\n8396 quiet 0\n8400 commit 0\n8408 leave 0 1\n\
8443 jam 1 3\n8446 jam 2 5\n20648 quiet 0\n20649 arrive 1 good ",
        b"00",
        1518,
    ),
    (b"\n20652 arrive 2 good ", b"00", 1518),
    (
        b"\n20654 commit 1\n20762 leave 1 3\n20812 jam 0 2\n33002 quiet 1\n33003 arrive 0 good ",
        b"02",
        1518,
    ),
    (b"\n33004 arrive 2 good ", b"02", 1518),
    (
        b"\n33009 commit 2\n33117 leave 2 5\n33166 jam 1 4\n45357 quiet 2\n45359 arrive 1 good ",
        b"04",
        1518,
    ),
    (b"\n45361 arrive 0 good ", b"04", 1518),
    (
        b"\n45366 beacon 0\n45386 quiet 0\n45390 commit 0\n45498 leave 0 2\n45521 jam 2 6\n\
57738 quiet 0\n57739 arrive 1 good ",
        b"01",
        1518,
    ),
    (b"\n57742 arrive 2 good ", b"01", 1518),
    (
        b"\n57744 commit 1\n57852 leave 1 4\n70092 quiet 1\n70093 arrive 0 good ",
        b"03",
        1518,
    ),
    (b"\n70094 arrive 2 good ", b"03", 1518),
    (
        b"\n70099 commit 2\n70207 leave 2 6\n82447 quiet 2\n82449 arrive 1 good ",
        b"05",
        1518,
    ),
    (b"\n82451 arrive 0 good ", b"05", 1518),
    (
        b"\n82456 beacon 0\n82476 quiet 0\nsettled 8285\n\
node 0 sent 2 full 0 jam 1 drop 0 good 4 bad 0 clash 0\n\
node 1 sent 2 full 0 jam 2 drop 0 good 4 bad 0 clash 0\n\
node 2 sent 2 full 1 jam 2 drop 0 good 4 bad 0 clash 0\noffer 1 wait 108\noffer 2 wait 37198\n\
offer 3 wait 12462\noffer 4 wait 49552\noffer 5 wait 24817\noffer 6 wait 61907\noffer 7 full\n",
        b"",
        0,
    ),
];

/// A late node is offered a frame one tick before its start, at it and one tick after it, and another node two
/// frames in one tick. Their queues have room for one.
pub(crate) const AT_THE_START: &[u8] =
    b"t1s 1\ncount 2\nroom 1\nnode 0 0 0\nnode 1 1 1\nlate 1 8300\nfill 8299 1 60 01\n\
fill 8300 1 60 02\nfill 8301 1 60 03\nfill 8301 0 60 04\nfill 8301 0 60 05\nend 9900\n";

pub(crate) const AT_THE_START_REPORT: &[Part] = &[
    (
        b"8256 status 0 ok\n8256 beacon 0\n8276 quiet 0\n8299 off 1 1\n8300 taken 1 2\n8301 full 1 3\n\
8301 taken 0 4\n8301 full 0 5\n8344 beacon 0\n8364 quiet 0\n8368 commit 0\n8369 status 1 ok\n\
8376 leave 0 4\n8530 jam 1 2\n8952 quiet 0\n8952 arrive 1 good ",
        b"04",
        60,
    ),
    (
        b"\n8988 beacon 0\n9008 quiet 0\n9076 beacon 0\n9096 quiet 0\n9133 commit 1\n9241 leave 1 2\n\
9817 quiet 1\n9817 arrive 0 good ",
        b"02",
        60,
    ),
    (
        b"\n9822 beacon 0\n9842 quiet 0\nsettled 8369\n\
node 0 sent 1 full 1 jam 0 drop 0 good 1 bad 0 clash 0\n\
node 1 sent 1 full 1 jam 1 drop 0 good 1 bad 0 clash 0\noffer 1 off\noffer 2 wait 941\n\
offer 3 full\noffer 4 wait 75\noffer 5 full\n",
        b"",
        0,
    ),
];
