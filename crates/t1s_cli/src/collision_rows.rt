// Scripts in which frames collide or are jammed, and the reports of their runs.

use crate::offer_rows::Part;

/// Two nodes have a frame at once. The one whose opportunity comes later jams, and sends in it.
pub(crate) const TWO_FRAMES: &[u8] =
    b"t1s 1\ncount 3\nnode 0 0 0\nnode 1 1 2\nnode 2 2 5\ndraw 2 1\nfill 8300 1 60 00\n\
fill 8300 2 60 11\nend 9900\n";

/// The same with the other draw, which changes nothing.
pub(crate) const TWO_FRAMES_ANY_DRAW: &[u8] =
    b"t1s 1\ncount 3\nnode 0 0 0\nnode 1 1 2\nnode 2 2 5\ndraw 2 0\nfill 8300 1 60 00\n\
fill 8300 2 60 11\nend 9900\n";

pub(crate) const TWO_FRAMES_REPORT: &[Part] = &[
    (
        b"8256 status 0 ok\n8256 beacon 0\n8276 quiet 0\n8282 status 1 ok\n8285 status 2 ok\n\
8300 taken 1 1\n8300 taken 2 2\n8376 beacon 0\n8396 quiet 0\n8434 commit 1\n8442 leave 1 1\n\
8446 jam 2 2\n9018 quiet 1\n9019 arrive 0 good ",
        b"00",
        60,
    ),
    (b"\n9020 arrive 2 good ", b"00", 60),
    (
        b"\n9025 commit 2\n9133 leave 2 2\n9709 quiet 2\n9711 arrive 1 good ",
        b"11",
        60,
    ),
    (b"\n9713 arrive 0 good ", b"11", 60),
    (
        b"\n9718 beacon 0\n9738 quiet 0\n9838 beacon 0\n9858 quiet 0\nsettled 8285\n\
node 0 sent 0 full 0 jam 0 drop 0 good 2 bad 0 clash 0\n\
node 1 sent 1 full 0 jam 0 drop 0 good 1 bad 0 clash 0\n\
node 2 sent 1 full 0 jam 1 drop 0 good 1 bad 0 clash 0\noffer 1 wait 142\noffer 2 wait 833\n",
        b"",
        0,
    ),
];

/// The delay line of the node is full before its opportunity comes.
pub(crate) const FULL_LINE: &[u8] =
    b"t1s 1\ncount 16\nnode 0 0 0\nnode 1 1 2\nfill 8300 1 60 00\nend 10100\n";

pub(crate) const FULL_LINE_REPORT: &[Part] = &[
    (
        b"8256 status 0 ok\n8256 beacon 0\n8276 quiet 0\n8282 status 1 ok\n8300 taken 1 1\n8771 jam 1 1\n\
8792 beacon 0\n8812 quiet 0\n9328 beacon 0\n9348 quiet 0\n9386 commit 1\n9494 leave 1 1\n\
10070 quiet 1\n10071 arrive 0 good ",
        b"00",
        60,
    ),
    (
        b"\nsettled 8282\nnode 0 sent 0 full 0 jam 0 drop 0 good 1 bad 0 clash 0\n\
node 1 sent 1 full 0 jam 1 drop 0 good 0 bad 0 clash 0\noffer 1 wait 1194\n",
        b"",
        0,
    ),
];

/// Two nodes have the same ID. Their frames collide twice, since their first draws are equal. One more is
/// offered near the end.
pub(crate) const EQUAL_DRAWS: &[u8] =
    b"t1s 1\ncount 2\nnode 0 0 0\nnode 1 1 2\nnode 2 1 3\ndraw 1 0\ndraw 1 1\ndraw 2 0\n\
draw 2 2\nfill 8300 1 60 01\nfill 8300 2 60 02\nfill 10550 2 60 03\nend 10600\n";

pub(crate) const EQUAL_DRAWS_REPORT: &[Part] = &[
    (
        b"8256 status 0 ok\n8256 beacon 0\n8276 quiet 0\n8282 status 1 ok\n8283 status 2 ok\n\
8300 taken 1 1\n8300 taken 2 2\n8344 beacon 0\n8364 quiet 0\n8402 commit 1\n8403 commit 2\n\
8410 leave 1 1\n8411 leave 2 2\n8443 jam 1 1\n8444 jam 2 2\n8506 quiet 1\n8507 quiet 2\n\
8514 beacon 0\n8534 quiet 0\n8602 beacon 0\n8622 quiet 0\n8660 commit 1\n8661 commit 2\n\
8668 leave 1 1\n8669 leave 2 2\n8671 jam 2 2\n8672 jam 1 1\n8764 quiet 1\n8765 quiet 2\n\
8772 beacon 0\n8792 quiet 0\n8860 beacon 0\n8880 quiet 0\n8948 beacon 0\n8968 quiet 0\n\
9036 beacon 0\n9056 quiet 0\n9124 beacon 0\n9144 quiet 0\n9212 beacon 0\n9232 quiet 0\n\
9270 commit 1\n9278 leave 1 1\n9854 quiet 1\n9854 arrive 2 good ",
        b"01",
        60,
    ),
    (b"\n9855 arrive 0 good ", b"01", 60),
    (
        b"\n9860 beacon 0\n9880 quiet 0\n9948 beacon 0\n9968 quiet 0\n10007 commit 2\n10015 leave 2 2\n\
10550 taken 2 3\n10591 quiet 2\n10591 arrive 1 good ",
        b"02",
        60,
    ),
    (b"\n10593 arrive 0 good ", b"02", 60),
    (
        b"\n10598 beacon 0\nsettled 8283\nnode 0 sent 0 full 0 jam 0 drop 0 good 2 bad 0 clash 204\n\
node 1 sent 1 full 0 jam 2 drop 0 good 1 bad 0 clash 204\n\
node 2 sent 1 full 0 jam 2 drop 0 good 1 bad 0 clash 208\noffer 1 wait 110\noffer 2 wait 111\n\
offer 3 none\n",
        b"",
        0,
    ),
];

/// Two coordinators far apart. A beacon of the farther one meets the frame at its node alone, and is over at the others before
/// the jammed piece reaches them, which hear it whole.
pub(crate) const JAMMED: &[u8] = b"t1s 1\ncount 2\nto 16\nnode 0 0 179\nnode 1 1 55\nnode 2 0 97\n\
fill 4142 1 14 3c\nend 4600\n";

pub(crate) const JAMMED_REPORT: &[Part] = &[(
    b"4128 status 0 ok\n4128 beacon 0\n4128 status 2 ok\n4128 beacon 2\n4142 taken 1 1\n\
4148 quiet 0\n4148 quiet 2\n4184 beacon 0\n4184 beacon 2\n4194 status 1 ok\n4204 quiet 0\n\
4204 quiet 2\n4292 commit 1\n4300 leave 1 1\n4355 jam 1 1\n4396 quiet 1\n\
4437 arrive 2 errored\n4519 arrive 0 errored\nsettled 4194\n\
node 0 sent 0 full 0 jam 0 drop 0 good 0 bad 1 clash 0\n\
node 1 sent 0 full 0 jam 1 drop 0 good 0 bad 0 clash 20\n\
node 2 sent 0 full 0 jam 0 drop 0 good 0 bad 1 clash 0\noffer 1 wait 158\n",
    b"",
    0,
)];
