// Scripts with noise, unequal timers and doubled IDs, and the reports of their runs.

use crate::offer_rows::Part;

/// The noise meets the middle of a frame. The hearers read no more of it, and the node that sends it jams and sends it
/// again in its next opportunity but one, since its first draw is 0.
pub(crate) const IN_A_FRAME: &[u8] =
    b"t1s 1\ncount 3\nnode 0 0 0\nnode 1 1 2\nnode 2 2 5\ndraw 1 0\nfill 8300 1 60 00\n\
noise 8600 8608\nend 9600\n";

pub(crate) const IN_A_FRAME_REPORT: &[Part] = &[
    (
        b"8256 status 0 ok\n8256 beacon 0\n8276 quiet 0\n8282 status 1 ok\n8285 status 2 ok\n\
8300 taken 1 1\n8376 beacon 0\n8396 quiet 0\n8434 commit 1\n8442 leave 1 1\n8603 jam 1 1\n\
8698 quiet 1\n8736 beacon 0\n8756 quiet 0\n8856 beacon 0\n8876 quiet 0\n8914 commit 1\n\
8922 leave 1 1\n9498 quiet 1\n9499 arrive 0 good ",
        b"00",
        60,
    ),
    (b"\n9500 arrive 2 good ", b"00", 60),
    (
        b"\n9536 beacon 0\n9556 quiet 0\nsettled 8285\n\
node 0 sent 0 full 0 jam 0 drop 0 good 1 bad 0 clash 8\n\
node 1 sent 1 full 0 jam 1 drop 0 good 0 bad 0 clash 8\n\
node 2 sent 0 full 0 jam 0 drop 0 good 1 bad 0 clash 8\noffer 1 wait 142\n",
        b"",
        0,
    ),
];

/// The noise meets the frame at its node and at the near one. It is over before the frame reaches the far one, which
/// hears the jammed piece whole, with the closer of a bad one.
pub(crate) const BEFORE_THE_FAR_NODE: &[u8] =
    b"t1s 1\ncount 3\nnode 0 0 0\nnode 1 1 2\nnode 2 2 18\ndraw 1 0\nfill 8300 1 60 00\n\
noise 8435 8441\nend 9400\n";

pub(crate) const BEFORE_THE_FAR_NODE_REPORT: &[Part] = &[
    (
        b"8256 status 0 ok\n8256 beacon 0\n8276 quiet 0\n8282 status 1 ok\n8298 status 2 ok\n\
8300 taken 1 1\n8376 beacon 0\n8396 quiet 0\n8434 commit 1\n8442 leave 1 1\n8443 jam 1 1\n\
8538 quiet 1\n8553 arrive 2 errored\n8576 beacon 0\n8596 quiet 0\n8696 beacon 0\n8716 quiet 0\n\
8754 commit 1\n8762 leave 1 1\n9338 quiet 1\n9339 arrive 0 good ",
        b"00",
        60,
    ),
    (b"\n9353 arrive 2 good ", b"00", 60),
    (
        b"\n9376 beacon 0\n9396 quiet 0\nsettled 8298\n\
node 0 sent 0 full 0 jam 0 drop 0 good 1 bad 0 clash 6\n\
node 1 sent 1 full 0 jam 1 drop 0 good 0 bad 0 clash 6\n\
node 2 sent 0 full 0 jam 0 drop 0 good 1 bad 1 clash 6\noffer 1 wait 142\n",
        b"",
        0,
    ),
];

/// The noise lasts 22 ticks, the last 12 of them from the start of node 1 on.
pub(crate) const OVER_A_START: &[u8] =
    b"t1s 1\ncount 3\nnode 0 0 0\nnode 1 1 2\nlate 1 8380\nnoise 8370 8392\nend 8600\n";

pub(crate) const OVER_A_START_REPORT: &[Part] = &[(
    b"8256 status 0 ok\n8256 beacon 0\n8276 quiet 0\n8396 beacon 0\n8416 quiet 0\n8422 status 1 ok\n\
8516 beacon 0\n8536 quiet 0\nsettled 8422\n\
node 0 sent 0 full 0 jam 0 drop 0 good 0 bad 0 clash 22\n\
node 1 sent 0 full 0 jam 0 drop 0 good 0 bad 0 clash 12\n",
    b"",
    0,
)];

/// Two more noises, of which one begins before the other ends and lasts past the end: 50 further ticks. In the first six of
/// them node 0 drives too.
pub(crate) const TO_THE_END: &[u8] =
    b"t1s 1\ncount 3\nnode 0 0 0\nnode 1 1 2\nlate 1 8380\nnoise 8370 8392\nnoise 8650 8660\n\
noise 8655 9000\nend 8700\n";

pub(crate) const TO_THE_END_REPORT: &[Part] = &[(
    b"8256 status 0 ok\n8256 beacon 0\n8276 quiet 0\n8396 beacon 0\n8416 quiet 0\n8422 status 1 ok\n\
8516 beacon 0\n8536 quiet 0\n8636 beacon 0\n8656 quiet 0\nsettled 8422\n\
node 0 sent 0 full 0 jam 0 drop 0 good 0 bad 0 clash 72\n\
node 1 sent 0 full 0 jam 0 drop 0 good 0 bad 0 clash 62\n",
    b"",
    0,
)];

/// The noise ends the silence that the coordinator waits for before its first beacon.
pub(crate) const BEFORE_A_BEACON: &[u8] =
    b"t1s 1\ncount 3\nnode 0 0 0\nnode 1 1 2\nnode 2 2 5\nnoise 8250 8260\nend 16530\n";

pub(crate) const BEFORE_A_BEACON_REPORT: &[Part] = &[(
    b"16520 status 0 ok\n16520 beacon 0\nsettled never\n\
node 0 sent 0 full 0 jam 0 drop 0 good 0 bad 0 clash 10\n\
node 1 sent 0 full 0 jam 0 drop 0 good 0 bad 0 clash 10\n\
node 2 sent 0 full 0 jam 0 drop 0 good 0 bad 0 clash 10\n",
    b"",
    0,
)];

/// Two nodes have the ID 0, at one place.
pub(crate) const TWO_COORDINATORS: &[u8] = b"t1s 1\ncount 2\nnode 0 0 0\nnode 1 0 0\nend 8300\n";

pub(crate) const TWO_COORDINATORS_REPORT: &[Part] = &[(
    b"8256 status 0 ok\n8256 beacon 0\n8256 status 1 ok\n8256 beacon 1\n8276 quiet 0\n8276 quiet 1\n\
settled 8256\nnode 0 sent 0 full 0 jam 0 drop 0 good 0 bad 0 clash 20\n\
node 1 sent 0 full 0 jam 0 drop 0 good 0 bad 0 clash 20\n",
    b"",
    0,
)];

/// Node 2 counts two opportunities of 20 ticks from the end of the beacon on, where all others count 32.
pub(crate) const SHORTER_TIMER: &[u8] =
    b"t1s 1\ncount 3\nnode 0 0 0\nnode 1 1 2\nnode 2 2 5\ntonode 2 20\nfill 8300 2 60 00\nend 9100\n";

pub(crate) const SHORTER_TIMER_REPORT: &[Part] = &[
    (
        b"8256 status 0 ok\n8256 beacon 0\n8276 quiet 0\n8282 status 1 ok\n8285 status 2 ok\n\
8300 taken 2 1\n8376 beacon 0\n8396 quiet 0\n8445 commit 2\n8453 leave 2 1\n9029 quiet 2\n\
9031 arrive 1 good ",
        b"00",
        60,
    ),
    (b"\n9033 arrive 0 good ", b"00", 60),
    (
        b"\n9070 beacon 0\n9090 quiet 0\nsettled 8285\n\
node 0 sent 0 full 0 jam 0 drop 0 good 1 bad 0 clash 0\n\
node 1 sent 0 full 0 jam 0 drop 0 good 1 bad 0 clash 0\n\
node 2 sent 1 full 0 jam 0 drop 0 good 0 bad 0 clash 0\noffer 1 wait 153\n",
        b"",
        0,
    ),
];
