use crate::Status;
use crate::tests::{check_rows, check_texts};
use std::test::Fail;

/// One node, which is placed by the first word of the seed 1, and no frames.
const ONE_NODE: &[u8] = b"t1s 1\ncount 1\nseed 1\nnode 0 0 6\nend 209000\n";

const TWO_NODES: &[u8] = b"t1s 1\ncount 2\nseed 7\nnode 0 0 1\nnode 1 1 6\nfill 10442 1 162 f6\n\
fill 10745 1 136 70\nfill 13078 1 210 1c\nend 213078\n";

/// A node that hears no other sets its status in the tick of its first beacon.
const ONE_SUMMARY: &[u8] =
    b"settled 8256\nnode 0 sent 0 full 0 jam 0 drop 0 good 0 bad 0 clash 0\n";

#[test]
fn scripts_are_made(rt: HostRuntime) -> Result<(), Fail> {
    let one = ["gen", "1", "1", "0"];
    check_rows(
        &rt,
        rt.alloc(),
        &one,
        &[
            (b"end 9\n", &[1], &[], Status::Done, ONE_NODE),
            (b"", &[], &[1], Status::WriteFault, b""),
            (b"", &[], &[3], Status::WriteFault, b"t1s 1\ncount 1\n"),
            (b"", &[], &[6], Status::WriteFault, ONE_NODE),
        ],
    )?;
    let two = ["gen", "7", "2", "3"];
    check_texts(&rt, rt.alloc(), &two, Status::Done, &[(b"", TWO_NODES)])?;
    check_texts(
        &rt,
        rt.alloc(),
        &["check"],
        Status::Done,
        &[(ONE_NODE, b"fit 0 51620\n")],
    )?;
    Ok(())
}

#[test]
fn generated_scripts_are_played(rt: HostRuntime) -> Result<(), Fail> {
    check_rows(
        &rt,
        rt.alloc(),
        &["load", "1", "1", "0"],
        &[
            (b"end 9\n", &[1], &[], Status::Done, ONE_SUMMARY),
            (b"", &[], &[2], Status::WriteFault, b"settled 8256\n"),
            (b"", &[], &[3], Status::WriteFault, ONE_SUMMARY),
        ],
    )?;
    Ok(())
}

#[test]
fn numbers_out_of_range_are_usage(rt: HostRuntime) -> Result<(), Fail> {
    for command in ["gen", "load"] {
        for numbers in [
            ["1", "0", "0"],
            ["1", "17", "0"],
            ["1", "1", "401"],
            ["4294967296", "1", "0"],
            ["01", "1", "0"],
            ["1", "1", ""],
        ] {
            let words = [command, numbers[0], numbers[1], numbers[2]];
            check_texts(&rt, rt.alloc(), &words, Status::Usage, &[(b"", b"")])?;
        }
        for words in [[command, "1", "1"], ["check", command, "1"]] {
            check_texts(&rt, rt.alloc(), &words, Status::Usage, &[(b"", b"")])?;
        }
    }
    Ok(())
}
