use crate::tests::{check_rows, fitness_of, numbers_of, read};
use crate::{bound, span};
use std::test::Fail;

#[test]
fn stubs_are_refused_for_their_first_reason(rt: HostRuntime) -> Result<(), Fail> {
    let rows = [
        ("t1s 0/node 0 0 0/end 9/", "1 FirstLine"),
        ("t1s 02/node 0 0 0/end 9/", "1 FirstLine"),
        ("t1s 2 /node 0 0 0/end 9/", "1 FirstLine"),
        ("t1s 2", "2 NoEnd"),
        ("B3/stub 1 5/end 10", "6 UnknownWord"),
        ("B3/stub 9 32 0/end 10", "6 UnknownWord"),
        ("t1s 2/node 0 0 0/stubs 0 5/end 10", "3 UnknownWord"),
        ("t1s 2/node 0 0 0/stub 0/end 10", "3 Form"),
        ("t1s 2/node 0 0 0/stub 0 5 /end 10", "3 Form"),
        ("t1s 2/node 0 0 0/stub 16 x/end 10", "3 Number"),
        ("t1s 2/node 0 0 0/stub 0 05/end 10", "3 Number"),
        ("t1s 2/node 0 0 0/stub 0 32/end 10", "3 OutOfRange"),
        ("t1s 2/node 0 0 0/stub 16 5/end 10", "3 OutOfRange"),
        ("t1s 2/node 0 0 0/stub 0 5/stub 0 5/end 10", "4 Twice"),
        ("t1s 2/node 0 0 0/stub 0 0/stub 0 31/end 10", "4 Twice"),
        ("t1s 2/node 0 0 0/stub 1 5/end 10", "3 UnknownNode"),
        ("t1s 2/stub 0 5/node 0 0 0/end 10", "2 UnknownNode"),
        ("t1s 2/node 0 0 0/end 10/stub 0 5", "4 AfterEnd"),
        ("t1s 2/node 16 0 0/end 10", "2 OutOfRange"),
        ("t1s 2/node 0 0 0/end 2000001", "3 OutOfRange"),
    ];
    Ok(check_rows(&rt, rt.alloc(), &rows)?)
}

#[test]
fn each_node_has_the_stub_of_its_line_or_none(rt: HostRuntime) -> Result<(), Fail> {
    let alloc = rt.alloc();
    let rows = [
        ("t1s 2/node 3 1 2/end 9", "8 32 4 4 0 8 1 9, 3 1 2 0 32 0"),
        (
            "t1s 2/node 1 1 9/node 0 0 0/late 1 7/stub 1 31/tonode 1 20/stub 0 0/end 9",
            "8 32 4 4 0 8 1 9, 0 0 0 0 32 0, 1 1 9 31 20 7",
        ),
    ];
    for (text, want) in rows {
        let numbers = numbers_of(alloc, &read(alloc, text)?)?;
        assert_eq!(rt; numbers.as_str(), want, "{text}");
    }
    Ok(())
}

#[test]
fn stubs_lengthen_the_span(rt: HostRuntime) -> Result<(), Fail> {
    let alloc = rt.alloc();
    let rows = [
        (
            "t1s 2/count 2/node 0 0 0/node 1 1 9/stub 1 4/end 10",
            (13, 64_330),
            "fit",
        ),
        (
            "t1s 2/count 2/node 0 0 0/node 1 1 9/stub 1 5/end 10",
            (14, 64_340),
            "unfit 7 32 32",
        ),
        (
            "t1s 2/count 2/node 0 0 7/node 1 1 7/stub 0 3/stub 1 4/end 10",
            (7, 64_270),
            "fit",
        ),
        (
            "t1s 2/count 2/node 0 0 7/stub 0 31/end 10",
            (0, 64_200),
            "fit",
        ),
        (
            "t1s 2/count 3/node 0 0 0/node 1 1 2/stub 1 3/node 2 2 5/end 8300",
            (6, 76_852),
            "fit",
        ),
        (
            "t1s 2/to 255/rise 1/node 0 0 255/node 1 1 0/stub 0 31/stub 1 31/end 10",
            (317, 149_074),
            "unfit 7 635 255",
        ),
    ];
    for (text, numbers, fitness) in rows {
        let script = read(alloc, text)?;
        assert_eq!(rt; (span(&script), bound(&script)), numbers, "{text}");
        assert_eq!(rt; fitness_of(alloc, &script)?.as_str(), fitness, "{text}");
    }
    Ok(())
}
