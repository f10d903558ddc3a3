use crate::tests::{check_rows, fitness_of, numbers_of, read};
use crate::{bound, span};
use std::test::Fail;

#[test]
fn further_ids_are_refused_for_their_first_reason(rt: HostRuntime) -> Result<(), Fail> {
    let rows = [
        ("t1s 4/node 0 0 0/end 10", "1 FirstLine"),
        ("B3/also 0 3/end 10", "6 UnknownWord"),
        ("t1s 2/node 0 0 0/also 0 3/end 10", "3 UnknownWord"),
        ("t1s 3/node 0 0 0/also 0/end 10", "3 Form"),
        ("t1s 3/node 0 0 0/also 0 x/end 10", "3 Number"),
        ("t1s 3/node 0 0 0/also 0 255/end 10", "3 OutOfRange"),
        ("t1s 3/node 0 0 0/also 32 1/end 10", "3 OutOfRange"),
        (
            "t1s 3/count 3/node 0 0 0/also 0 0/node 1 1 2/end 10",
            "4 Twice",
        ),
        ("t1s 3/node 0 0 0/also 0 1/also 0 2/also 0 1", "5 Twice"),
        (
            "t1s 3/node 0 0 0/also 0 1/also 0 2/also 0 3/also 0 3",
            "6 Twice",
        ),
        ("t1s 3/node 0 0 0/also 31 1/end 10", "3 UnknownNode"),
        ("t1s 3/also 0 1/node 0 0 0/end 10", "2 UnknownNode"),
        (
            "t1s 3/node 0 0 0/also 0 1/also 0 2/also 0 3/also 0 4",
            "6 TooMany",
        ),
        ("t1s 3/node 0 0 0/end 10/also 0 1", "4 AfterEnd"),
        (
            "t1s 3/node 0 0 0/node 1 1 0/also 0 1/also 1 0/also 1 2/also 0 2/end 10",
            "",
        ),
        ("t1s 3/node 0 255 0/also 0 254/end 10", ""),
    ];
    Ok(check_rows(&rt, rt.alloc(), &rows)?)
}

#[test]
fn the_third_version_has_more_nodes_and_longer_runs(rt: HostRuntime) -> Result<(), Fail> {
    let rows = [
        ("t1s 3/node 32 0 0/end 10", "2 OutOfRange"),
        ("t1s 3/node 0 0 0/late 0 20000001/", "3 OutOfRange"),
        ("t1s 3/node 0 0 0/fill 20000001 0 60 00/", "3 OutOfRange"),
        ("t1s 3/node 0 0 0/noise 5 20000001/", "3 OutOfRange"),
        ("t1s 3/node 0 0 0/end 20000001", "3 OutOfRange"),
        ("t1s 2/node 16 0 0/end 10", "2 OutOfRange"),
        ("t1s 2/node 0 0 0/late 0 2000001/", "3 OutOfRange"),
        ("t1s 2/node 0 0 0/noise 5 2000001/", "3 OutOfRange"),
        ("t1s 2/node 0 0 0/end 20000000", "3 OutOfRange"),
        ("t1s 1/node 0 0 0/fill 20000000 0 60 00/", "3 OutOfRange"),
        ("t1s 1/node 0 0 0/end 20000000", "3 OutOfRange"),
        (
            "t1s 3/node 31 0 0/late 31 20000000/tonode 31 16/draw 31 7/stub 31 31/noise 9 20000000/\
fill 19999999 31 60 00/end 20000000",
            "",
        ),
    ];
    Ok(check_rows(&rt, rt.alloc(), &rows)?)
}

#[test]
fn the_ids_of_a_node_stand_in_the_order_of_their_lines(rt: HostRuntime) -> Result<(), Fail> {
    let alloc = rt.alloc();
    let script = read(
        alloc,
        "t1s 3/node 31 5 2/also 31 4/node 0 0 0/also 31 254/also 0 7/also 31 0/end 20000000",
    )?;
    let numbers = numbers_of(alloc, &script)?;
    assert_eq!(rt;
        numbers.as_str(),
        "8 32 4 4 0 8 1 20000000, 0 0+7 0 0 32 0, 31 5+4+254+0 2 0 32 0"
    );
    Ok(())
}

#[test]
fn fit_looks_at_all_ids(rt: HostRuntime) -> Result<(), Fail> {
    let alloc = rt.alloc();
    let rows = [
        ("t1s 3/count 3/node 0 0 0/also 0 2/node 1 1 2/end 10", "fit"),
        (
            "t1s 3/count 3/node 0 0 0/also 0 1/node 1 1 2/end 10",
            "unfit 2 1 0",
        ),
        ("t1s 3/count 3/node 0 2 0/also 0 0/node 1 1 2/end 10", "fit"),
        (
            "t1s 3/count 3/node 0 0 0/node 1 1 2/also 1 0/end 10",
            "unfit 1 2 1",
        ),
        (
            "t1s 3/count 6/node 2 2 0/also 2 5/also 2 1/node 0 0 0/also 0 5/node 1 1 0/end 10",
            "unfit 2 2 0",
        ),
        (
            "t1s 3/count 6/node 2 2 0/also 2 1/also 2 5/node 0 0 0/also 0 5/node 1 1 0/end 10",
            "unfit 2 2 1",
        ),
        (
            "t1s 3/count 3/node 0 0 0/also 0 7/also 0 9/node 1 8 2/end 10",
            "unfit 3 7 3",
        ),
        (
            "t1s 3/count 4/node 0 0 0/node 1 1 2/also 1 2/also 1 4/node 2 3 0/end 10",
            "unfit 3 4 4",
        ),
    ];
    for (text, want) in rows {
        let fitness = fitness_of(alloc, &read(alloc, text)?)?;
        assert_eq!(rt; fitness.as_str(), want, "{text}");
    }
    let script = read(alloc, "t1s 3/count 3/node 0 0 0/also 0 2/node 1 1 2/end 10")?;
    assert_eq!(rt; (span(&script), bound(&script)), (2, 76_804));
    Ok(())
}
