use crate::{
    ActList, NodeLine, NodeList, Script, ScriptFault, Unfit, bound, fit, read_script, span,
};
use std::alloc::{AllocError, Global};
use std::process::Abort;
use std::test::Fail;
use t1s_base::Ids;

/// The script that a text is short for: `/` stands for a line feed, and `B3` for the first line and three nodes.
fn script_text(alloc: Global, text: &str) -> Result<String, AllocError> {
    let three = text.replace(
        alloc,
        "B3",
        "t1s 1/count 3/node 0 0 0/node 1 1 2/node 2 2 5",
    )?;
    three.as_str().replace(alloc, "/", "\n")
}

/// The script that a text is short for, read.
pub fn read(alloc: Global, text: &str) -> Result<Script, ScriptFault> {
    let script = script_text(alloc, text).map_err(ScriptFault::Memory)?;
    read_script(alloc, script.as_bytes())
}

/// The line at which a script is refused, and the reason. Where it is read there is no text.
fn refusal_of(alloc: Global, text: &str) -> Result<String, AllocError> {
    match read(alloc, text) {
        Ok(_) => Ok(String::new(alloc)),
        Err(ScriptFault::Refused(refusal)) => {
            format!(in alloc; "{} {:?}", refusal.line, refusal.reason)
        }
        Err(ScriptFault::Memory(error)) => Err(error),
    }
}

/// Sees that the script of each row is refused so, or is read.
pub fn check_rows(rt: &impl Abort, alloc: Global, rows: &[(&str, &str)]) -> Result<(), AllocError> {
    for row in rows {
        let (text, want) = *row;
        let refusal = refusal_of(alloc, text)?;
        assert_eq!(rt; refusal.as_str(), want, "{text}");
    }
    Ok(())
}

#[test]
fn lines_are_refused_for_their_first_reason(rt: HostRuntime) -> Result<(), Fail> {
    let rows = [
        ("", "1 FirstLine"),
        ("t1s 1 /end 9/", "1 FirstLine"),
        ("t1s 1\r/end 9/", "1 FirstLine"),
        ("#/t1s 1/node 0 0 0/end 9/", "1 FirstLine"),
        ("t1s 1/node 0 0 0/end 9/end 9/", "4 AfterEnd"),
        ("t1s 1/node 0 0 0/end 9/#//", "5 AfterEnd"),
        ("t1s 1/node 0 0 0/end 9/nod", "4 AfterEnd"),
        ("t1s 1/nod 0 0 0/", "2 UnknownWord"),
        ("t1s 1//end 9/", "2 UnknownWord"),
        ("t1s 1/ count 3/", "2 UnknownWord"),
        ("t1s 1/count 3 /", "2 Form"),
        ("t1s 1/node 0 0  0/", "2 Form"),
        ("t1s 1/late 0/", "2 Form"),
        ("t1s 1/to 032/", "2 Number"),
        ("t1s 1/count 3\r/", "2 Number"),
        ("t1s 1/node 16 x 0/", "2 Number"),
        ("t1s 1/to 15/", "2 OutOfRange"),
        ("t1s 1/#/to 40/to 256/", "4 OutOfRange"),
        ("t1s 1/late 16 0/", "2 OutOfRange"),
        ("t1s 1/seed 4294967296/", "2 OutOfRange"),
        ("t1s 1/to 40/to 40/", "3 Twice"),
        ("t1s 1/seed 1/room 8/seed 1/", "4 Twice"),
        ("t1s 1/node 3 0 0/node 3 1 1/", "3 Twice"),
        ("t1s 1/node 3 0 0/late 3 0/late 3 0/", "4 Twice"),
        ("B3/late 9 5/", "6 UnknownNode"),
        ("t1s 1/late 0 5/node 0 0 0/end 9/", "2 UnknownNode"),
        ("t1s 1/end 10/", "2 NoNode"),
        ("t1s 1", "2 NoEnd"),
        ("t1s 1/to 40/", "3 NoEnd"),
        ("t1s 1/node 0 0 0", "3 NoEnd"),
        ("B3/", "6 NoEnd"),
    ];
    Ok(check_rows(&rt, rt.alloc(), &rows)?)
}

#[test]
fn timers_and_noise_are_refused_for_their_first_reason(rt: HostRuntime) -> Result<(), Fail> {
    let rows = [
        ("B3/tonode 1/", "6 Form"),
        ("B3/tonode 16 x/", "6 Number"),
        ("B3/tonode 9 15/", "6 OutOfRange"),
        ("B3/tonode 1 256/", "6 OutOfRange"),
        ("B3/tonode 16 40/", "6 OutOfRange"),
        ("B3/tonode 1 40/tonode 1 41/", "7 Twice"),
        ("B3/tonode 9 40/", "6 UnknownNode"),
        ("t1s 1/tonode 0 40/node 0 0 0/end 9/", "2 UnknownNode"),
        ("B3/tonode 1 16/tonode 2 255/end 9/", ""),
        ("B3/noise 9/", "6 Form"),
        ("B3/noise 9 8 /", "6 Form"),
        ("B3/noise 9 x/", "6 Number"),
        ("B3/noise 9 9/", "6 OutOfRange"),
        ("B3/noise 9 8/", "6 OutOfRange"),
        ("B3/noise 5 2000001/", "6 OutOfRange"),
        ("B3/fill 5 1 60 00/noise 4 3/", "7 OutOfRange"),
        ("B3/fill 5 1 60 00/noise 4 9/", "7 Order"),
        ("B3/noise 5 9/fill 4 1 60 00/", "7 Order"),
        ("B3/noise 5 9/end 5/", "7 Order"),
        ("t1s 1/noise 5 9/end 6/", "3 NoNode"),
        ("t1s 1/noise 0 1/node 0 0 0/end 1/", ""),
        ("B3/noise 5 2000000/noise 5 6/fill 7 1 60 00/end 8/", ""),
    ];
    Ok(check_rows(&rt, rt.alloc(), &rows)?)
}

#[test]
fn longer_texts_are_refused_as_a_whole(rt: HostRuntime) -> Result<(), Fail> {
    let alloc = rt.alloc();
    let long = "x".repeat(alloc, 1_048_577)?;
    let whole = "x".repeat(alloc, 1_048_576)?;
    let rows = [
        (long.as_str(), "0 TooLong"),
        (whole.as_str(), "1 FirstLine"),
    ];
    Ok(check_rows(&rt, alloc, &rows)?)
}

/// The IDs of a node as a text, in the order of its list.
fn ids_of(alloc: Global, ids: &Ids) -> Result<String, AllocError> {
    let mut text = String::new(alloc);
    for place in 0..4 {
        if let Some(id) = ids.get(place) {
            let sign = if place == 0 { "" } else { "+" };
            let one = format!(in alloc; "{sign}{id}")?;
            text.push_str(one.as_str())?;
        }
    }
    Ok(text)
}

/// The numbers of a script as a text: its settings, its seed and its end, and those of each node.
pub fn numbers_of(alloc: Global, script: &Script) -> Result<String, AllocError> {
    let mut text = format!(in alloc;
        "{} {} {} {} {} {} {} {}",
        script.count,
        script.to,
        script.rise,
        script.fall,
        script.burst,
        script.room,
        script.seed,
        script.end
    )?;
    for node in script.nodes.as_slice() {
        let numbers = format!(in alloc;
            ", {} {} {} {} {} {}",
            node.no,
            ids_of(alloc, &node.ids)?,
            node.place,
            node.stub,
            node.to,
            node.start
        )?;
        text.push_str(numbers.as_str())?;
    }
    Ok(text)
}

#[test]
fn settings_hold_for_lines_above_them(rt: HostRuntime) -> Result<(), Fail> {
    let alloc = rt.alloc();
    let rows = [
        (
            "t1s 1/node 3 1 2/end 2000000",
            "8 32 4 4 0 8 1 2000000, 3 1 2 0 32 0",
        ),
        (
            "t1s 1/node 15 255 255/late 15 2000000/# a note/node 0 0 0/node 1 7 0/tonode 1 20/seed 4294967295/\
room 64/burst 255/fall 16/rise 16/to 255/count 254/end 1/# the end/",
            "254 255 16 16 255 64 4294967295 1, 0 0 0 0 255 0, 1 7 0 0 20 0, 15 255 255 0 255 2000000",
        ),
    ];
    for (text, want) in rows {
        let numbers = numbers_of(alloc, &read(alloc, text)?)?;
        assert_eq!(rt; numbers.as_str(), want);
    }
    Ok(())
}

/// Whether a script is fit, as a text: the premise that isn't met and its two values.
pub fn fitness_of(alloc: Global, script: &Script) -> Result<String, AllocError> {
    match fit(script) {
        Ok(()) => String::from_str(alloc, "fit"),
        Err(
            Unfit {
                premise,
                left,
                right,
            },
        ) => format!(in alloc; "unfit {premise} {left} {right}"),
    }
}

#[test]
fn the_first_unmet_premise_is_told(rt: HostRuntime) -> Result<(), Fail> {
    let alloc = rt.alloc();
    let rows = [
        ("t1s 1/count 2/node 0 0 0/node 1 1 9/end 10", "fit"),
        ("t1s 1/count 2/node 0 0 9/node 1 0 9/end 10", "unfit 1 2 1"),
        ("t1s 1/count 2/node 0 1 9/node 1 1 9/end 10", "unfit 1 0 1"),
        ("t1s 1/count 2/node 0 0 9/node 1 2 9/end 10", "unfit 3 2 2"),
        ("B3/node 3 1 9/end 10", "unfit 2 3 1"),
        ("B3/to 40/tonode 2 40/end 10", "fit"),
        ("B3/tonode 2 40/end 10", "unfit 4 40 32"),
        (
            "B3/tonode 2 40/tonode 1 20/noise 5 9/end 10",
            "unfit 4 20 32",
        ),
        ("B3/noise 5 9/end 10", "unfit 5 5 9"),
        (
            "B3/burst 16/fill 3 0 60 00/noise 4 2000000/noise 5 6/end 10",
            "unfit 5 4 2000000",
        ),
        ("B3/burst 15/end 10", "fit"),
        ("B3/burst 16/end 10", "unfit 6 16 15"),
        ("t1s 1/count 2/rise 5/node 0 0 0/node 1 1 13/end 10", "fit"),
        (
            "t1s 1/count 2/node 0 0 0/node 1 1 14/end 10",
            "unfit 7 32 32",
        ),
    ];
    for (text, want) in rows {
        let fitness = fitness_of(alloc, &read(alloc, text)?)?;
        assert_eq!(rt; fitness.as_str(), want, "{text}");
    }
    Ok(())
}

#[test]
fn the_span_and_the_bound_are_told(rt: HostRuntime) -> Result<(), Fail> {
    let alloc = rt.alloc();
    let rows = [
        (
            "t1s 1/count 2/rise 5/node 0 0 0/node 1 1 13/end 10",
            (13, 64_335),
        ),
        ("t1s 1/count 2/node 0 0 9/node 1 1 9/end 10", (0, 64_200)),
        ("t1s 1/count 2/node 0 0 9/end 10", (0, 64_200)),
        ("B3/end 10", (5, 76_840)),
    ];
    for (text, want) in rows {
        let script = read(alloc, text)?;
        assert_eq!(rt; (span(&script), bound(&script)), want, "{text}");
    }
    Ok(())
}

/// A script whose nodes have their own timers, with the greatest numbers everywhere else.
fn wide_script(alloc: Global) -> Result<Script, AllocError> {
    let node = |no, id, place, to| NodeLine {
        no,
        ids: Ids::one(id),
        place,
        stub: 255,
        to,
        start: 0,
        draws: None,
    };
    let nodes = Vec::from_array(alloc, [node(0, 0, 0, 255), node(1, 9, 255, 40)])?;
    Ok(Script {
        count: 255,
        to: 255,
        rise: 255,
        fall: 255,
        burst: 255,
        room: 255,
        seed: u64::MAX,
        nodes: NodeList::of(nodes),
        acts: ActList::of(Vec::new(alloc)),
        end: u64::MAX,
    })
}

#[test]
fn the_bound_has_no_condition(rt: HostRuntime) -> Result<(), Fail> {
    let alloc = rt.alloc();
    let script = wide_script(alloc)?;
    let fitness = fitness_of(alloc, &script)?;
    assert_eq!(rt; fitness.as_str(), "unfit 4 40 255");
    assert_eq!(rt; (span(&script), bound(&script)), (765, 818_572_090));
    Ok(())
}
