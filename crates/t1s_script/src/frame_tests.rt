use crate::tests::{check_rows, read};
use crate::{Act, Deed};
use std::alloc::{AllocError, Global};
use std::process::Abort;
use std::test::Fail;

#[test]
fn frames_are_refused_for_their_first_reason(rt: HostRuntime) -> Result<(), Fail> {
    let rows = [
        ("B3/end 9/fill 5 x/", "7 AfterEnd"),
        ("B3/fill x 16 60/", "6 Form"),
        ("B3/offer 5 1/", "6 Form"),
        ("B3/offer 2000001 x 0g/", "6 Number"),
        ("B3/fill 2000001 1 x 00/", "6 Number"),
        ("B3/fill 5 1 10000000000 00/", "6 Number"),
        ("B3/draw 16 x/", "6 Number"),
        ("B3/offer 2000001 1 0g/", "6 OutOfRange"),
        ("B3/fill 5 16 13 0g/", "6 OutOfRange"),
        ("B3/draw 9 1024/", "6 OutOfRange"),
        ("B3/offer 5 1 0g/", "6 Hex"),
        ("B3/offer 5 9 0/", "6 Hex"),
        ("B3/fill 5 9 13 0g/", "6 Hex"),
        ("B3/fill 5 1 60 0/", "6 Hex"),
        ("B3/fill 5 1 60 000/", "6 Hex"),
        ("B3/fill 5 1 60 0000/", "6 Hex"),
        ("B3/fill 5 1 60 /", "6 Hex"),
        ("B3/fill 5 1 60 -1/", "6 Hex"),
        ("B3/offer 5 1 /", "6 FrameSize"),
        ("B3/fill 5 1 13 00/", "6 FrameSize"),
        ("B3/fill 5 9 1519 00/", "6 FrameSize"),
        ("B3/fill 5 1 9999999999 00/", "6 FrameSize"),
        ("B3/fill 5 1 60 00/fill 4 1 13 00/", "7 FrameSize"),
        ("B3/fill 5 9 60 00/", "6 UnknownNode"),
        ("B3/fill 5 1 60 00/fill 4 9 60 00/", "7 UnknownNode"),
        ("t1s 1/draw 0 1/node 0 0 0/end 9/", "2 UnknownNode"),
        ("B3/fill 5 1 60 00/fill 4 1 60 00/", "7 Order"),
        (
            "B3/fill 7 1 60 00/fill 8 2 60 00/fill 7 2 60 00/",
            "8 Order",
        ),
        ("B3/fill 7 1 60 00/end 7/", "7 Order"),
        ("B3/fill 7 1 60 00/fill 7 2 60 00/end 8/", ""),
    ];
    Ok(check_rows(&rt, rt.alloc(), &rows)?)
}

/// Sees how an offer of so many octets, and of the hex digits behind them, is refused, and a fill of as many.
fn check_octets(
    rt: &impl Abort,
    alloc: Global,
    octets: usize,
    last: &str,
    want: &str,
) -> Result<(), AllocError> {
    let digits = "5a".repeat(alloc, octets)?;
    let offer = format!(in alloc; "B3/offer 5 1 {digits}{last}/end 9/")?;
    let fill = format!(in alloc; "B3/fill 5 1 {octets} 5a{last}/end 9/")?;
    check_rows(rt, alloc, &[(offer.as_str(), want), (fill.as_str(), want)])
}

#[test]
fn frames_have_14_to_1518_octets_in_hex(rt: HostRuntime) -> Result<(), Fail> {
    let alloc = rt.alloc();
    for (octets, want) in [
        (0, "6 FrameSize"),
        (13, "6 FrameSize"),
        (14, ""),
        (60, ""),
        (1518, ""),
        (1519, "6 FrameSize"),
        (400_000, "6 FrameSize"),
    ] {
        check_octets(&rt, alloc, octets, "", want)?;
        for last in ["5", "g", "0g", "g0", "0G", "@0", "0`", "0:"] {
            check_octets(&rt, alloc, octets, last, "6 Hex")?;
        }
    }
    Ok(())
}

/// An act as a text: its tick, and the end of its noise, or the number and the node of its offer, the count of its
/// octets and the first of them.
fn act_text(alloc: Global, act: &Act) -> Result<String, AllocError> {
    match &act.deed {
        Deed::Offer {
            number,
            node,
            frame,
        } => {
            let octets = frame.octets();
            format!(in alloc;
                "{} offer {number} {node} {} {:?}",
                act.tick,
                octets.len(),
                octets.get(..14)
            )
        }
        Deed::Noise { until } => format!(in alloc; "{} noise {until}", act.tick),
    }
}

#[test]
fn a_script_has_at_most_4096_timed_lines(rt: HostRuntime) -> Result<(), Fail> {
    let alloc = rt.alloc();
    let timed = "/noise 7 9/fill 7 1 60 00".repeat(alloc, 2048)?;
    for (lines, want) in [
        ("/end 8", ""),
        ("/fill 7 1 60 00", "4102 TooMany"),
        ("/noise 7 9", "4102 TooMany"),
        ("/noise 6 9", "4102 Order"),
        ("/fill 7 9 60 00", "4102 UnknownNode"),
    ] {
        let text = format!(in alloc; "B3{timed}{lines}")?;
        check_rows(&rt, alloc, &[(text.as_str(), want)])?;
    }
    Ok(())
}

#[test]
fn acts_stand_in_line_order_and_offers_are_numbered(rt: HostRuntime) -> Result<(), Fail> {
    let alloc = rt.alloc();
    let script = read(
        alloc,
        "B3/noise 0 2000000/fill 0 1 60 fE/#/noise 5 6/offer 5 2 00112233445566778899AabBCcDd/fill 1999999 0 1518 00/end 2000000/",
    )?;
    let mut texts = String::new(alloc);
    for act in script.acts.as_slice() {
        texts.push_str(act_text(alloc, act)?.as_str())?;
        texts.push_str("/")?;
    }
    assert_eq!(rt;
        texts.as_str(),
        "0 noise 2000000/\
0 offer 1 1 64 Some([254, 254, 254, 254, 254, 254, 254, 254, 254, 254, 254, 254, 254, 254])/\
5 noise 6/\
5 offer 2 2 64 Some([0, 17, 34, 51, 68, 85, 102, 119, 136, 153, 170, 187, 204, 221])/\
1999999 offer 3 0 1522 Some([0, 0, 0, 0, 0, 0, 0, 0, 0, 0, 0, 0, 0, 0])/"
    );
    Ok(())
}

#[test]
fn a_node_has_at_most_64_draws(rt: HostRuntime) -> Result<(), Fail> {
    let alloc = rt.alloc();
    let draws = "/draw 2 1023".repeat(alloc, 63)?;
    let more = format!(in alloc; "B3/draw 2 7{draws}/draw 2 0")?;
    check_rows(&rt, alloc, &[(more.as_str(), "70 TooMany")])?;
    let whole = format!(in alloc; "B3/draw 2 7{draws}/draw 1 0/end 8")?;
    let script = read(alloc, whole.as_str())?;
    let mut texts = String::new(alloc);
    for node in script.nodes.as_slice() {
        let draws = node.draws.as_ref().map(|draws| draws.as_slice());
        let text = format!(in alloc;
            "{:?} {:?}/",
            draws.map(|draws| draws.len()),
            draws.and_then(|draws| draws.first())
        )?;
        texts.push_str(text.as_str())?;
    }
    assert_eq!(rt;
        texts.as_str(),
        "None None/Some(1) Some(0)/Some(64) Some(7)/"
    );
    Ok(())
}
