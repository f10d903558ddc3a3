// Whole texts, and what they are read as.
ghost use Rattle.std.specs.Prelude.{◌≤◌};

use crate::Generator;
use std::alloc::{AllocError, Global};
use std::process::Abort;
use std::test::Fail;
use t1s_base::Line;
use t1s_script::{fit, read_script, span};

/// All octets of a text.
fn text_of(alloc: Global, seed: u64, nodes: u8, frames: u16) -> Result<Vec<u8>, AllocError>
    requires seed { seed ≤ 4294967295 }
    requires some { 1 ≤ nodes }
    requires nodes { nodes ≤ 16 }
    requires frames { frames ≤ 400 }
{
    let mut generator = Generator::new(seed, nodes, frames);
    let mut line = Line::new();
    let mut text = Vec::new(alloc);
    for _ in 0..1000 {
        if generator.line(&mut line) {
            text.extend_from_slice(line.as_slice())?;
        }
    }
    Ok(text)
}

/// Sees that the text is that one.
fn check_text(
    rt: &impl Abort,
    alloc: Global,
    numbers: (u64, u8, u16),
    text: &[u8],
) -> Result<(), AllocError>
    requires seed { numbers.0 ≤ 4294967295 }
    requires some { 1 ≤ numbers.1 }
    requires nodes { numbers.1 ≤ 16 }
    requires frames { numbers.2 ≤ 400 }
{
    let (seed, nodes, frames) = numbers;
    let made = text_of(alloc, seed, nodes, frames)?;
    assert_eq!(rt; made.as_slice(), text);
    Ok(())
}

// The words were computed from the algorithm as it was published, PCG XSH RR 64/32.
#[test]
fn small_texts_are_these(rt: HostRuntime) -> Result<(), Fail> {
    let alloc = rt.alloc();
    check_text(
        &rt,
        alloc,
        (1, 1, 0),
        b"t1s 1\ncount 1\nseed 1\nnode 0 0 6\nend 209000\n",
    )?;
    let text = b"t1s 1\ncount 2\nseed 7\nnode 0 0 1\nnode 1 1 6\nfill 10442 1 162 f6\n\
fill 10745 1 136 70\nfill 13078 1 210 1c\nend 213078\n";
    check_text(&rt, alloc, (7, 2, 3), text)?;
    Ok(())
}

#[test]
fn the_largest_text_is_a_fit_script(rt: HostRuntime) -> Result<(), Fail> {
    let text = text_of(rt.alloc(), 1, 16, 400)?;
    assert_eq!(rt; text.len(), 8564);
    assert_eq!(rt;
        text.iter().filter(|octet| **octet == b'\n').count(),
        3 + 16 + 400 + 1
    );
    let script = read_script(rt.alloc(), text.as_slice())?;
    assert_eq!(rt; (script.count, script.seed, script.end), (16, 1, 991_187));
    assert_eq!(rt;
        (script.nodes.as_slice().len(), script.acts.as_slice().len()),
        (16, 400)
    );
    assert!(rt; fit(&script).is_ok());
    assert!(rt; span(&script) <= 12);
    Ok(())
}
