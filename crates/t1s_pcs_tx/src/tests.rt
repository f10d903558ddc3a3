use super::*;
use std::alloc::Global;
use std::test::Fail;
use t1s_frame::Frame;
use t1s_grammar::{PieceText, put_piece};
use t1s_ring::DelayLine;
use t1s_scramble::Scrambler;
use t1s_symbols::{Quarter, Symbol, group_of};

/// How many symbols J go out before the first nibble is there.
const COMMITTED: u16 = 2;

/// What is told at the end of a piece: whether the frame has ended, and whether it is bad as T and as the closer is
/// chosen.
#[derive(Clone, Copy)]
struct Ending {
    ended: bool,
    bad_at_end: bool,
    bad_at_closer: bool,
}

/// What is told in the ticks of a symbol, counted from the first, for a frame of so many nibbles.
fn told(symbol: u16, count: u16, ending: Ending) -> TxIn {
    let end = COMMITTED.saturating_add(count);
    TxIn {
        cmd: TxCmd::Commit,
        ended: ending.ended && symbol >= end,
        bad: if symbol > end {
            ending.bad_at_closer
        } else {
            ending.bad_at_end && symbol == end
        },
    }
}

/// The groups that a new transmitter drives for a frame whose nibbles come one a symbol, and its last report.
fn sent(alloc: Global, frame: &Frame, ending: Ending) -> Result<(Vec<u8>, TxReport), Fail> {
    let mut line = DelayLine::new(alloc)?;
    let mut groups = Vec::new(alloc);
    let mut tx = PcsTx::start();
    let count = frame.nibble_count();
    for symbol in 0..COMMITTED.saturating_add(count).saturating_add(2) {
        if symbol >= COMMITTED
            && let Some(nibble) = frame.nibble_at(symbol - COMMITTED)
        {
            let _ = line.push(nibble);
        }
        for _ in 0..4 {
            let (next, driven) = tx.step(told(symbol, count, ending), &mut line);
            tx = next;
            if let Some(quarter) = driven
                && quarter.part == 3
            {
                groups.push(group_of(quarter.sym))?;
            }
        }
    }
    Ok((groups, tx.report()))
}

#[test]
fn frame_is_sent_as_the_piece_that_carries_it(rt: HostRuntime) -> Result<(), Fail> {
    let frame = Frame::of_offer(&[0; 60])?;
    let cases = [
        (true, false, false, true),
        (true, true, false, false),
        (true, false, true, false),
        (false, false, false, false),
    ];
    for (ended, bad_at_end, bad_at_closer, good) in cases {
        let ending = Ending {
            ended,
            bad_at_end,
            bad_at_closer,
        };
        let (groups, report) = sent(rt.alloc(), &frame, ending)?;
        let mut text = PieceText::new();
        put_piece(&mut text, 4, &mut Scrambler::new(), &frame, good)?;
        assert_eq!(rt; groups.as_slice(), text.as_slice());
        assert!(rt;
            groups.starts_with(&[0x18, 0x18, 0x18, 0x18, 0x04, 0x04, 0x0B, 0x0B, 0x0B, 0x09])
        );
        assert_eq!(rt; groups.len(), 148);
        assert_eq!(rt; report, TxReport::Closed { good });
    }
    Ok(())
}

#[test]
fn beacon_is_five_symbols_and_an_empty_line_is_held(rt: HostRuntime) -> Result<(), Fail> {
    let mut line = DelayLine::new(rt.alloc())?;
    let mut tx = PcsTx::start();
    assert_eq!(rt; tx.report(), TxReport::Quiet);
    let cases = [
        (TxCmd::Beacon, 20, Some(Symbol::N), TxReport::Leading),
        (TxCmd::Commit, 8, Some(Symbol::J), TxReport::Leading),
        (TxCmd::None, 3, None, TxReport::Quiet),
    ];
    for (cmd, ticks, sym, report) in cases {
        let inp = TxIn {
            cmd,
            ended: false,
            bad: false,
        };
        for tick in 0..ticks {
            let (next, driven) = tx.step(inp, &mut line);
            tx = next;
            assert_eq!(rt;
                driven,
                sym.map(|sym| Quarter {
                    sym,
                    part: tick % 4
                })
            );
            assert_eq!(rt; tx.report(), report);
        }
    }
    Ok(())
}
