use super::*;
use std::test::Fail;
use t1s_frame::Frame;

fn queued(number: u16, octet: u8) -> Result<Queued, Fail> {
    let frame = Frame::of_offer(&[octet; 60])?;
    Ok(Queued { number, frame })
}

#[test]
fn lent_head_stays_and_counts_in_the_room(rt: HostRuntime) -> Result<(), Fail> {
    let mut ring = FrameRing::with_room(rt.alloc(), 1)?;
    assert_eq!(rt; ring.len(), 0);
    ring.offer(queued(1, 0x11)?)?;
    let mut lent = ring.lend()?;
    let refused = lent.offer(queued(2, 0x22)?);
    assert_eq!(rt; refused.map_err(|back| back.number), Err(2));
    assert_eq!(rt; lent.head().number, 1);
    assert_eq!(rt; lent.head().frame.octets().first(), Some(&0x11));
    let mut ring = lent.keep();
    assert_eq!(rt; ring.len(), 1);
    let refused = ring.offer(queued(3, 0x33)?);
    assert_eq!(rt; refused.map_err(|back| back.number), Err(3));
    let ring = ring.lend()?.spend();
    assert_eq!(rt; ring.len(), 0);
    assert!(rt; ring.lend().is_err());

    let mut ring = FrameRing::with_room(rt.alloc(), 64)?;
    ring.offer(queued(4, 0x44)?)?;
    let mut lent = ring.lend()?;
    lent.offer(queued(5, 0x55)?)?;
    assert_eq!(rt; lent.head().number, 4);
    let lent = lent.spend().lend()?;
    assert_eq!(rt; lent.head().number, 5);
    Ok(())
}

#[test]
fn line_takes_97_nibbles_in_turn(rt: HostRuntime) -> Result<(), Fail> {
    let mut line = DelayLine::new(rt.alloc())?;
    assert_eq!(rt; line.pop(), None);
    for i in 0..97u8 {
        assert_eq!(rt; line.push(i % 16), Ok(()));
    }
    assert_eq!(rt; line.push(7), Err(7));
    assert_eq!(rt; line.len(), 97);
    for i in 0..97u8 {
        assert_eq!(rt; line.pop(), Some(i % 16));
    }
    assert_eq!(rt; line.pop(), None);
    assert_eq!(rt; line.push(15), Ok(()));
    line.clear();
    assert_eq!(rt; line.len(), 0);
    Ok(())
}
