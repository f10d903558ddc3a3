use crate::{
    Heard, put_change, put_drive, put_falls, put_heard, put_heard_scope, put_start, put_time,
};
use std::test::Fail;
use t1s_base::Line;

#[test]
fn each_line_is_as_written_by_hand(rt: HostRuntime) -> Result<(), Fail> {
    let mut changes = Line::new();
    put_drive(&mut changes, 0, false, true, false);
    put_change(&mut changes, 31, b'e', true);
    put_falls(&mut changes, 2);
    let wanted = b"1Aa\n0Ab\n1Ac\n0Ad\n1`e\n0Cf\n0Cg\n0Ch\n0Ci\n0Cj\n0Ck\n".as_slice();
    assert_eq!(rt; changes.as_slice() == wanted, true);
    let mut start = Line::new();
    put_start(&mut start, 1);
    let wanted = b"0Ba\n0Bb\n0Bc\n0Bd\n0Be\n0Bf\n0Bg\n0Bh\n0Bi\n0Bj\n0Bk\n".as_slice();
    assert_eq!(rt; start.as_slice() == wanted, true);
    let mut time = Line::new();
    put_time(&mut time, 8256);
    assert_eq!(rt; time.as_slice() == b"#8256\n".as_slice(), true);
    let mut heard = Line::new();
    put_heard(&mut heard, Heard::Run);
    put_heard(&mut heard, Heard::Torn);
    assert_eq!(rt; heard.as_slice() == b"b010 aa\nb100 aa\n".as_slice(), true);
    put_heard_scope(&mut heard, 12);
    let wanted =
        b"$scope module capture_12 $end\n$var wire 3 aa hears_12 $end\n$upscope $end\n".as_slice();
    assert_eq!(rt; heard.as_slice() == wanted, true);
    Ok(())
}
