// The wires of a node, and their changes.
ghost use Rattle.std.specs.Prelude.{◌≡◌, ◌+◌, ◌%◌, ◌≤◌, ◌++◌, length};
ghost use Rattle.t1s_waveform.specs.Dumps.{Change, digit_of, item_text, items_text, scope_text, time_text, wire_text};
ghost use Rattle.t1s_waveform.specs.Wires.{code, drive_changes, fall_changes, named, scope_of, start_changes, wire_of};

use crate::texts::{number, text};
use t1s_base::Line;

/// The digit of a wire's value.
fn digit_of(value: bool) -> u8
    ensures { result ≡ digit_of value }
{
    if value { b'1' } else { b'0' }
}

/// The first octet of the identifier codes of a node.
fn letter_of(node: u32) -> u8
    ensures { result ≡ 65 + node % 32 }
{
    b'A' + (node % 32) as u8
}

/// Appends the change of the wire of that letter.
pub fn put_change(out: &mut Line, node: u32, letter: u8, value: bool)
    requires { length out.old ≤ 4000 }
    ensures value { out.new ≡ out.old ++ item_text (Change value (code node letter)) }
    ensures len { length out.new ≤ length out.old + 4 }
{
    text(out, &[digit_of(value), letter_of(node), letter, b'\n']);
}

/// Appends the changes of the wires that tell what a node drives.
pub fn put_drive(out: &mut Line, node: u32, beacon: bool, commit: bool, frame: bool)
    requires { length out.old ≤ 4000 }
    ensures value { out.new ≡ out.old ++ items_text (drive_changes node beacon commit frame) }
    ensures len { length out.new ≤ length out.old + 16 }
{
    let n = letter_of(node);
    let drives = digit_of(beacon || commit || frame);
    let beacon = digit_of(beacon);
    let commit = digit_of(commit);
    let frame = digit_of(frame);
    text(
        out,
        &[
            drives, n, b'a', b'\n', beacon, n, b'b', b'\n', commit, n, b'c', b'\n', frame, n, b'd',
            b'\n',
        ],
    );
}

/// Appends the changes by which the pulses of a node fall.
pub fn put_falls(out: &mut Line, node: u32)
    requires { length out.old ≤ 4000 }
    ensures value { out.new ≡ out.old ++ items_text (fall_changes node) }
    ensures len { length out.new ≤ length out.old + 24 }
{
    let n = letter_of(node);
    text(
        out,
        &[
            b'0', n, b'f', b'\n', b'0', n, b'g', b'\n', b'0', n, b'h', b'\n', b'0', n, b'i', b'\n',
            b'0', n, b'j', b'\n', b'0', n, b'k', b'\n',
        ],
    );
}

/// Appends the values that the wires of a node have at first.
pub fn put_start(out: &mut Line, node: u32)
    requires { length out.old ≤ 4000 }
    ensures value { out.new ≡ out.old ++ items_text (start_changes node) }
    ensures len { length out.new ≤ length out.old + 44 }
{
    let n = letter_of(node);
    text(
        out,
        &[
            b'0', n, b'a', b'\n', b'0', n, b'b', b'\n', b'0', n, b'c', b'\n', b'0', n, b'd', b'\n',
            b'0', n, b'e', b'\n', b'0', n, b'f', b'\n', b'0', n, b'g', b'\n', b'0', n, b'h', b'\n',
            b'0', n, b'i', b'\n', b'0', n, b'j', b'\n', b'0', n, b'k', b'\n',
        ],
    );
}

/// A line with a time.
pub fn put_time(out: &mut Line, tick: u64)
    ensures { out.new ≡ time_text tick }
{
    out.clear();
    text(out, b"#");
    number(out, tick);
    text(out, b"\n");
}

/// Appends the declaration of a wire. The number of the node ends its name, since not every reader looks at the scope.
pub(crate) fn put_wire(out: &mut Line, code: &[u8], name: &[u8], node: u32, bits: u64)
    requires room { length out.old ≤ 3900 }
    requires code { length code.now ≤ 2 }
    requires name { length name.now ≤ 20 }
    ensures value { out.new ≡ out.old ++ wire_text (named code.now name.now node bits) }
    ensures len { length out.new ≤ length out.old + 90 }
{
    text(out, b"$var wire ");
    number(out, bits);
    text(out, b" ");
    text(out, code);
    text(out, b" ");
    text(out, name);
    text(out, b"_");
    number(out, u64::from(node));
    text(out, b" $end\n");
}

/// Appends the declaration of the wire of a node that has this letter.
fn put_own_wire(out: &mut Line, node: u32, letter: u8, name: &[u8])
    requires room { length out.old ≤ 3900 }
    requires name { length name.now ≤ 20 }
    ensures value { out.new ≡ out.old ++ wire_text (wire_of node letter name.now) }
    ensures len { length out.new ≤ length out.old + 90 }
{
    put_wire(out, &[letter_of(node), letter], name, node, 1);
}

/// The declarations of the wires of a node.
pub fn put_scope(out: &mut Line, node: u32)
    ensures { out.new ≡ scope_text (scope_of node) }
{
    out.clear();
    text(out, b"$scope module node_");
    number(out, u64::from(node));
    text(out, b" $end\n");
    put_own_wire(out, node, b'a', b"drives");
    put_own_wire(out, node, b'b', b"beacon");
    put_own_wire(out, node, b'c', b"commit");
    put_own_wire(out, node, b'd', b"frame");
    put_own_wire(out, node, b'e', b"status");
    put_own_wire(out, node, b'f', b"taken");
    put_own_wire(out, node, b'g', b"refused");
    put_own_wire(out, node, b'h', b"good");
    put_own_wire(out, node, b'i', b"bad");
    put_own_wire(out, node, b'j', b"jam");
    put_own_wire(out, node, b'k', b"drop");
    text(out, b"$upscope $end\n");
}
