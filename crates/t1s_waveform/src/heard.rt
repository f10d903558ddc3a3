// The wire of what a node hears, and its changes.
ghost use Rattle.std.specs.Prelude.{◌≡◌, ◌+◌, ◌≤◌, ◌++◌, length, map};
ghost use Rattle.t1s_waveform.specs.Dumps.{digit_of, item_text, scope_text};
ghost use Rattle.t1s_waveform.specs.Wires.{heard_bits, heard_change, heard_scope};

use crate::texts::{number, text};
use crate::wires::put_wire;
use t1s_base::Line;

/// What a node hears.
#[derive(Clone, Copy)]
pub enum Heard {
    /// Nothing.
    Silence,
    /// A beacon.
    Beacon,
    /// A run of pieces.
    Run,
    /// A bare commit.
    Bare,
    /// The symbols of a torn burst.
    Torn,
    /// The blur of a torn burst.
    Blur,
}

/// The digits of the bits.
fn digits_of(what: Heard) -> &'static [u8]
    ensures value { result.now ≡ map digit_of (heard_bits what) }
    ensures len { length result.now ≤ 3 }
{
    match what {
        Heard::Silence => b"000",
        Heard::Beacon => b"001",
        Heard::Run => b"010",
        Heard::Bare => b"011",
        Heard::Torn => b"100",
        Heard::Blur => b"101",
    }
}

/// Appends the change by which a node hears this from now on.
pub fn put_heard(out: &mut Line, what: Heard)
    requires { length out.old ≤ 4000 }
    ensures value { out.new ≡ out.old ++ item_text (heard_change what) }
    ensures len { length out.new ≤ length out.old + 8 }
{
    text(out, b"b");
    text(out, digits_of(what));
    text(out, b" ");
    text(out, b"aa");
    text(out, b"\n");
}

/// The declaration of the wire of what a node hears, by its capture.
pub fn put_heard_scope(out: &mut Line, node: u32)
    ensures { out.new ≡ scope_text (heard_scope node) }
{
    out.clear();
    text(out, b"$scope module capture_");
    number(out, u64::from(node));
    text(out, b" $end\n");
    put_wire(out, b"aa", b"hears", node, 3);
    text(out, b"$upscope $end\n");
}
