// The lines, where their numbers are known.
ghost use Rattle.std.specs.Prelude.{◌≡◌, ◌+◌, ◌≤◌, ◌<◌, [], ◌∷◌, ◌++◌, length, codes, decimal, drop};
ghost use Rattle.hex.specs.Hex.{encode_lower};
ghost use Rattle.t1s_generator.specs.Generated.{line, head_lines};

use crate::fields::{field, hex_field, number, text};
use t1s_base::Line;

/// Appends one of the first three lines.
pub(crate) fn head_text(out: &mut Line, place: u8, seed: u64, nodes: u8)
    requires empty { out.old ≡ [] }
    requires place { place < 3 }
    ensures { drop place (head_lines seed nodes) ≡ out.new ∷ drop (place + 1) (head_lines seed nodes) }
{
    match place {
        0 => text(out, b"t1s 1"),
        1 => {
            text(out, b"count");
            field(out, u64::from(nodes));
        }
        _ => {
            text(out, b"seed");
            field(out, seed);
        }
    }
    text(out, b"\n");
}

/// Appends the line of a node: its number is also its ID.
pub(crate) fn node_text(out: &mut Line, no: u64, place: u64)
    requires { out.old ≡ [] }
    ensures { out.new ≡ line (codes "node" ∷ decimal no ∷ decimal no ∷ decimal place ∷ []) }
{
    text(out, b"node");
    field(out, no);
    field(out, no);
    field(out, place);
    text(out, b"\n");
}

/// Appends the line of a frame.
pub(crate) fn fill_text(out: &mut Line, tick: u64, no: u64, len: u64, octet: u8)
    requires { out.old ≡ [] }
    ensures { out.new ≡ line (codes "fill" ∷ decimal tick ∷ decimal no ∷ decimal len ∷ encode_lower (octet ∷ []) ∷ []) }
{
    text(out, b"fill");
    field(out, tick);
    field(out, no);
    field(out, len);
    hex_field(out, octet);
    text(out, b"\n");
}

/// Appends the last line.
pub(crate) fn end_text(out: &mut Line, tick: u64)
    requires { out.old ≡ [] }
    ensures { out.new ≡ line (codes "end" ∷ decimal tick ∷ []) }
{
    text(out, b"end");
    field(out, tick);
    text(out, b"\n");
}
