// What lines are put together from.
ghost use Rattle.std.specs.Prelude.{◌≡◌, ◌+◌, ◌≤◌, ◌<◌, [], ◌∷◌, ◌++◌, length, decimal};
ghost use Rattle.hex.specs.Hex.{encode_lower};

use hex::encode_to_slice;
use t1s_base::{Line, put_number, put_text};

/// Appends a text that fits.
pub(crate) fn text(out: &mut Line, text: &[u8])
    requires { length out.old + length text.now ≤ 4096 }
    ensures value { out.new ≡ out.old ++ text.now }
    ensures len { length out.new ≡ length out.old + length text.now }
{
    let _ = put_text(out, text);
}

/// Appends a number, where twenty digits fit.
pub(crate) fn number(out: &mut Line, n: u64)
    requires { length out.old + 20 ≤ 4096 }
    ensures value { out.new ≡ out.old ++ decimal n }
    ensures len { length out.new ≤ length out.old + 20 }
{
    let _ = put_number(out, n);
}

/// Appends a space and a number, where both fit.
pub(crate) fn field(out: &mut Line, n: u64)
    requires { length out.old + 21 ≤ 4096 }
    ensures value { out.new ≡ out.old ++ 32 ∷ decimal n }
    ensures len { length out.new ≤ length out.old + 21 }
{
    text(out, b" ");
    number(out, n);
}

/// The two hex digits of an octet, in lower case.
fn hex_digits(octet: u8) -> [u8; 2]
    ensures { result ≡ encode_lower (octet ∷ []) }
{
    let mut digits = [0; 2];
    let _ = encode_to_slice([octet], &mut digits);
    digits
}

/// Appends a space and the two hex digits of an octet, in lower case, where they fit.
pub(crate) fn hex_field(out: &mut Line, octet: u8)
    requires { length out.old + 3 ≤ 4096 }
    ensures value { out.new ≡ out.old ++ 32 ∷ encode_lower (octet ∷ []) }
    ensures len { length out.new ≡ length out.old + 3 }
{
    text(out, b" ");
    text(out, &hex_digits(octet));
}
