// What texts are put together from.
ghost use Rattle.std.specs.Prelude.{◌≡◌, ◌+◌, ◌≤◌, ◌++◌, length, decimal};

use t1s_base::{Line, put_number, put_text};

/// Appends a text that fits.
pub fn text(out: &mut Line, text: &[u8])
    requires { length out.old + length text.now ≤ 4096 }
    ensures value { out.new ≡ out.old ++ text.now }
    ensures len { length out.new ≡ length out.old + length text.now }
{
    let _ = put_text(out, text);
}

/// Appends a number, where twenty digits fit.
pub fn number(out: &mut Line, n: u64)
    requires { length out.old + 20 ≤ 4096 }
    ensures value { out.new ≡ out.old ++ decimal n }
    ensures len { length out.new ≤ length out.old + 20 }
{
    let _ = put_number(out, n);
}
