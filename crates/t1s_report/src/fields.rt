// What lines are put together from.
ghost use Rattle.std.specs.Prelude.{◌≡◌, ◌+◌, ◌≤◌, [], ◌++◌, length, decimal};

use t1s_base::{Line, put_number, put_text};

/// Takes all octets out of a line.
pub(crate) fn clear(out: &mut Line)
    ensures { out.new ≡ [] }
{
    out.clear();
}

/// Appends a text that fits.
pub(crate) fn text(out: &mut Line, text: &[u8])
    requires { length out.old + length text.now ≤ 4096 }
    ensures value { out.new ≡ out.old ++ text.now }
    ensures len { length out.new ≡ length out.old + length text.now }
{
    let _ = put_text(out, text);
}

/// Appends a number, where twenty digits fit.
pub(crate) fn number(out: &mut Line, n: u64)
    requires { length out.old + 20 ≤ 4096 }
    ensures value { out.new ≡ out.old ++ decimal n }
    ensures len { length out.new ≤ length out.old + 20 }
{
    let _ = put_number(out, n);
}

/// Appends a word with the spaces round it, and a number, where all of it fits.
pub(crate) fn count(out: &mut Line, word: &[u8], n: u64)
    requires { length out.old + length word.now + 20 ≤ 4096 }
    ensures value { out.new ≡ out.old ++ word.now ++ decimal n }
    ensures len { length out.new ≤ length out.old + length word.now + 20 }
{
    text(out, word);
    number(out, n);
}
