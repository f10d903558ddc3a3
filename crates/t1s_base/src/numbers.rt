// Numbers in a text.
ghost use Rattle.std.specs.Prelude.{◌≡◌, ◌≤◌, length, IsTrue};
ghost use Rattle.std.specs.Char.{is_ascii_digit};
ghost use Rattle.std.specs.List.{list_all};
ghost use Rattle.t1s_base.specs.Numbers.{has_leading_zero, is_number, value_of, number_of};

/// How many digits a number has at most.
const MOST_DIGITS: usize = 10;

/// The number that the text writes. None where it isn't one to ten decimal digits without a leading
/// zero; `0` itself is a number.
pub fn read_number(text: &[u8]) -> Option<u64>
    ensures { result ≡ number_of text.now }
{
    if !has_form(text) {
        return None;
    }
    Some(worth(text))
}

/// Whether a `0` stands before a further octet.
fn begins_with_zero(text: &[u8]) -> bool
    ensures { result ≡ has_leading_zero text.now }
{
    text.len() > 1 && text[0] == b'0'
}

/// Whether each octet is a digit.
fn has_digits_alone(text: &[u8]) -> bool
    ensures { result ≡ list_all is_ascii_digit text.now }
{
    text.iter().all(|octet| octet.is_ascii_digit())
}

/// Whether the text has the form of a number.
fn has_form(text: &[u8]) -> bool
    ensures { result ≡ is_number text.now }
{
    match text.len() {
        1..=MOST_DIGITS => has_digits_alone(text) && !begins_with_zero(text),
        _ => false,
    }
}

/// What the digits are worth.
fn worth(digits: &[u8]) -> u64
    requires few { length digits.now ≤ 10 }
    requires digits { IsTrue (list_all is_ascii_digit digits.now) }
    ensures { result ≡ value_of digits.now }
{
    let mut value = 0;
    for digit in digits {
        value = 10 * value + u64::from(*digit - b'0');
    }
    value
}
