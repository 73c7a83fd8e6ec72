//! The parts of a number (RFC 8259, section 6).
ghost use Rattle.std.specs.Prelude.{◌≡◌, ◌≤◌, length};
ghost use Rattle.json_events.specs.WordSteps.{is_digit, is_e, is_sign};
ghost use Rattle.json_integers.specs.NumberCut.{digits_len, minus_len, fraction_len, sign_len, is_int, are_some_digits, is_exponent, are_parts, cut_number};
ghost use Rattle.json_integers.specs.PartsSeen.{parts_seen};

/// A text cut into the parts of a number; those that are left out are empty.
#[derive(Debug, Clone, Copy)]
pub(crate) struct Parts<'a> {
    /// The minus.
    pub minus: &'a [u8],
    /// The digits before the point.
    pub int: &'a [u8],
    /// The point and the digits behind it.
    pub fraction: &'a [u8],
    /// The rest.
    pub exponent: &'a [u8],
}

fn is_digit(byte: u8) -> bool
    ensures { result ≡ is_digit byte }
{
    b'0' <= byte && byte <= b'9'
}

/// How many digits stand at the front.
fn digits_len(text: &[u8]) -> usize
    ensures value { result ≡ digits_len text.now }
    ensures within { result ≤ length text.now }
{
    for (i, byte) in text.iter().enumerate() {
        if !is_digit(*byte) {
            return i;
        }
    }
    text.len()
}

/// The length of a minus at the front.
fn minus_len(text: &[u8]) -> usize
    ensures value { result ≡ minus_len text.now }
    ensures within { result ≤ length text.now }
{
    match text {
        [b'-', ..] => 1,
        _ => 0,
    }
}

/// The length of a point and the digits behind it at the front.
fn fraction_len(text: &[u8]) -> usize
    ensures value { result ≡ fraction_len text.now }
    ensures within { result ≤ length text.now }
{
    match text {
        [b'.', digits @ ..] => digits_len(digits) + 1,
        _ => 0,
    }
}

/// The length of a plus or a minus at the front.
pub(crate) fn sign_len(text: &[u8]) -> usize
    ensures value { result ≡ sign_len text.now }
    ensures within { result ≤ length text.now }
{
    match text {
        [b'+' | b'-', ..] => 1,
        _ => 0,
    }
}

/// The parts of a text. What is no part of a number is left in the exponent.
pub(crate) fn cut(text: &[u8]) -> Parts<'_>
    ensures { parts_seen result ≡ cut_number text.now }
{
    let (minus, unsigned) = text.split_at(minus_len(text));
    let (int, behind) = unsigned.split_at(digits_len(unsigned));
    let (fraction, exponent) = behind.split_at(fraction_len(behind));
    Parts {
        minus,
        int,
        fraction,
        exponent,
    }
}

fn is_int(digits: &[u8]) -> bool
    ensures { result ≡ is_int digits.now }
{
    match digits {
        [] => false,
        [first, rest @ ..] => rest.is_empty() || *first != b'0',
    }
}

fn are_some_digits(text: &[u8]) -> bool
    ensures { result ≡ are_some_digits text.now }
{
    !text.is_empty() && digits_len(text) == text.len()
}

fn is_exponent(text: &[u8]) -> bool
    ensures { result ≡ is_exponent text.now }
{
    match text {
        [] => true,
        [b'e' | b'E', power @ ..] => are_some_digits(power.split_at(sign_len(power)).1),
        _ => false,
    }
}

/// Whether the parts of a text are those of a number.
pub(crate) fn are_parts(parts: &Parts<'_>) -> bool
    ensures { result ≡ are_parts (parts_seen parts.now) }
{
    is_int(parts.int) && parts.fraction.len() != 1 && is_exponent(parts.exponent)
}
