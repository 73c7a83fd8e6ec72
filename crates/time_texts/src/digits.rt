//! Decimal digits.
ghost use Rattle.std.specs.Prelude.{◌≡◌, ◌+◌, ◌*◌, ◌-◌, ◌^◌, ◌<◌, ◌≤◌, ◌++◌, min, true, take, length, OnOk, OnErr};
ghost use Rattle.std.specs.List.{prefix_len};
ghost use Rattle.std.specs.Char.{is_ascii_digit};
ghost use Rattle.std.specs.Str.Parse.{digits_value};
ghost use Rattle.base.specs.Extends.{Extends};
ghost use Rattle.time_texts.specs.Digits.{are_all_digits, are_some_digits, padded};

use base::NoMemory;

/// How many digits stand at the front.
pub(crate) fn digits_len(text: &[u8]) -> usize
    ensures value { result ≡ prefix_len is_ascii_digit text.now }
    ensures within { result ≤ length text.now }
{
    for (i, byte) in text.iter().enumerate() {
        if !byte.is_ascii_digit() {
            return i;
        }
    }
    text.len()
}

/// Whether each byte is a digit.
pub(crate) fn all_digits(text: &[u8]) -> bool
    ensures { result ≡ are_all_digits text.now }
{
    text.iter().all(|byte| byte.is_ascii_digit())
}

/// Whether each byte is a digit, of one or more.
pub(crate) fn are_some_digits(text: &[u8]) -> bool
    ensures { result ≡ are_some_digits text.now }
{
    !text.is_empty() && all_digits(text)
}

/// The number that so few digits write.
pub(crate) fn value(digits: &[u8]) -> u32
    requires digits { are_all_digits digits.now ≡ true }
    requires few { length digits.now ≤ 9 }
    ensures value { result ≡ digits_value 10 digits.now }
    ensures below { result < 10 ^ length digits.now }
{
    let mut value = 0;
    for digit in digits {
        value = value * 10 + (*digit - b'0') as u32;
    }
    value
}

/// The number that digits write, where it is at most `most`, and else one more than that.
pub(crate) fn capped_value(digits: &[u8], most: u64) -> u64
    requires digits { are_all_digits digits.now ≡ true }
    requires most { most < 10 ^ 12 }
    ensures { result ≡ min (digits_value 10 digits.now) (most + 1) }
{
    let mut value = 0;
    for digit in digits {
        value = (value * 10 + (*digit - b'0') as u64).min(most + 1);
    }
    value
}

/// Appends a number in so many digits. A part may stand where memory is not found.
#[tactic(auto, using(crate::proofs::DigitLemmas::padded_steps))]
pub(crate) fn put_padded(out: &mut Vec<u8>, width: u32, n: u32) -> Result<(), NoMemory>
    ensures ok { OnOk result (out.new.items ≡ out.old.items ++ padded width n) }
    ensures err { OnErr result (Extends out.old.items out.new.items) }
{
    if width == 0 {
        return Ok(());
    }
    put_padded(out, width - 1, n / 10)?;
    out.push(b'0' + (n % 10) as u8)?;
    Ok(())
}
