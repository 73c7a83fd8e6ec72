//! The text of a google.protobuf.Duration (the ProtoJSON guide, Duration; duration.proto, JSON Mapping).
ghost use Rattle.std.specs.Prelude.{◌≡◌, ◌↔◌, ◌||◌, ◌++◌, ◌<◌, ◌≤◌, ◌^◌, length, [], decimal, IsTrue, OnOk, OnErr, Err, codes, if◌then◌else◌};
ghost use Rattle.std.specs.Int.{is_negative};
ghost use Rattle.jiff_core.specs.Sign.{signed};
ghost use Rattle.base.specs.Extends.{Extends};
ghost use Rattle.time_texts.specs.DurationTexts.{IsDurationReading, IsPrintableDuration, signed_text, duration_text};
ghost use Rattle.time_texts.specs.DurationCut.{minus_len, cut_duration, are_cut_parts};
ghost use Rattle.time_texts.specs.DurationPartsSeen.{duration_parts_seen};

use crate::digits::{are_some_digits, capped_value, digits_len};
use crate::fault::{ShowFault, TimeFault};
use crate::fraction::{fraction_len, is_fraction, nanos_of, put_fraction};
use crate::moment::Moment;
use base::{NoMemory, cut_back};
use itoa::Buffer;

/// The most seconds that a Duration has, with either sign: about 10,000 years (duration.proto).
pub const MAX_DURATION_SECONDS: u64 = 315_576_000_000;

/// A text cut into the parts of a duration; those that are left out are empty.
#[derive(Debug, Clone, Copy)]
pub(crate) struct Parts<'a> {
    /// The minus.
    pub minus: &'a [u8],
    /// The digits of the seconds.
    pub whole: &'a [u8],
    /// The point and the digits behind it.
    pub fraction: &'a [u8],
    /// The rest.
    pub unit: &'a [u8],
}

/// The length of a minus at the front.
fn minus_len(text: &[u8]) -> usize
    ensures value { result ≡ minus_len text.now }
    ensures within { result ≤ length text.now }
{
    match text {
        [b'-', ..] => 1,
        _ => 0,
    }
}

/// The parts of a text. What is no part of a duration is left in the unit.
fn cut(text: &[u8]) -> Parts<'_>
    ensures { duration_parts_seen result ≡ cut_duration text.now }
{
    let (minus, unsigned) = text.split_at(minus_len(text));
    let (whole, behind) = unsigned.split_at(digits_len(unsigned));
    let (fraction, unit) = behind.split_at(fraction_len(behind));
    Parts {
        minus,
        whole,
        fraction,
        unit,
    }
}

/// Whether the parts of a text are those of a duration.
fn are_parts(parts: &Parts<'_>) -> bool
    ensures { result ≡ are_cut_parts (duration_parts_seen parts.now) }
{
    are_some_digits(parts.whole) && is_fraction(parts.fraction) && parts.unit == b"s".as_slice()
}

/// A number with a sign.
fn signed(is_negative: bool, magnitude: u64) -> i64
    requires { magnitude < 2 ^ 63 }
    ensures { result ≡ signed is_negative magnitude }
{
    if is_negative {
        -(magnitude as i64)
    } else {
        magnitude as i64
    }
}

/// Billionths with a sign.
fn signed_nanos(is_negative: bool, nanos: u32) -> i32
    requires { nanos < 2 ^ 30 }
    ensures { result ≡ signed is_negative nanos }
{
    if is_negative {
        -(nanos as i32)
    } else {
        nanos as i32
    }
}

/// A duration of a sign and the sizes of its parts.
fn moment_of(is_negative: bool, seconds: u64, nanos: u32) -> Moment
    requires seconds { seconds < 2 ^ 63 }
    requires nanos { nanos < 2 ^ 30 }
    ensures seconds { result.seconds ≡ signed is_negative seconds }
    ensures nanos { result.nanos ≡ signed is_negative nanos }
{
    Moment {
        seconds: signed(is_negative, seconds),
        nanos: signed_nanos(is_negative, nanos),
    }
}

/// What a text says that is a duration: seconds and billionths, both with its sign. A text is BadText exactly where it
/// is not an optional minus, one or more digits, optionally a point and one to nine digits, and `s`; it is OutOfRange
/// exactly where it is that, and its whole seconds are more than 315,576,000,000. Takes no memory.
pub fn read_duration(text: &[u8]) -> Result<Moment, TimeFault>
    ensures { IsDurationReading text.now result }
{
    let parts = cut(text);
    if !are_parts(&parts) {
        return Err(TimeFault::BadText);
    }
    let seconds = capped_value(parts.whole, MAX_DURATION_SECONDS);
    if seconds > MAX_DURATION_SECONDS {
        return Err(TimeFault::OutOfRange);
    }
    Ok(moment_of(!parts.minus.is_empty(), seconds, nanos_of(parts.fraction)))
}

/// Whether a duration has a text. Takes no memory.
pub fn is_printable_duration(moment: Moment) -> bool
    ensures { IsTrue result ↔ IsPrintableDuration moment }
{
    moment.seconds.unsigned_abs() <= MAX_DURATION_SECONDS
        && moment.nanos.unsigned_abs() < 1_000_000_000
        && (moment.seconds <= 0 || moment.nanos >= 0)
        && (moment.seconds >= 0 || moment.nanos <= 0)
}

/// Whether a part of a duration is negative.
fn has_negative(moment: Moment) -> bool
    ensures { result ≡ (is_negative moment.seconds || is_negative moment.nanos) }
{
    moment.seconds < 0 || moment.nanos < 0
}

/// Appends a minus, or nothing.
fn put_minus(out: &mut Vec<u8>, is_negative: bool) -> Result<(), NoMemory>
    ensures ok { OnOk result (out.new.items ≡ out.old.items ++ (if is_negative then codes "-" else [])) }
    ensures err { OnErr result (out.new.items ≡ out.old.items) }
{
    if is_negative {
        out.push(b'-')?;
    }
    Ok(())
}

/// Appends a number. Where memory is not found, `out` is as before.
fn put_number(out: &mut Vec<u8>, n: u64) -> Result<(), NoMemory>
    ensures ok { OnOk result (out.new.items ≡ out.old.items ++ decimal n) }
    ensures err { OnErr result (out.new.items ≡ out.old.items) }
{
    out.extend_from_slice(Buffer::new().format(n).as_bytes())?;
    Ok(())
}

/// Appends the text of a sign, seconds and billionths. A part may stand where memory is not found.
fn write_parts(
    out: &mut Vec<u8>,
    is_negative: bool,
    seconds: u64,
    nanos: u32,
) -> Result<(), NoMemory>
    ensures ok { OnOk result (out.new.items ≡ out.old.items ++ signed_text is_negative seconds nanos) }
    ensures err { OnErr result (Extends out.old.items out.new.items) }
{
    put_minus(out, is_negative)?;
    put_number(out, seconds)?;
    put_fraction(out, nanos)?;
    out.push(b's')?;
    Ok(())
}

/// Appends the text. A part may stand where memory is not found.
fn write_duration(moment: Moment, out: &mut Vec<u8>) -> Result<(), NoMemory>
    ensures ok { OnOk result (out.new.items ≡ out.old.items ++ duration_text moment) }
    ensures err { OnErr result (Extends out.old.items out.new.items) }
{
    let is_negative = has_negative(moment);
    let seconds = moment.seconds.unsigned_abs();
    let nanos = moment.nanos.unsigned_abs();
    write_parts(out, is_negative, seconds, nanos)
}

/// Appends the text of a duration, without quotes: the seconds without leading zeros, and 0, 3, 6 or 9 digits behind
/// the point, with a minus exactly where a part is negative. It is Unprintable exactly where a part is out of range or
/// the signs of the parts differ. After an error `out` is as before.
pub fn show_duration(moment: Moment, out: &mut Vec<u8>) -> Result<(), ShowFault>
    ensures ok { OnOk result (IsPrintableDuration moment × (out.new.items ≡ out.old.items ++ duration_text moment)) }
    ensures unprintable { result ≡ Err ShowFault.Unprintable ↔ ¬ (IsPrintableDuration moment) }
    ensures err { OnErr result (out.new.items ≡ out.old.items) }
{
    if !is_printable_duration(moment) {
        return Err(ShowFault::Unprintable);
    }
    let len = out.len();
    let done = write_duration(moment, out);
    cut_back(out, len, done)?;
    Ok(())
}
