//! The numbers in a timestamp's text (RFC 3339, section 5.6, date-time).

ghost use Rattle.std.specs.Prelude.{◌≡◌, ◌==◌, ◌&&◌, ◌+◌, ◌<◌, ◌≤◌, ◌^◌, ℕ, true, length, codes, IfSome};
ghost use Rattle.std.specs.Str.{bytes_eq};
ghost use Rattle.std.specs.Str.Parse.{digits_value};
ghost use Rattle.time_texts.specs.Fractions.{is_fraction};
ghost use Rattle.time_texts.specs.TimestampTexts.{civil_of, zone_of};
ghost use Rattle.time_texts.specs.TimestampCut.{part_at, has_marks, has_date_digits, has_clock_digits, has_front, is_offset, is_zone, cut_zone, cut_front, fraction_behind, zone_behind, civil_in, IsSmallCivil};
ghost use Rattle.time_texts.specs.Digits.{are_all_digits};

use crate::digits::{all_digits, value};
use crate::fraction::{fraction_len, is_fraction, nanos_of};

/// The length of the date and the clock, up to the seconds.
const FRONT_LEN: usize = 19;

/// The numbers that a timestamp's text says, be there such a date or not.
#[derive(Clone, Copy, Debug, PartialEq, Eq)]
pub struct Civil {
    /// The year, from 0 to 9999.
    pub year: u32,
    /// The month.
    pub month: u32,
    /// The day of the month.
    pub day: u32,
    /// The hour of the day.
    pub hour: u32,
    /// The minute of the hour.
    pub minute: u32,
    /// The second of the minute.
    pub second: u32,
    /// Billionths of a second.
    pub nanos: u32,
    /// How far the zone is from UTC.
    pub zone: Zone,
}

/// How far a zone is from UTC.
#[derive(Clone, Copy, Debug, PartialEq, Eq)]
pub struct Zone {
    /// Whether it is behind UTC.
    pub is_behind: bool,
    /// Whole hours.
    pub hours: u32,
    /// The minutes besides.
    pub minutes: u32,
}

/// Whether the marks between the numbers of date and clock stand where they do.
fn has_marks(text: &[u8]) -> bool
    requires { 19 ≤ length text.now }
    ensures { result ≡ has_marks text.now }
{
    text[4] == b'-' && text[7] == b'-' && text[10] == b'T' && text[13] == b':' && text[16] == b':'
}

/// Whether the numbers of the date are digits.
fn has_date_digits(text: &[u8]) -> bool
    requires { 19 ≤ length text.now }
    ensures { result ≡ has_date_digits text.now }
{
    all_digits(&text[0..4]) && all_digits(&text[5..7]) && all_digits(&text[8..10])
}

/// Whether the numbers of the clock are digits.
fn has_clock_digits(text: &[u8]) -> bool
    requires { 19 ≤ length text.now }
    ensures { result ≡ has_clock_digits text.now }
{
    all_digits(&text[11..13]) && all_digits(&text[14..16]) && all_digits(&text[17..19])
}

/// Whether a text begins as a date and a clock do.
fn has_front(text: &[u8]) -> bool
    ensures { result ≡ has_front text.now }
{
    text.len() >= FRONT_LEN && has_marks(text) && has_date_digits(text) && has_clock_digits(text)
}

/// Whether a text is a number of hours and minutes with a sign.
fn is_offset(zone: &[u8]) -> bool
    ensures { result ≡ is_offset zone.now }
{
    zone.len() == 6
        && (zone[0] == b'+' || zone[0] == b'-')
        && zone[3] == b':'
        && all_digits(&zone[1..3])
        && all_digits(&zone[4..6])
}

/// Whether a text is a zone.
fn is_zone(zone: &[u8]) -> bool
    ensures { result ≡ is_zone zone.now }
{
    zone == b"Z".as_slice() || is_offset(zone)
}

/// The number that so few digits write from a place on.
fn number_at(text: &[u8], from: usize, len: usize) -> u32
    requires within { from + len ≤ length text.now }
    requires few { len ≤ 9 }
    requires digits { are_all_digits (part_at text.now from len) ≡ true }
    ensures value { result ≡ digits_value 10 (part_at text.now from len) }
    ensures below { result < 10 ^ len }
{
    value(&text[from..from + len])
}

/// How far a zone is from UTC.
fn zone_of(zone: &[u8]) -> Zone
    requires { is_zone zone.now ≡ true }
    ensures zone { result ≡ zone_of (cut_zone zone.now) }
    ensures hours { result.hours < 100 }
    ensures minutes { result.minutes < 100 }
{
    if zone == b"Z".as_slice() {
        return Zone {
            is_behind: false,
            hours: 0,
            minutes: 0,
        };
    }
    Zone {
        is_behind: zone[0] == b'-',
        hours: number_at(zone, 1, 2),
        minutes: number_at(zone, 4, 2),
    }
}

/// The numbers of a text's parts.
fn civil_of(text: &[u8], fraction: &[u8], zone: &[u8]) -> Civil
    requires front { has_front text.now ≡ true }
    requires fraction { is_fraction fraction.now ≡ true }
    requires zone { is_zone zone.now ≡ true }
    ensures civil { result ≡ civil_of (cut_front text.now fraction.now zone.now) }
    ensures small { IsSmallCivil result }
{
    Civil {
        year: number_at(text, 0, 4),
        month: number_at(text, 5, 2),
        day: number_at(text, 8, 2),
        hour: number_at(text, 11, 2),
        minute: number_at(text, 14, 2),
        second: number_at(text, 17, 2),
        nanos: nanos_of(fraction),
        zone: zone_of(zone),
    }
}

/// The fraction of what stands behind the seconds, and the rest.
fn cut_behind(text: &[u8]) -> (&[u8], &[u8])
    ensures fraction { result.0.now ≡ fraction_behind text.now }
    ensures zone { result.1.now ≡ zone_behind text.now }
{
    text.split_at(fraction_len(text))
}

/// Whether a text is a fraction, and another a zone.
fn are_fraction_and_zone(fraction: &[u8], zone: &[u8]) -> bool
    ensures { result ≡ (is_fraction fraction.now && is_zone zone.now) }
{
    is_fraction(fraction) && is_zone(zone)
}

/// The numbers that a text of a timestamp's form says.
pub(crate) fn read_civil(text: &[u8]) -> Option<Civil>
    ensures civil { result ≡ civil_in text.now }
    ensures small { IfSome result IsSmallCivil }
{
    if !has_front(text) {
        return None;
    }
    let (_, behind) = text.split_at(FRONT_LEN);
    let (fraction, zone) = cut_behind(behind);
    if are_fraction_and_zone(fraction, zone) {
        Some(civil_of(text, fraction, zone))
    } else {
        None
    }
}
