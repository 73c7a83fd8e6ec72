//! The text of a google.protobuf.Timestamp (RFC 3339, section 5.6; timestamp.proto, JSON Mapping).

ghost use Rattle.std.specs.Prelude.{◌≡◌, ◌↔◌, ◌<◌, ◌≤◌, ◌≤ℤ◌, ◌++◌, pos, neg_ℤ, IsTrue, IsSome, IfSome, OnOk, OnErr, Err};
ghost use Rattle.jiff_core.specs.Calendar.{IsCivilDate, IsEpochDay, days_from_civil};
ghost use Rattle.base.specs.Extends.{Extends};
ghost use Rattle.time_texts.specs.TimestampTexts.{seconds_at, IsCivilReading, IsClock, IsTimestampReading, IsTimestampSeconds, IsTimestampRange, IsPrintableTimestamp, AppendsTimestamp, IsDayOf, IsUtcOf, date_text, clock_text, utc_text, zone_seconds, instant, civil_moment};
ghost use Rattle.time_texts.specs.TimestampCut.{IsSmallCivil};

use crate::civil::{Civil, Zone, read_civil};
use crate::digits::put_padded;
use crate::fault::{ShowFault, TimeFault};
use crate::fraction::put_fraction;
use crate::moment::Moment;
use base::{NoMemory, cut_back};
use jiff_core::civil::Date;

/// Seconds from 0001-01-01T00:00:00Z, the first instant of a Timestamp, to 1970-01-01T00:00:00Z.
const SECONDS_BEFORE: i64 = 62_135_596_800;

/// The last second of a Timestamp, 9999-12-31T23:59:59Z.
const LAST_SECOND: i64 = 253_402_300_799;

/// Days from 0001-01-01 to 1970-01-01.
const DAYS_BEFORE: i64 = 719_162;

/// Seconds of a day.
const DAY: u64 = 86_400;

/// The number of a day, counted from 1970-01-01, if the calendar has it.
fn day_number(year: u32, month: u32, day: u32) -> Option<i64>
    requires year { year < 10000 }
    requires month { month < 100 }
    requires day { day < 100 }
    ensures date { IsSome result ↔ IsCivilDate (pos year) month day }
    ensures value { IfSome result (λ n. n ≡ days_from_civil (pos year) month day) }
    ensures bound { IfSome result IsEpochDay }
{
    match Date::new(year as i16, month as i8, day as i8) {
        Ok(date) => Some(date.to_unix_epoch_day() as i64),
        Err(_) => None,
    }
}

/// Whether the clock has this time, and zones this distance from UTC.
fn is_clock(civil: &Civil) -> bool
    ensures { IsTrue result ↔ IsClock civil.now }
{
    civil.hour <= 23
        && civil.minute <= 59
        && civil.second <= 59
        && civil.zone.hours <= 23
        && civil.zone.minutes <= 59
}

/// The seconds that a zone is ahead of UTC.
fn zone_seconds(zone: Zone) -> i64
    requires hours { zone.hours < 100 }
    requires minutes { zone.minutes < 100 }
    ensures value { result ≡ zone_seconds zone }
    ensures low { neg_ℤ (pos 1000000) ≤ℤ result }
    ensures high { result ≤ℤ pos 1000000 }
{
    let seconds = (zone.hours * 3600 + zone.minutes * 60) as i64;
    if zone.is_behind { -seconds } else { seconds }
}

/// The seconds from 1970-01-01T00:00:00Z to a time of a day.
fn seconds_at(day: i64, civil: &Civil) -> i64
    requires day { IsEpochDay day }
    requires small { IsSmallCivil civil.now }
    ensures { result ≡ seconds_at day civil.now }
{
    let clock = (civil.hour * 3600 + civil.minute * 60 + civil.second) as i64;
    day * 86_400 + clock - zone_seconds(civil.zone)
}

/// Whether an instant is one of a Timestamp.
fn is_in_range(seconds: i64) -> bool
    ensures { IsTrue result ↔ IsTimestampSeconds seconds }
{
    -SECONDS_BEFORE <= seconds && seconds <= LAST_SECOND
}

/// The instant that the numbers of a text say.
fn moment_of(civil: &Civil) -> Result<Moment, TimeFault>
    requires { IsSmallCivil civil.now }
    ensures { IsCivilReading civil.now result }
{
    if !is_clock(civil) {
        return Err(TimeFault::BadText);
    }
    match day_number(civil.year, civil.month, civil.day) {
        None => Err(TimeFault::BadText),
        Some(day) => {
            let seconds = seconds_at(day, civil);
            if civil.year >= 1 && is_in_range(seconds) {
                Ok(Moment {
                    seconds,
                    nanos: civil.nanos as i32,
                })
            } else {
                Err(TimeFault::OutOfRange)
            }
        }
    }
}

/// The instant that a text says: `YYYY-MM-DDTHH:MM:SS`, optionally a point and one to nine digits, and `Z` or a
/// distance from UTC as `+HH:MM` or `-HH:MM`. A text is BadText exactly where it is not of that form, the calendar has
/// no such day, an hour is past 23, or a minute or a second past 59. It is OutOfRange exactly where it is not BadText
/// and its year is 0000, or the instant lies outside 0001-01-01T00:00:00Z to 9999-12-31T23:59:59.999999999Z. Takes no
/// memory.
pub fn read_timestamp(text: &[u8]) -> Result<Moment, TimeFault>
    ensures { IsTimestampReading text.now result }
{
    match read_civil(text) {
        Some(civil) => moment_of(&civil),
        None => Err(TimeFault::BadText),
    }
}

/// A time in UTC.
#[derive(Clone, Copy, Debug, PartialEq, Eq)]
pub struct Utc {
    /// The year.
    pub year: u32,
    /// The month.
    pub month: u32,
    /// The day of the month.
    pub day: u32,
    /// The seconds of the day.
    pub clock: u32,
}

/// The day of a number, counted from 1970-01-01, at a time of the day.
fn utc_at(day: i64, clock: u32) -> Utc
    requires from { neg_ℤ (pos 719162) ≤ℤ day }
    requires to { day ≤ℤ pos 2932896 }
    ensures date { IsDayOf day result }
    ensures clock { result.clock ≡ clock }
{
    match Date::from_unix_epoch_day(day) {
        Ok(date) => {
            let year = date.year.unsigned_abs();
            Utc {
                year: year as u32,
                month: date.month as u32,
                day: date.day as u32,
                clock,
            }
        }
        Err(_) => unreachable!(),
    }
}

/// The time in UTC of so many seconds from 1970-01-01T00:00:00Z.
fn utc_of(seconds: i64) -> Utc
    requires { IsTimestampSeconds seconds }
    ensures { IsUtcOf seconds result }
{
    let from_first = (seconds + SECONDS_BEFORE) as u64;
    utc_at(
        (from_first / DAY) as i64 - DAYS_BEFORE,
        (from_first % DAY) as u32,
    )
}

/// Appends a date. A part may stand where memory is not found.
fn put_date(out: &mut Vec<u8>, utc: Utc) -> Result<(), NoMemory>
    ensures ok { OnOk result (out.new.items ≡ out.old.items ++ date_text utc.year utc.month utc.day) }
    ensures err { OnErr result (Extends out.old.items out.new.items) }
{
    put_padded(out, 4, utc.year)?;
    out.push(b'-')?;
    put_padded(out, 2, utc.month)?;
    out.push(b'-')?;
    put_padded(out, 2, utc.day)
}

/// Appends the time of a day, in seconds. A part may stand where memory is not found.
fn put_clock(out: &mut Vec<u8>, seconds: u32) -> Result<(), NoMemory>
    ensures ok { OnOk result (out.new.items ≡ out.old.items ++ clock_text seconds) }
    ensures err { OnErr result (Extends out.old.items out.new.items) }
{
    put_padded(out, 2, seconds / 3600)?;
    out.push(b':')?;
    put_padded(out, 2, seconds % 3600 / 60)?;
    out.push(b':')?;
    put_padded(out, 2, seconds % 60)
}

/// Appends the text of a time in UTC and billionths. A part may stand where memory is not found.
fn write_utc(out: &mut Vec<u8>, utc: Utc, nanos: u32) -> Result<(), NoMemory>
    ensures ok { OnOk result (out.new.items ≡ out.old.items ++ utc_text utc nanos) }
    ensures err { OnErr result (Extends out.old.items out.new.items) }
{
    put_date(out, utc)?;
    out.push(b'T')?;
    put_clock(out, utc.clock)?;
    put_fraction(out, nanos)?;
    out.push(b'Z')?;
    Ok(())
}

/// Appends the text of an instant. A part may stand where memory is not found.
fn write_timestamp(moment: Moment, out: &mut Vec<u8>) -> Result<(), NoMemory>
    requires { IsPrintableTimestamp moment }
    ensures ok { OnOk result (AppendsTimestamp moment out.old.items out.new.items) }
    ensures err { OnErr result (Extends out.old.items out.new.items) }
{
    let utc = utc_of(moment.seconds);
    let nanos = moment.nanos.unsigned_abs();
    write_utc(out, utc, nanos)
}

/// Whether an instant has a text. Takes no memory.
pub fn is_printable_timestamp(moment: Moment) -> bool
    ensures { IsTrue result ↔ IsPrintableTimestamp moment }
{
    is_in_range(moment.seconds) && 0 <= moment.nanos && moment.nanos < 1_000_000_000
}

/// Appends the text of an instant, without quotes: in UTC with `Z`, and with 0, 3, 6 or 9 digits behind the point. It
/// is Unprintable exactly where a part is out of range. After an error `out` is as before.
pub fn show_timestamp(moment: Moment, out: &mut Vec<u8>) -> Result<(), ShowFault>
    ensures ok { OnOk result (IsPrintableTimestamp moment × AppendsTimestamp moment out.old.items out.new.items) }
    ensures unprintable { result ≡ Err ShowFault.Unprintable ↔ ¬ (IsPrintableTimestamp moment) }
    ensures err { OnErr result (out.new.items ≡ out.old.items) }
{
    if !is_printable_timestamp(moment) {
        return Err(ShowFault::Unprintable);
    }
    let len = out.len();
    let done = write_timestamp(moment, out);
    cut_back(out, len, done)?;
    Ok(())
}
