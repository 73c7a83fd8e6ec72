//! Texts of timestamps, durations and field masks as messages (the ProtoJSON guide).
ghost use Rattle.known_types.specs.KnownAnswers.{IsAnswer, IsKnownReading};
ghost use Rattle.known_types.specs.KnownTexts.{masked, timed};
ghost use Rattle.mask_texts.specs.MaskTexts.{mask_reading};
ghost use Rattle.time_texts.specs.DurationReading.{duration_reading};
ghost use Rattle.time_texts.specs.TimestampReading.{timestamp_reading};

use crate::fault::TextFault;
use crate::masks::mask_value;
use crate::moments::moment_value;
use mask_texts::{MaskFault, read_mask};
use schema::{Known, Value};
use std::alloc::Global;
use time_texts::laws::readings_are_computed;
use time_texts::{Moment, TimeFault, read_duration, read_timestamp};

/// The message of a time that was read, or its fault.
fn timed(alloc: Global, time: Result<Moment, TimeFault>) -> Result<Value, TextFault>
    ensures { IsAnswer (timed time) result }
{
    match time {
        Ok(moment) => Ok(moment_value(alloc, moment)?),
        Err(TimeFault::BadText) => Err(TextFault::BadText),
        Err(TimeFault::OutOfRange) => Err(TextFault::OutOfRange),
    }
}

/// The message of a timestamp's text.
fn read_instant(alloc: Global, text: &[u8]) -> Result<Value, TextFault>
    ensures { IsAnswer (timed (timestamp_reading text.now)) result }
{
    readings_are_computed();
    timed(alloc, read_timestamp(text))
}

/// The message of a duration's text.
fn read_length(alloc: Global, text: &[u8]) -> Result<Value, TextFault>
    ensures { IsAnswer (timed (duration_reading text.now)) result }
{
    readings_are_computed();
    timed(alloc, read_duration(text))
}

/// The message of a field mask's text.
fn read_paths(alloc: Global, text: &[u8]) -> Result<Value, TextFault>
    ensures { IsAnswer (masked (mask_reading text.now)) result }
{
    match read_mask(alloc, text) {
        Ok(paths) => Ok(mask_value(alloc, paths)?),
        Err(MaskFault::BadText) => Err(TextFault::BadText),
        Err(MaskFault::NoMemory) => Err(TextFault::NoMemory),
    }
}

/// The message of the type that a text means, without quotes: of a timestamp, a duration or a field mask, in canonical
/// form, so that a number which is 0, and a list without paths, are absent. A text is BadText where it is not of the
/// form that the type has, and OutOfRange where it is, and what it says is out of the type's range. Of any other type
/// each text is BadText.
pub fn read_known(alloc: Global, known: Known, text: &[u8]) -> Result<Value, TextFault>
    ensures { IsKnownReading known text.now result }
{
    match known {
        Known::Timestamp => read_instant(alloc, text),
        Known::Duration => read_length(alloc, text),
        Known::FieldMask => read_paths(alloc, text),
        Known::Plain | Known::Wrapper => Err(TextFault::BadText),
    }
}
