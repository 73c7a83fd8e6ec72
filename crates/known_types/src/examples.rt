//! Worked examples, as laws.
ghost use Rattle.known_types.specs.BytesExamples.{BytesExamplesHold};
ghost use Rattle.known_types.specs.KnownTextExamples.{KnownFaultsHold, KnownReadingsHold, KnownShowingsHold, UnprintableHold};

use mask_texts::examples::{read_masks, written_masks};
use mask_texts::laws::items_keep_their_paths;
use time_texts::examples::{duration_examples, timestamp_examples};
use time_texts::laws::readings_are_computed;

/// What is written for bytes, which texts spell bytes, and which spell none.
pub fn bytes_examples()
    ensures { BytesExamplesHold }
{}

/// Texts of timestamps, durations and field masks that are read, and texts that are refused.
pub fn known_readings()
    ensures read { KnownReadingsHold }
    ensures faults { KnownFaultsHold }
{
    readings_are_computed();
    duration_examples();
    timestamp_examples();
    read_masks();
}

/// Messages with texts, and messages without.
pub fn known_showings()
    ensures shown { KnownShowingsHold }
    ensures unprintable { UnprintableHold }
{
    items_keep_their_paths();
    written_masks();
}
