//! Worked examples, as laws.
ghost use Rattle.time_texts.specs.DurationExamples.{DurationExamplesHold, ShownDurationsHold};
ghost use Rattle.time_texts.specs.TimestampExamples.{TimestampExamplesHold, FarTimestampsHold, BadTimestampsHold};

/// Texts of durations, and texts that are none; texts that are written.
pub fn duration_examples()
    ensures read { DurationExamplesHold }
    ensures shown { ShownDurationsHold }
{}

/// Texts of timestamps, those of times out of range, and texts that are none.
pub fn timestamp_examples()
    ensures read { TimestampExamplesHold }
    ensures far { FarTimestampsHold }
    ensures bad { BadTimestampsHold }
{}
