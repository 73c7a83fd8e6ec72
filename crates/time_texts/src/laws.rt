//! Laws of the definitions that the calls' contracts cite. Each is the contract of an empty function.
ghost use Rattle.std.specs.Prelude.{◌≡◌, ◌↔◌, ℕ, IsTrue, List, Result};
ghost use Rattle.time_texts.specs.DurationTexts.{MeansDuration, IsDurationReading, IsPrintableDuration, duration_text};
ghost use Rattle.time_texts.specs.TimestampTexts.{MeansTimestamp, IsTimestampReading, IsPrintableTimestamp, IsTimestampShown};
ghost use Rattle.time_texts.specs.UtcTimes.{timestamp_text};
ghost use Rattle.time_texts.specs.DurationReading.{duration_reading};
ghost use Rattle.time_texts.specs.TimestampReading.{timestamp_reading};
ghost use Rattle.time_texts.specs.PrintableTimes.{is_printable_duration, is_printable_timestamp};
ghost use Rattle.time_texts.specs.declared.moment.Moment.{Moment as MomentOf};
ghost use Rattle.time_texts.specs.declared.fault.TimeFault.{TimeFault as TimeFaultOf};

/// A text means one duration at most, and one instant.
pub fn one_meaning_of_a_text()
    ensures durations { (text : List ℕ) (a b : MomentOf) → MeansDuration text a → MeansDuration text b → a ≡ b }
    ensures instants { (text : List ℕ) (a b : MomentOf) → MeansTimestamp text a → MeansTimestamp text b → a ≡ b }
{}

/// A text has one answer at most: what it means, or one fault.
pub fn one_answer_of_a_text()
    ensures durations { (text : List ℕ) (a b : Result MomentOf TimeFaultOf)
        → IsDurationReading text a → IsDurationReading text b → a ≡ b }
    ensures instants { (text : List ℕ) (a b : Result MomentOf TimeFaultOf)
        → IsTimestampReading text a → IsTimestampReading text b → a ≡ b }
{}

/// What is written means what it was written for, so that no two durations and no two instants have one text.
pub fn written_texts_are_read_back()
    ensures durations { (m : MomentOf) → IsPrintableDuration m → MeansDuration (duration_text m) m }
    ensures instants { (m : MomentOf) (text : List ℕ) → IsPrintableTimestamp m → IsTimestampShown m text
        → MeansTimestamp text m }
{}

/// An instant has one text at most: that which one computes for it.
pub fn one_text_of_an_instant()
    ensures one { (m : MomentOf) (s t : List ℕ) → IsTimestampShown m s → IsTimestampShown m t → s ≡ t }
    ensures computed { (m : MomentOf) (text : List ℕ) → IsPrintableTimestamp m → IsTimestampShown m text
        → text ≡ timestamp_text m }
{}

/// What one computes for a text is what is read of it, and nothing else is.
pub fn readings_are_computed()
    ensures durations { (text : List ℕ) (r : Result MomentOf TimeFaultOf)
        → IsDurationReading text r → r ≡ duration_reading text }
    ensures instants { (text : List ℕ) (r : Result MomentOf TimeFaultOf)
        → IsTimestampReading text r → r ≡ timestamp_reading text }
    ensures duration_of_text { (text : List ℕ) → IsDurationReading text (duration_reading text) }
    ensures instant_of_text { (text : List ℕ) → IsTimestampReading text (timestamp_reading text) }
{}

/// Each instant in range has a text: that which one computes for it.
pub fn printable_instants_have_texts()
    ensures { (m : MomentOf) → IsPrintableTimestamp m → IsTimestampShown m (timestamp_text m) }
{}

/// What a text means has a text that is written.
pub fn read_times_are_printable()
    ensures durations { (text : List ℕ) (m : MomentOf) → MeansDuration text m → IsPrintableDuration m }
    ensures instants { (text : List ℕ) (m : MomentOf) → MeansTimestamp text m → IsPrintableTimestamp m }
{}

/// Whether a duration and an instant have a text is what one computes.
pub fn printable_is_computed()
    ensures durations { (m : MomentOf) → IsTrue (is_printable_duration m) ↔ IsPrintableDuration m }
    ensures instants { (m : MomentOf) → IsTrue (is_printable_timestamp m) ↔ IsPrintableTimestamp m }
{}
