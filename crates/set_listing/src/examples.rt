//! Worked examples of what is printed of a set, as a law.
ghost use Rattle.set_listing.specs.PrintedExamples.{PrintedExamplesHold};

/// What `check` and `routes` print of a small API.
pub fn printed_examples()
    ensures { PrintedExamplesHold }
{}
