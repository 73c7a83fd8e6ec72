//! Worked examples, as laws.
ghost use Rattle.json_integers.specs.IntegerExamples.{IntegerExamplesHold, OtherExamplesHold};

/// Texts of integers, with a point and an exponent or without.
pub fn integer_examples()
    ensures { IntegerExamplesHold }
{}

/// Texts that are no number, that are no integer, and that are one past 64 bits.
pub fn other_examples()
    ensures { OtherExamplesHold }
{}
