//! Worked examples, as laws.
ghost use Rattle.scalar_texts.specs.ScalarExamples.{NumberExamplesHold, OtherKindExamplesHold};

use json_integers::examples::{integer_examples, other_examples};

/// Texts of numbers, in the range of their kind and past it.
pub fn number_examples()
    ensures { NumberExamplesHold }
{
    integer_examples();
    other_examples();
}

/// Texts of bools, strings and enums.
pub fn other_kind_examples()
    ensures { OtherKindExamplesHold }
{
    integer_examples();
    other_examples();
}
