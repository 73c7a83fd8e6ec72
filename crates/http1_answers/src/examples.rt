//! Worked examples of answers to refusals, as a law.
ghost use Rattle.http1_answers.specs.AnswerExamples.{RefusalsAreAnswered};

/// A path that is unknown, a method that is not allowed, a value that is wrong, HEAD, and no memory.
pub fn refusals_are_answered()
    ensures { RefusalsAreAnswered }
{}
