//! Worked examples of queries, as laws.
ghost use Rattle.query_parameters.specs.ParameterExamples.{ParameterExamplesHold};

/// `&&a&&b=&` has two parameters, with the numbers 3 and 5. `a+b%2Bc` stands for `a b+c`.
pub fn parameter_examples()
    ensures { ParameterExamplesHold }
{}
