//! Worked examples of rules, as a law.
ghost use Rattle.linked_bindings.specs.RuleExamples.{RuleExamplesHold};

/// What is linked of a rule of a method that changes a book, and the faults of others.
pub fn rule_examples()
    ensures { RuleExamplesHold }
{}
