//! Worked examples of fields that are linked, as a law.
ghost use Rattle.linked_types.specs.LinkedFieldExamples.{LinkedFieldExamplesHold};

/// What fields of each type, label, oneof and syntax are linked to, and which well-known types messages are.
pub fn linked_field_examples()
    ensures { LinkedFieldExamplesHold }
{}
