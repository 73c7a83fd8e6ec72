//! Worked examples of paths and of linked APIs, as laws.
ghost use Rattle.linked_api.specs.LinkedExamples.{PathExamplesHold};
ghost use Rattle.linked_api.specs.SmallApi.{LinkedExamplesHold};

/// Where paths of a request that has a book in it lead, and which paths of numbers overlap.
pub fn path_examples()
    ensures { PathExamplesHold }
{}

/// A small API that is linked with its binding and without one, and thirteen forms of it that are not linked.
pub fn linked_examples()
    ensures { LinkedExamplesHold }
{
    http_rules::laws::named_methods_are_kinds();
}
