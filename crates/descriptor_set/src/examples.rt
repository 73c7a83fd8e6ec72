//! Worked examples of descriptor sets, as a law.
ghost use Rattle.descriptor_set.specs.ItemSet.{IsItemSetRead};
ghost use Rattle.descriptor_set.specs.SetExamples.{SetExamplesHold};

/// What small sets declare: a file, a package that stands twice, options in two records, a text that
/// is not listed; and the first fault of others.
pub fn set_examples()
    ensures { SetExamplesHold }
{}

/// What a whole set declares: its file, its message with a field, its service with a method, and the
/// method's rule `get: "/v1/items/{id}"`.
pub fn item_set_is_read()
    ensures { IsItemSetRead }
{}
