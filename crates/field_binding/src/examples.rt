//! Worked examples of paths that are bound, as laws.
ghost use Rattle.field_binding.specs.BindingExamples.{PathBindingExamplesHold};

use crate::laws;

/// Names, numbers and enums, at one level and at several, with escapes, and the faults of values past their range or
/// too deep.
pub fn path_binding_examples()
    ensures { PathBindingExamplesHold }
{
    laws::one_path_binding();
}
