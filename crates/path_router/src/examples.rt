//! Worked examples of paths that a template fits, and of targets with their paths, as laws.
ghost use Rattle.path_router.specs.FitExamples.{FitExamplesHold};
ghost use Rattle.path_router.specs.TargetExamples.{TargetExamplesHold};

/// `/v1/*:go` fits `/v1/a:go` and not `/v1/:go`. `/v1/{a=**}` fits `/v1/a/b` and `/v1`, where its variable takes the
/// empty span at the end, and neither `/v1/` nor `/v1/a//b`.
pub fn fit_examples()
    ensures { FitExamplesHold }
{}

/// A target in origin form has the path before its `?`, one in absolute form what stands behind its authority, or `/`.
/// Another scheme, the asterisk form and a query alone have none.
pub fn target_examples()
    ensures { TargetExamplesHold }
{}
