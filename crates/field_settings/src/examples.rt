//! Worked examples of settings, as laws.
ghost use Rattle.field_settings.specs.LevelExamples.{LevelExamplesHold};
ghost use Rattle.field_settings.specs.SettingExamples.{SettingExamplesHold};

/// What settings make of orders: strings at one level and at two, messages made and kept, defaults told from
/// absence and not, members of a oneof at the end of a path and on its way, and two settings of one path.
pub fn setting_examples()
    ensures { SettingExamplesHold }
{}

/// Which settings fit a book: the deepest, of a scalar and of a well-known message, and slots of another form.
pub fn level_examples()
    ensures { LevelExamplesHold }
{}
