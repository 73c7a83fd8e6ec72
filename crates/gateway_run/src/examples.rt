//! Worked examples of commands, as a law.
ghost use Rattle.gateway_run.specs.CommandExamples.{CommandExamplesHold};

/// Which words are commands.
pub fn command_examples()
    ensures { CommandExamplesHold }
{
    http_rules::laws::named_methods_are_tokens();
}
