//! Worked examples of the ProtoJSON guide's rules, as laws.
ghost use Rattle.json_meanings.specs.MeaningExamples.{ScalarMeaningsHold, BytesMeaningsHold, PresenceMeaningsHold, ShapeMeaningsHold, DepthMeaningsHold};
ghost use Rattle.json_meanings.specs.JsonFaultExamples.{ValueFaultsHold, KeyFaultsHold, WrongShapesHold, FaultOrdersHold, TokenFaultsHold};
ghost use Rattle.json_meanings.specs.KnownExamples.{WrapperMeaningsHold, TextTypeMeaningsHold};

/// Single scalars.
pub fn scalar_meanings()
    ensures { ScalarMeaningsHold }
{}

/// Bytes in every lawful spelling.
pub fn bytes_meanings()
    ensures { BytesMeaningsHold }
{}

/// What is stored, and what is not.
pub fn presence_meanings()
    ensures { PresenceMeaningsHold }
{}

/// Messages, lists and maps.
pub fn shape_meanings()
    ensures { ShapeMeaningsHold }
{}

/// What stands at the last level.
pub fn depth_meanings()
    ensures { DepthMeaningsHold }
{}

/// Faults of a value's token.
pub fn value_faults()
    ensures { ValueFaultsHold }
{}

/// Faults of a key.
pub fn key_faults()
    ensures { KeyFaultsHold }
{}

/// Tokens of a wrong kind.
pub fn wrong_shapes()
    ensures { WrongShapesHold }
{}

/// Two faults at one token, and faults at two.
pub fn fault_orders()
    ensures { FaultOrdersHold }
{}

/// Tokens that end nothing yet.
pub fn token_faults()
    ensures { TokenFaultsHold }
{}

/// Wrappers are written as their values.
pub fn wrapper_meanings()
    ensures { WrapperMeaningsHold }
{}

/// Types that are written as texts.
pub fn text_type_meanings()
    ensures { TextTypeMeaningsHold }
{}
