//! Worked examples, as laws.
ghost use Rattle.json_meanings.specs.TextTypes.{IsTextType};
ghost use Rattle.message_types.specs.declared.messages.Known.{Known as KnownOf};
ghost use Rattle.protojson_write.specs.KnownParts.{KnownTexts};
ghost use Rattle.protojson_write.specs.KnownPlaces.{PlacesHold, UnprintablePlacesHold};
ghost use Rattle.protojson_write.specs.OutputExamples.{MessageExamplesHold, PartExamplesHold, ScalarExamplesHold};
ghost use Rattle.protojson_write.specs.ShownExamples.{ShownFieldsHold, ShownMessagesHold};

use json_meanings::examples::bytes_meanings;
use known_types::examples::bytes_examples;

/// The texts of messages: of a book, of maps of each kind of key, and of messages in messages.
pub fn message_examples()
    ensures { MessageExamplesHold }
{
    bytes_examples();
}

/// The texts of scalars: numbers of 32 and 64 bits, strings with escapes, bytes, and enums with and without a name.
pub fn scalar_examples()
    ensures { ScalarExamplesHold }
{}

/// The texts of single fields, present and absent.
pub fn part_examples()
    ensures { PartExamplesHold }
{
    bytes_examples();
}

/// Timestamps, durations and field masks in each place where one may stand, whatever their texts are: with texts, they
/// stand in quotes; where one has none, nothing around it has one.
pub fn place_examples()
    ensures shown { (texts : KnownTexts) (known : KnownOf) → IsTextType known → PlacesHold texts known }
    ensures unprintable { (texts : KnownTexts) (known : KnownOf) → IsTextType known
        → UnprintablePlacesHold texts known }
{}

/// Values that are shown, and the trees of their texts, which are read as the values again.
pub fn shown_examples()
    ensures messages { ShownMessagesHold }
    ensures fields { ShownFieldsHold }
{
    bytes_examples();
    bytes_meanings();
}
