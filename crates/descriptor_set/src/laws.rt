//! Laws of what is read of a set. Each is the contract of a function that calls the laws that it
//! follows from.
ghost use Rattle.descriptor_set.specs.ListedContents.{IsReadAsListed};
ghost use Rattle.descriptor_set.specs.NothingLost.{NoLevelIsLost, NoNumberIsLost};

use wire_format::laws::{decoded_values_are_valid, decodes_without_fault};

/// Nothing of a set that is decoded is lost: no nested message, no nested rule, and no number.
pub fn nothing_is_lost()
    ensures levels { NoLevelIsLost }
    ensures numbers { NoNumberIsLost }
{
    decodes_without_fault();
    decoded_values_are_valid();
}

/// What is read of a set that is decoded is what it lists: of each listed field its text, number,
/// truth value, message or messages, and nothing where it is absent; of a rule the one pattern that
/// stands.
pub fn what_is_read_is_what_is_listed()
    ensures { IsReadAsListed }
{
    decodes_without_fault();
    decoded_values_are_valid();
}
