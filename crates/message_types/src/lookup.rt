//! Looking up what is declared.
ghost use Rattle.std.specs.Prelude.{◌≡◌};
ghost use Rattle.std.specs.Option.{option_copied};
ghost use Rattle.message_types.specs.Types.{field_in, fields_of};

use crate::fields::Field;
use crate::messages::{TypeId, Types};

impl Types {
    /// The fields of a message type, in declared order; none where there is no such type.
    pub fn fields(&self, id: TypeId) -> &[Field]
        ensures { result.now ≡ fields_of self.now id }
    {
        match self.messages.get(id.0 as usize) {
            Some(message) => message.fields.as_slice(),
            None => &[],
        }
    }
}

/// The field with a number: the first that has it.
pub fn find_field(fields: &[Field], number: u32) -> Option<&Field>
    ensures { option_copied result ≡ field_in fields.now number }
{
    for field in fields {
        if field.number == number {
            return Some(field);
        }
    }
    None
}
