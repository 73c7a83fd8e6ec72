//! The fields of message types by their names in JSON and by their numbers, and the values of enums by their names and
//! by their numbers: each is found in the logarithm of their number.
//!
//! `IndexedTypes` is made once of `Types`, and contracts see it as these. It looks up and judges nothing: where two
//! fields have one name or one number, the first in declared order is found, as `message_types` and `json_meanings`
//! define it. `NumberList` tells whether a number came before. Begin with `IndexedTypes`.
#![tactic(auto)]

mod indexed_enums;
mod indexed_fields;
mod indexed_types;
mod number_list;

pub use indexed_enums::IndexedEnum;
pub use indexed_fields::IndexedFields;
pub use indexed_types::IndexedTypes;
pub use number_list::NumberList;
