//! What has come of a message.
ghost use Rattle.std.specs.Prelude.{◌≡◌, IfOk, option_map};
ghost use Rattle.json_meanings.specs.PartialMessages.{empty_message, field_named, form_of, has_number, is_taken, oneofs_with, put_field, value_of};
ghost use Rattle.message_types.specs.Types.{fields_of};
ghost use Rattle.protojson_read.specs.MessageSeen.{form_seen, message_seen};

use base::NoMemory;
use field_index::{IndexedTypes, NumberList};
use schema::{Field, Kind, Presence, Shape, Slot, TypeId, Value};
use std::alloc::Global;

/// What the reading of a value needs of its field.
#[derive(Clone, Copy, Debug)]
pub(crate) struct FieldForm {
    /// The field's number.
    pub(crate) number: u32,
    /// What one value is.
    pub(crate) kind: Kind,
    /// How many there are.
    pub(crate) shape: Shape,
    /// Whether the default is told from absence.
    pub(crate) presence: Presence,
}

/// A message that has begun: the numbers of the fields that its keys named, the oneofs of which a member has a value,
/// and the value so far.
#[derive(Drop)]
pub(crate) struct PartialMessage {
    pub(crate) seen: NumberList,
    pub(crate) oneofs: NumberList,
    pub(crate) value: Value,
}

/// The form of a field.
pub(crate) fn form_of(field: &Field) -> FieldForm
    ensures { form_seen result ≡ form_of field.now }
{
    FieldForm {
        number: field.number,
        kind: field.kind,
        shape: field.shape,
        presence: field.presence,
    }
}

/// The form of the field that a key names, by its JSON name or by its name.
pub(crate) fn form_named(types: &IndexedTypes<'_>, id: TypeId, name: &str) -> Option<FieldForm>
    ensures { option_map form_seen result ≡ option_map form_of (field_named name.now (fields_of types.now id)) }
{
    match types.field_by_key(id, name.as_bytes()) {
        Some(field) => Some(form_of(field)),
        None => None,
    }
}

/// Keeps the oneof of which a field with this shape is a member.
fn keep_oneof(shape: Shape, oneofs: &mut NumberList) -> Result<(), NoMemory>
    ensures { IfOk result (λ r. oneofs.new ≡ oneofs_with shape oneofs.old) }
{
    match shape {
        Shape::Member(oneof) => oneofs.push(oneof),
        _ => Ok(()),
    }
}

impl PartialMessage {
    /// A message of which nothing has come. Takes no memory.
    pub(crate) fn new(alloc: Global) -> PartialMessage
        ensures { message_seen result ≡ empty_message }
    {
        PartialMessage {
            seen: NumberList::new(alloc),
            oneofs: NumberList::new(alloc),
            value: Value::new(alloc),
        }
    }

    /// Whether a key named the field of this number.
    pub(crate) fn is_seen(&self, number: u32) -> bool
        ensures { result ≡ has_number number (message_seen self.now).seen }
    {
        self.seen.has(number)
    }

    /// Whether another member of the oneof of a field with this shape has a value.
    pub(crate) fn is_taken(&self, shape: Shape) -> bool
        ensures { result ≡ is_taken (message_seen self.now) shape }
    {
        match shape {
            Shape::Member(oneof) => self.oneofs.has(oneof),
            _ => false,
        }
    }

    /// Adds a field that has a slot or is unset.
    pub(crate) fn put(&mut self, form: FieldForm, slot: Option<Slot>) -> Result<(), NoMemory>
        ensures { IfOk result (λ r. message_seen self.new ≡ put_field (message_seen self.old) (form_seen form) slot) }
    {
        self.seen.push(form.number)?;
        match slot {
            None => Ok(()),
            Some(slot) => {
                keep_oneof(form.shape, &mut self.oneofs)?;
                self.value.set(form.number, slot)
            }
        }
    }

    /// The message.
    pub(crate) fn into_value(self) -> Value
        ensures { result ≡ value_of (message_seen self) }
    {
        self.value
    }
}
