//! A whole body of JSON, read as a message.
ghost use Rattle.std.specs.Prelude.{◌≡◌, ◌≢◌, ℕ, List, [], Option, IfErr, Err, OnOk};
ghost use Rattle.message_types.specs.declared.messages.TypeId.{TypeId as TypeIdOf};
ghost use Rattle.json_bodies.specs.BodySteps.{HasTaken, HasTakenAll, IsBodyRefusal, IsFrontRefusal, of_text, of_token};
ghost use Rattle.json_meanings.specs.KnownReadings.{schema_of};
ghost use Rattle.json_bodies.specs.WholeMessages.{IsBodyAnswer, IsBodyReading};
ghost use Rattle.json_bodies.specs.declared.fault.BodyFault.TheVariants.{NoMemory};

use crate::fault::BodyFault;
use crate::laws::one_outcome_of_a_text;
use field_index::IndexedTypes;
use json_events::laws::{
    bytes_have_one_list_of_tokens, faults_have_the_place_of_the_longest_front,
    fronts_have_one_list_of_tokens, readers_stand_for_the_front_of_a_text,
};
use json_events::{JsonFault, Reader};
use json_meanings::laws::{brackets_nest_within_a_limit, texts_have_the_tokens_of_trees};
use protojson_read::laws::{
    taken_brackets_nest_within_a_limit, taken_tokens_have_no_fault, taken_trees_have_ended,
};
use protojson_read::{Builder, FieldFault};
use schema::{TypeId, Value};
use std::alloc::Global;

/// Reads these bytes, which end there, as the JSON text (RFC 8259, section 2) of a message of a type, or of its one
/// field with a number where the type has it, and gives the message; or the first fault: that of a token of the
/// longest front that begins a text; else that the bytes are no text, behind that front. The first byte stands at
/// `place`, which is added to each fault's offset, up to the last number of 64 bits.
pub fn read_body(
    alloc: Global,
    types: &IndexedTypes<'_>,
    id: TypeId,
    part: Option<u32>,
    bytes: &[u8],
    place: u64,
) -> Result<Value, BodyFault>
    ensures reading { IsBodyReading (schema_of types.now) id part place bytes.now result }
    ensures exact { result ≢ Err NoMemory
        → IsBodyAnswer (schema_of types.now) id part place bytes.now result }
{
    one_outcome_of_a_text();
    read_bytes(alloc, types, id, part, bytes, place)
}

/// Reads these bytes, of which the first stands at a place.
fn read_bytes(
    alloc: Global,
    types: &IndexedTypes<'_>,
    id: TypeId,
    part: Option<u32>,
    bytes: &[u8],
    place: u64,
) -> Result<Value, BodyFault>
    ensures { IsBodyReading (schema_of types.now) id part place bytes.now result }
{
    taken_trees_have_ended();
    readers_stand_for_the_front_of_a_text();
    let mut reader = Reader::new(alloc);
    let mut builder = Builder::new(alloc, types, id, part, place)?;
    take_all(&mut reader, &mut builder, types, bytes, place)?;
    end(&mut reader, &mut builder, types, place)?;
    Ok(builder.done())
}

/// The fault of a token, as that of a body.
fn field_fault(fault: FieldFault) -> BodyFault
    ensures { result ≡ of_token fault }
{
    match fault {
        FieldFault::At(at, kind) => BodyFault::Field(at, kind),
        FieldFault::NoMemory => BodyFault::NoMemory,
    }
}

/// The fault of bytes that are no text, as that of a body that stands at a place.
fn syntax_fault(place: u64, fault: JsonFault) -> BodyFault
    ensures { result ≡ of_text place fault }
{
    match fault {
        JsonFault::Syntax(at) | JsonFault::TooDeep(at) => {
            BodyFault::Syntax(place.saturating_add(at))
        }
        JsonFault::NoMemory => BodyFault::NoMemory,
    }
}

/// Takes the tokens that end in these bytes, up to the first fault that they show. The builder refuses what nests as
/// deep as the reader bears.
pub(crate) fn take_all(
    reader: &mut Reader,
    builder: &mut Builder,
    types: &IndexedTypes<'_>,
    bytes: &[u8],
    place: u64,
) -> Result<(), BodyFault>
    ensures ok { OnOk result ((id : TypeIdOf) (n : Option ℕ)
        → HasTaken reader.old builder.old (schema_of types.now) id n place bytes.now []
        → HasTaken reader.new builder.new (schema_of types.now) id n place bytes.now bytes.now) }
    ensures err { IfErr result (λ f. (id : TypeIdOf) (n : Option ℕ)
        → HasTaken reader.old builder.old (schema_of types.now) id n place bytes.now []
        → IsFrontRefusal (schema_of types.now) id n place bytes.now f) }
{
    taken_tokens_have_no_fault();
    taken_brackets_nest_within_a_limit();
    brackets_nest_within_a_limit();
    texts_have_the_tokens_of_trees();
    fronts_have_one_list_of_tokens();
    faults_have_the_place_of_the_longest_front();
    let mut rest = bytes;
    'taking: loop {
        let fed = match reader.feed(rest) {
            Ok(fed) => fed,
            Err(fault) => return Err(syntax_fault(place, fault)),
        };
        let taken = fed.taken;
        match fed.token {
            None => return Ok(()),
            Some(token) => {
                if let Err(fault) = builder.take(types, token) {
                    return Err(field_fault(fault));
                }
                rest = &rest[taken..];
            }
        }
    }
}

/// Ends the text, and takes the number that ends with it.
fn end(
    reader: &mut Reader,
    builder: &mut Builder,
    types: &IndexedTypes<'_>,
    place: u64,
) -> Result<(), BodyFault>
    ensures ok { OnOk result ((id : TypeIdOf) (n : Option ℕ) (bytes : List ℕ)
        → HasTaken reader.old builder.old (schema_of types.now) id n place bytes bytes
        → HasTakenAll builder.new (schema_of types.now) id n place bytes) }
    ensures err { IfErr result (λ f. (id : TypeIdOf) (n : Option ℕ) (bytes : List ℕ)
        → HasTaken reader.old builder.old (schema_of types.now) id n place bytes bytes
        → IsBodyRefusal (schema_of types.now) id n place bytes f) }
{
    taken_tokens_have_no_fault();
    texts_have_the_tokens_of_trees();
    bytes_have_one_list_of_tokens();
    readers_stand_for_the_front_of_a_text();
    match reader.finish() {
        Ok(None) => Ok(()),
        Ok(Some(token)) => match builder.take(types, token) {
            Ok(()) => Ok(()),
            Err(fault) => Err(field_fault(fault)),
        },
        Err(fault) => Err(syntax_fault(place, fault)),
    }
}
