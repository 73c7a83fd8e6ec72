//! The bytes of a longer body, read for the first fault that they show before they end.
ghost use Rattle.std.specs.Prelude.{◌≢◌, Err};
ghost use Rattle.json_bodies.specs.FrontFaults.{IsFrontAnswer, IsFrontReading};
ghost use Rattle.json_bodies.specs.declared.fault.BodyFault.TheVariants.{NoMemory};
ghost use Rattle.json_meanings.specs.KnownReadings.{schema_of};

use crate::fault::BodyFault;
use crate::laws::{one_front_fault, sound_fronts_show_no_fault};
use crate::whole_message::take_all;
use field_index::IndexedTypes;
use json_events::Reader;
use json_events::laws::readers_stand_for_the_front_of_a_text;
use protojson_read::Builder;
use protojson_read::laws::taken_tokens_have_no_fault;
use schema::TypeId;
use std::alloc::Global;

/// Reads these bytes, which need not end there, as the first of a JSON text (RFC 8259, section 2) of a message of a
/// type, or of its one field with a number where the type has it, and refuses them with the first fault that they show,
/// whatever follows: that of a token that has ended in them, or that of a byte with which no text goes on. A number has
/// ended once a byte behind it has come. The first byte stands at `place`, which is added to each fault's offset, up to
/// the last number of 64 bits.
pub fn read_front(
    alloc: Global,
    types: &IndexedTypes<'_>,
    id: TypeId,
    part: Option<u32>,
    bytes: &[u8],
    place: u64,
) -> Result<(), BodyFault>
    ensures reading { IsFrontReading (schema_of types.now) id part place bytes.now result }
    ensures exact { result ≢ Err NoMemory
        → IsFrontAnswer (schema_of types.now) id part place bytes.now result }
{
    one_front_fault();
    take_front(alloc, types, id, part, bytes, place)
}

/// Reads these bytes, of which the first stands at a place.
fn take_front(
    alloc: Global,
    types: &IndexedTypes<'_>,
    id: TypeId,
    part: Option<u32>,
    bytes: &[u8],
    place: u64,
) -> Result<(), BodyFault>
    ensures { IsFrontReading (schema_of types.now) id part place bytes.now result }
{
    taken_tokens_have_no_fault();
    sound_fronts_show_no_fault();
    readers_stand_for_the_front_of_a_text();
    let mut reader = Reader::new(alloc);
    let mut builder = Builder::new(alloc, types, id, part, place)?;
    take_all(&mut reader, &mut builder, types, bytes, place)
}
