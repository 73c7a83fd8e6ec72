//! What is open, and what one token does to it.
ghost use Rattle.std.specs.Prelude.{◌≡◌, ◌∷◌, IfOk, Ok, Result};
ghost use Rattle.json_events.specs.ReaderAnswers.{mark_seen};
ghost use Rattle.json_meanings.specs.ReadingTurns.{array_turn, close, give, given, object_turn, step, turn_behind, value_turn};
ghost use Rattle.json_meanings.specs.ReadingSpots.{Filled as FilledOf};
ghost use Rattle.json_meanings.specs.declared.fault.FieldKind.{FieldKind as KindOf};
ghost use Rattle.json_meanings.specs.KnownReadings.{schema_of};
ghost use Rattle.protojson_read.specs.SpotsSeen.{array_seen, filled_seen, object_seen, spot_seen};
ghost use Rattle.protojson_read.specs.TokenAnswers.{Fills};
ghost use Rattle.protojson_read.specs.TurnsSeen.{Turns, around_seen, levels_seen, turn_seen};
ghost use Rattle.protojson_read.specs.declared.spots.Spot.TheVariants as spots;

use crate::partial_message::{FieldForm, PartialMessage};
use crate::refusal::Refusal;
use crate::spots::{Filled, OpenArray, OpenObject, Spot, item_of, object_value, slot_of};
use crate::tables::{fills, names_spot, opens_array, opens_object};
use base::NoMemory;
use field_index::IndexedTypes;
use json_events::Token;
use json_meanings::FieldKind;
use schema::TypeId;
use std::alloc::Global;

/// What may come next.
#[derive(Drop)]
pub(crate) enum Turn {
    /// A value at a spot.
    WantsValue(Spot),
    /// An item or the end of an array.
    InArray(OpenArray),
    /// A key or the end of an object.
    InObject(OpenObject),
    /// Nothing: the value has ended.
    HasEnded(Filled),
}

/// What is open: what may come next in the inmost, and the spots of what is around it, the inmost last.
#[derive(Drop)]
pub(crate) struct Levels {
    pub(crate) turn: Turn,
    pub(crate) around: Vec<Spot>,
}

/// What may come behind the value of a field.
fn behind_member(
    levels: u8,
    id: TypeId,
    message: PartialMessage,
    form: FieldForm,
    filled: Filled,
) -> Result<Turn, NoMemory>
    ensures { IfOk result (λ t. turn_seen t
        ≡ turn_behind (filled_seen filled) (spot_seen (spots.Member levels id message form))) }
{
    let mut message = message;
    message.put(form, slot_of(form, filled))?;
    Ok(Turn::InObject(OpenObject::Message(levels, id, message)))
}

/// What may come behind a value that has ended at a spot.
fn turn_behind(filled: Filled, spot: Spot) -> Result<Turn, NoMemory>
    ensures { IfOk result (λ t. turn_seen t ≡ turn_behind (filled_seen filled) (spot_seen spot)) }
{
    match spot {
        Spot::Whole(_, _) | Spot::Part(_, _) => Ok(Turn::HasEnded(filled)),
        Spot::Member(levels, id, message, form) => {
            behind_member(levels, id, message, form, filled)
        }
        Spot::Entry(levels, scalar, kind, entries, key) => {
            let mut entries = entries;
            entries.put(key, item_of(filled))?;
            Ok(Turn::InObject(OpenObject::Map(levels, scalar, kind, entries)))
        }
        Spot::Element(array) => {
            let mut array = array;
            array.items.push(item_of(filled))?;
            Ok(Turn::InArray(array))
        }
    }
}

/// A value has ended at a spot.
fn give(filled: Filled, spot: Spot, around: Vec<Spot>) -> Result<Levels, Refusal>
    ensures { Turns result (Ok (give (filled_seen filled) (spot_seen spot) (around_seen around.items))) }
{
    let turn = turn_behind(filled, spot)?;
    Ok(Levels { turn, around })
}

/// A token without brackets fills a spot.
fn given(read: Result<Filled, Refusal>, spot: Spot, around: Vec<Spot>) -> Result<Levels, Refusal>
    ensures { (r : Result FilledOf KindOf) → Fills read r
        → Turns result (given (spot_seen spot) (around_seen around.items) r) }
{
    match read {
        Ok(filled) => give(filled, spot, around),
        Err(refusal) => Err(refusal),
    }
}

/// A bracket closes what has come to this, at the inmost of the spots around.
fn close(filled: Filled, around: Vec<Spot>) -> Result<Levels, Refusal>
    ensures { Turns result (close (filled_seen filled) (around_seen around.items)) }
{
    let mut around = around;
    match around.pop() {
        None => Err(Refusal::Fault(FieldKind::WrongShape)),
        Some(spot) => give(filled, spot, around),
    }
}

/// The spots around what a bracket opens at a spot.
fn around_with(around: Vec<Spot>, spot: Spot) -> Result<Vec<Spot>, NoMemory>
    ensures { IfOk result (λ spots. around_seen spots.items ≡ spot_seen spot ∷ around_seen around.items) }
{
    let mut around = around;
    around.push(spot)?;
    Ok(around)
}

/// A token where a value is wanted.
#[tactic(auto, using(crate::proofs::BuilderLemmas::filling))]
fn value_turn(
    alloc: Global,
    types: &IndexedTypes<'_>,
    spot: Spot,
    around: Vec<Spot>,
    token: Token,
) -> Result<Levels, Refusal>
    ensures { Turns result
        (value_turn (schema_of types.now) (spot_seen spot) (around_seen around.items) (mark_seen token)) }
{
    match token {
        Token::BeginArray => {
            let turn = Turn::InArray(opens_array(alloc, &spot)?);
            let around = around_with(around, spot)?;
            Ok(Levels { turn, around })
        }
        Token::BeginObject => {
            let turn = Turn::InObject(opens_object(alloc, types, &spot)?);
            let around = around_with(around, spot)?;
            Ok(Levels { turn, around })
        }
        token => {
            let read = fills(alloc, types, &spot, token);
            given(read, spot, around)
        }
    }
}

/// A token in an array.
#[tactic(auto, using(crate::proofs::BuilderLemmas::in_array_filling))]
fn array_turn(
    alloc: Global,
    types: &IndexedTypes<'_>,
    array: OpenArray,
    around: Vec<Spot>,
    token: Token,
) -> Result<Levels, Refusal>
    ensures { Turns result
        (array_turn (schema_of types.now) (array_seen array) (around_seen around.items) (mark_seen token)) }
{
    match token {
        Token::EndArray | Token::EndObject => close(Filled::Many(array.items), around),
        token => value_turn(alloc, types, Spot::Element(array), around, token),
    }
}

/// A token in an object.
fn object_turn(
    alloc: Global,
    types: &IndexedTypes<'_>,
    object: OpenObject,
    around: Vec<Spot>,
    token: Token,
) -> Result<Levels, Refusal>
    ensures { Turns result
        (object_turn (schema_of types.now) (object_seen object) (around_seen around.items) (mark_seen token)) }
{
    match token {
        Token::EndArray | Token::EndObject => close(object_value(alloc, object)?, around),
        Token::Key(name) => {
            let turn = Turn::WantsValue(names_spot(alloc, types, object, name)?);
            Ok(Levels { turn, around })
        }
        _ => Err(Refusal::Fault(FieldKind::WrongShape)),
    }
}

/// One token.
pub(crate) fn step(
    alloc: Global,
    types: &IndexedTypes<'_>,
    levels: Levels,
    token: Token,
) -> Result<Levels, Refusal>
    ensures { Turns result (step (schema_of types.now) (levels_seen levels) (mark_seen token)) }
{
    let Levels { turn, around } = levels;
    match turn {
        Turn::WantsValue(spot) => value_turn(alloc, types, spot, around, token),
        Turn::InArray(array) => array_turn(alloc, types, array, around, token),
        Turn::InObject(object) => object_turn(alloc, types, object, around, token),
        Turn::HasEnded(_) => Err(Refusal::Fault(FieldKind::WrongShape)),
    }
}
