//! Reading JSON as a message, one token after another.
ghost use Rattle.std.specs.Prelude.{◌≡◌, ◌↔◌, ◌++◌, ◌∷◌, ◌+◌, ℕ, List, [], Option, Result, Some, Err, IfOk, IfErr, IfSome, IsTrue};
ghost use Rattle.base.specs.Saturated.{saturated};
ghost use Rattle.json_events.specs.JsonTree.{Json, Mark};
ghost use Rattle.json_events.specs.ReaderAnswers.{mark_seen};
ghost use Rattle.json_meanings.specs.FieldFaults.{BeginsTree, tree_tokens};
ghost use Rattle.json_meanings.specs.JsonDenotes.{Denotes, alone, message_in, spot_of};
ghost use Rattle.json_meanings.specs.ReadingTurns.{Levels as LevelsOf};
ghost use Rattle.json_meanings.specs.declared.fault.FieldKind.{FieldKind as KindOf};
ghost use Rattle.json_meanings.specs.JsonScalars.{Schema};
ghost use Rattle.message_types.specs.declared.messages.TypeId.{TypeId as TypeIdOf};
ghost use Rattle.protojson_read.specs.BuilderReads.{HasEnded, HoldsValue, IsBehind, IsTokenFault, Keeps, KeepsNext, Reads, fault_by, kept_fault, refusal_of, root_spot};
ghost use Rattle.json_meanings.specs.KnownReadings.{schema_of};
ghost use Rattle.protojson_read.specs.SpotsSeen.{filled_seen, spot_seen};
ghost use Rattle.protojson_read.specs.TurnsSeen.{Turns, levels_seen};
ghost use Rattle.protojson_read.specs.declared.builder.State.TheVariants.{Ended};
ghost use Rattle.schema.specs.declared.value.Item.{out-Item};

use crate::fault::FieldFault;
use crate::partial_message::{FieldForm, PartialMessage, form_of};
use crate::refusal::Refusal;
use crate::spots::{Filled, Spot, item_of, slot_of};
use crate::turns::{Levels, Turn, step};
use base::NoMemory;
use field_index::IndexedTypes;
use json_events::{Spanned, Token};
use json_meanings::FieldKind;
use json_meanings::laws::readings_hold;
use schema::{Item, TypeId, Value};
use std::alloc::Global;
use std::mem;

/// How many levels a message has at most, itself counted; its fields have one less.
const LEVELS: u8 = 100;

/// What is kept of the tokens so far.
#[derive(Drop)]
enum State {
    /// The value has not ended, and this is open.
    Open(Levels),
    /// The value has ended.
    Ended(Value),
    /// A token was refused.
    Refused(FieldFault),
}

/// Reads a message, or one field of it, from the tokens of its JSON. A builder that refused once answers the same to
/// every later `take`. It keeps what has been read, and a spot for each bracket that is open.
#[derive(Drop)]
pub struct Builder {
    alloc: Global,
    part: Option<FieldForm>,
    place: u64,
    state: State,
}

/// The form of the field with a number, where one is asked for and the type has it.
fn form_at(types: &IndexedTypes<'_>, id: TypeId, part: Option<u32>) -> Option<FieldForm>
    ensures { root_spot id result ≡ spot_of (schema_of types.now) id part }
{
    match types.field_by_number(id, part?) {
        Some(field) => Some(form_of(field)),
        None => None,
    }
}

/// The message of an item; no other is asked for its message.
fn message_in(alloc: Global, item: Item) -> Value
    ensures { result ≡ message_in (out-Item item) }
{
    match item {
        Item::Message(value) => value,
        _ => Value::new(alloc),
    }
}

/// The message of what fills the spot that stands alone.
fn alone(alloc: Global, part: Option<FieldForm>, filled: Filled) -> Result<Value, NoMemory>
    ensures { (id : TypeIdOf) → IfOk result (λ v. v ≡ alone (root_spot id part) (filled_seen filled)) }
{
    match part {
        None => Ok(message_in(alloc, item_of(filled))),
        Some(form) => {
            let mut message = PartialMessage::new(alloc);
            message.put(form, slot_of(form, filled))?;
            Ok(message.into_value())
        }
    }
}

/// The spot at which a value stands alone.
fn root_spot(id: TypeId, part: Option<FieldForm>) -> Spot
    ensures { spot_seen result ≡ root_spot id part }
{
    match part {
        None => Spot::Whole(LEVELS, id),
        Some(form) => Spot::Part(LEVELS - 1, form),
    }
}

/// What is kept of what is open.
#[tactic(auto, using(crate::proofs::BuilderLemmas::kept_value, crate::proofs::BuilderLemmas::kept_open))]
fn state_of(alloc: Global, part: Option<FieldForm>, levels: Levels) -> Result<State, NoMemory>
    ensures { IfOk result (λ s. Keeps part s (levels_seen levels)) }
{
    let Levels { turn, around } = levels;
    match turn {
        Turn::HasEnded(filled) => Ok(State::Ended(alone(alloc, part, filled)?)),
        turn => Ok(State::Open(Levels { turn, around })),
    }
}

/// What is kept behind a token.
fn state_behind(
    alloc: Global,
    part: Option<FieldForm>,
    read: Result<Levels, Refusal>,
) -> Result<State, Refusal>
    ensures { (r : Result LevelsOf KindOf) → Turns read r → KeepsNext part result r }
{
    match read {
        Ok(levels) => Ok(state_of(alloc, part, levels)?),
        Err(refusal) => Err(refusal),
    }
}

/// The fault of a token that begins at a place.
fn fault_at(place: u64, refusal: Refusal) -> FieldFault
    ensures { result ≡ fault_by place refusal }
{
    match refusal {
        Refusal::Fault(kind) => FieldFault::At(place, kind),
        Refusal::NoMemory => FieldFault::NoMemory,
    }
}

/// What is kept behind the next token, which begins at a place.
#[tactic(auto, using(crate::proofs::BuilderLemmas::taken))]
fn next_state(
    alloc: Global,
    types: &IndexedTypes<'_>,
    part: Option<FieldForm>,
    state: State,
    place: u64,
    token: Token,
) -> Result<State, FieldFault>
    ensures ok { (id : TypeIdOf) (n : Option ℕ) (ts : List Mark) → IsBehind part state (schema_of types.now) id n ts
        → IfOk result (λ s. IsBehind part s (schema_of types.now) id n (ts ++ mark_seen token ∷ [])) }
    ensures err { (id : TypeIdOf) (n : Option ℕ) (ts : List Mark) → IsBehind part state (schema_of types.now) id n ts
        → BeginsTree (ts ++ mark_seen token ∷ [])
        → IfErr result (λ f. IsTokenFault f place (schema_of types.now) id n ts (mark_seen token)) }
    ensures sticky { IfSome (kept_fault state) (λ f. result ≡ Err f) }
{
    readings_hold();
    match state {
        State::Open(levels) => match state_behind(alloc, part, step(alloc, types, levels, token)) {
            Ok(state) => Ok(state),
            Err(refusal) => Err(fault_at(place, refusal)),
        },
        State::Ended(_) => Err(FieldFault::At(place, FieldKind::WrongShape)),
        State::Refused(fault) => Err(fault),
    }
}

/// Whether a value is kept.
fn holds_value(state: &State) -> bool
    ensures { IsTrue result ↔ HoldsValue state.now }
{
    match state {
        State::Ended(_) => true,
        State::Open(_) | State::Refused(_) => false,
    }
}

/// The value that is kept.
fn value_in(state: State) -> Value
    requires { HoldsValue state }
    ensures { state ≡ Ended result }
{
    match state {
        State::Ended(value) => value,
        _ => unreachable!(),
    }
}

impl Builder {
    /// Begins to read a message of a type, or only the value of its field with a number, where the type has one.
    /// `place` is added to the places of faults. Takes no memory.
    #[tactic(auto, using(crate::proofs::BuilderLemmas::begun))]
    pub fn new(
        alloc: Global,
        types: &IndexedTypes<'_>,
        id: TypeId,
        part: Option<u32>,
        place: u64,
    ) -> Result<Builder, NoMemory>
        ensures reads { IfOk result (λ b. Reads b (schema_of types.now) id part place []) }
    {
        let part = form_at(types, id, part);
        let turn = Turn::WantsValue(root_spot(id, part));
        let around = Vec::new(alloc);
        Ok(Builder {
            alloc,
            part,
            place,
            state: State::Open(Levels { turn, around }),
        })
    }

    /// Takes the next token, or refuses it with the first fault of the tokens, at its place: the builder's place and
    /// the offset of the token's first byte, added in 64 bits, or the last number of 64 bits where the sum is past it.
    /// What was read is dropped then, and the builder answers the same to every later `take`. `types` are those of
    /// `new`.
    pub fn take(&mut self, types: &IndexedTypes<'_>, token: Spanned) -> Result<(), FieldFault>
        ensures ok { (id : TypeIdOf) (n : Option ℕ) (place : ℕ) (ts : List Mark)
            → Reads self.old (schema_of types.now) id n place ts
            → IfOk result (λ r. Reads self.new (schema_of types.now) id n place (ts ++ mark_seen token.token ∷ [])) }
        ensures err { (id : TypeIdOf) (n : Option ℕ) (place : ℕ) (ts : List Mark)
            → Reads self.old (schema_of types.now) id n place ts
            → BeginsTree (ts ++ mark_seen token.token ∷ [])
            → IfErr result (λ f. IsTokenFault f (saturated (place + token.from)) (schema_of types.now) id n ts
            (mark_seen token.token)) }
        ensures sticky { IfSome (refusal_of self.old) (λ f. result ≡ Err f) }
        ensures refused { IfErr result (λ f. refusal_of self.new ≡ Some f) }
    {
        let place = self.place.saturating_add(token.from);
        let state = mem::replace(&mut self.state, State::Refused(FieldFault::NoMemory));
        match next_state(self.alloc, types, self.part, state, place, token.token) {
            Ok(state) => {
                self.state = state;
                Ok(())
            }
            Err(fault) => {
                self.state = State::Refused(fault);
                Err(fault)
            }
        }
    }

    /// True where the value has ended. Takes no memory.
    pub fn whole(&self) -> bool
        ensures ended { IsTrue result ↔ HasEnded self.now }
        ensures tokens { (c : Schema) (id : TypeIdOf) (n : Option ℕ) (place : ℕ) (ts : List Mark)
            → Reads self.now c id n place ts
            → BeginsTree ts → IsTrue result ↔ ((j : Json) × (tree_tokens j ≡ ts)) }
    {
        readings_hold();
        holds_value(&self.state)
    }

    /// The message that has been read: with a part, one that holds that field alone, or nothing where it is unset, or
    /// empty, or a default that is not told from absence.
    pub fn done(self) -> Value
        requires whole { HasEnded self }
        ensures { (c : Schema) (id : TypeIdOf) (n : Option ℕ) (place : ℕ) (j : Json)
            → Reads self c id n place (tree_tokens j)
            → Denotes c id n j result }
    {
        readings_hold();
        value_in(self.state)
    }
}
