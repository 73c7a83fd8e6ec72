//! What parameters have set so far.
ghost use Rattle.std.specs.Prelude.{◌≡◌, ◌<◌, ◌++◌, ◌∷◌, ◌&&◌, ℕ, List, [], Some, None, false, length, is_some, IfOk, OnOk};
ghost use Rattle.std.specs.List.{list_any};
ghost use Rattle.linked_api.specs.FieldPaths.{is_singular as is_singular_shape};
ghost use Rattle.query_settings.specs.ParameterFaults.{chooses_other as chooses_other_of, clashes};
ghost use Rattle.query_settings.specs.QuerySettings.{Assignment, slot_of, targets_of};
ghost use Rattle.query_settings.specs.QuerySteps.{AreMembers, ArePlaces, IsPlaced, Stands, choices_made, extended, extended_at, is_another, number_at, place_in, with_item};
ghost use Rattle.query_settings.specs.QueryTargets.{Choice, choice_at, choices_from, choices_of, numbers_of};

use crate::targets::{Step, Target};
use base::{List, NoMemory};
use field_settings::Setting;
use linked_api::is_singular;
use schema::{Item, Shape, Slot};
use std::alloc::Global;
use std::collections::BTreeMap;

/// What parameters have set: the settings, with the place of each by its path, and the members of oneofs that were
/// chosen, each by the place of its oneof.
#[derive(Drop)]
pub(crate) struct Gathered {
    pub(crate) settings: Vec<Setting>,
    pub(crate) places: BTreeMap<Vec<u32>, usize>,
    pub(crate) members: BTreeMap<Vec<u32>, u32>,
}

/// Where a oneof stands: its index, and then the numbers on the way to its message.
fn place_of(alloc: Global, oneof: u32, way: &[u32]) -> Result<Vec<u32>, NoMemory>
    ensures { IfOk result (λ place. place.items ≡ oneof ∷ way.now) }
{
    let mut place = Vec::new(alloc);
    place.push(oneof)?;
    place.extend_from_slice(way)?;
    Ok(place)
}

/// Whether another member of the oneof at a place was chosen.
fn has_other(members: &BTreeMap<Vec<u32>, u32>, place: &[u32], member: u32) -> bool
    ensures { result ≡ is_another member (number_at members.now place.now) }
{
    match members.get(place) {
        Some(chosen) => member != *chosen,
        None => false,
    }
}

/// Whether a step behind these numbers chooses another member of a oneof than one that was chosen.
fn step_chooses_other(
    alloc: Global,
    members: &BTreeMap<Vec<u32>, u32>,
    way: &[u32],
    step: Step,
) -> Result<bool, NoMemory>
    ensures { (chosen : List Choice) → AreMembers members.now chosen
        → IfOk result (λ r. r ≡ chooses_other_of chosen (choice_at way.now step.number step.oneof)) }
{
    match step.oneof {
        Some(oneof) => {
            let place = place_of(alloc, oneof, way)?;
            Ok(has_other(members, place.as_slice(), step.number))
        }
        None => Ok(false),
    }
}

/// Whether a way chooses another member of a oneof than one that was chosen.
fn chooses_other(
    alloc: Global,
    members: &BTreeMap<Vec<u32>, u32>,
    steps: &[Step],
) -> Result<bool, NoMemory>
    ensures { (chosen : List Choice) → AreMembers members.now chosen
        → IfOk result (λ r. r ≡ chooses_other_of chosen (choices_from [] steps.now)) }
{
    let mut way = Vec::new(alloc);
    for step in steps {
        if step_chooses_other(alloc, members, way.as_slice(), *step)? {
            return Ok(true);
        }
        way.push(step.number)?;
    }
    Ok(false)
}

/// Keeps what a step behind these numbers chooses.
fn choose_step(
    alloc: Global,
    members: &mut BTreeMap<Vec<u32>, u32>,
    way: &[u32],
    step: Step,
) -> Result<(), NoMemory>
    ensures { (chosen : List Choice) → AreMembers members.old chosen
        → chooses_other_of chosen (choice_at way.now step.number step.oneof) ≡ false
        → OnOk result (AreMembers members.new (chosen ++ choice_at way.now step.number step.oneof)) }
{
    if let Some(oneof) = step.oneof {
        let place = place_of(alloc, oneof, way)?;
        members.insert(place, step.number)?;
    }
    Ok(())
}

/// Keeps what a way chooses.
fn choose(
    alloc: Global,
    members: &mut BTreeMap<Vec<u32>, u32>,
    steps: &[Step],
) -> Result<(), NoMemory>
    ensures { (chosen : List Choice) → AreMembers members.old chosen
        → chooses_other_of chosen (choices_from [] steps.now) ≡ false
        → OnOk result (AreMembers members.new (chosen ++ choices_from [] steps.now)) }
{
    let mut way = Vec::new(alloc);
    for step in steps {
        choose_step(alloc, members, way.as_slice(), *step)?;
        way.push(step.number)?;
    }
    Ok(())
}

/// The numbers of steps.
pub(crate) fn numbers_of(alloc: Global, steps: &[Step]) -> Result<Vec<u32>, NoMemory>
    ensures { IfOk result (λ numbers. numbers.items ≡ numbers_of steps.now) }
{
    let mut numbers = Vec::new(alloc);
    for step in steps {
        numbers.push(step.number)?;
    }
    Ok(numbers)
}

/// The slot of a field that is set first: a list has the one item.
fn slot_of(alloc: Global, shape: Shape, item: Item) -> Result<Slot, NoMemory>
    ensures { IfOk result (λ slot. slot ≡ slot_of shape item []) }
{
    match shape {
        Shape::Many => {
            let mut items = List::new(alloc);
            items.push(item)?;
            Ok(Slot::Many(items))
        }
        _ => Ok(Slot::One(item)),
    }
}

/// Appends an item to the slot of a list. Any other slot stays.
fn extend(slot: &mut Slot, item: Item) -> Result<(), NoMemory>
    ensures { OnOk result (slot.new ≡ extended slot.old item) }
{
    match slot {
        Slot::Many(items) => items.push(item),
        _ => Ok(()),
    }
}

/// Appends an item to the setting at a place.
fn extend_at(settings: &mut Vec<Setting>, place: usize, item: Item) -> Result<(), NoMemory>
    requires { place < length settings.old.items }
    ensures { OnOk result (settings.new.items ≡ extended_at settings.old.items place item) }
{
    let setting = &mut settings[place];
    extend(&mut setting.slot, item)?;
    Ok(())
}

/// Adds a setting, with its place by its path.
fn append(
    settings: &mut Vec<Setting>,
    places: &mut BTreeMap<Vec<u32>, usize>,
    path: Vec<u32>,
    setting: Setting,
) -> Result<(), NoMemory>
    requires path { path.items ≡ setting.path }
    requires places { ArePlaces places.old settings.old.items }
    requires absent { place_in settings.old.items path.items ≡ None }
    ensures settings { OnOk result (settings.new.items ≡ settings.old.items ++ setting ∷ []) }
    ensures places { OnOk result (ArePlaces places.new settings.new.items) }
{
    places.insert(path, settings.len())?;
    settings.push(setting)?;
    Ok(())
}

/// Whether a singular field at these numbers was set.
fn is_set(places: &BTreeMap<Vec<u32>, usize>, shape: Shape, numbers: &[u32]) -> bool
    ensures { result ≡ (is_singular_shape shape && is_some (number_at places.now numbers.now)) }
{
    is_singular(shape) && places.contains_key(numbers)
}

/// Adds an item to the setting of its field, or the setting of the field where it has none.
fn put_item(
    alloc: Global,
    settings: &mut Vec<Setting>,
    places: &mut BTreeMap<Vec<u32>, usize>,
    shape: Shape,
    numbers: Vec<u32>,
    item: Item,
) -> Result<(), NoMemory>
    requires { ArePlaces places.old settings.old.items }
    ensures settings { OnOk result (settings.new.items ≡ with_item settings.old.items shape numbers.items item) }
    ensures places { OnOk result (ArePlaces places.new settings.new.items) }
{
    let known = places.get(numbers.as_slice()).copied();
    if let Some(place) = known {
        extend_at(settings, place, item)?;
        return Ok(());
    }
    let setting = Setting {
        path: List::from_vec(Vec::from_slice(alloc, numbers.as_slice())?),
        slot: slot_of(alloc, shape, item)?,
    };
    append(settings, places, numbers, setting)?;
    Ok(())
}

impl Gathered {
    /// Nothing. Takes no memory.
    pub(crate) fn new(alloc: Global) -> Gathered
        ensures { Stands result [] }
    {
        Gathered {
            settings: Vec::new(alloc),
            places: BTreeMap::new(alloc),
            members: BTreeMap::new(alloc),
        }
    }

    /// Whether a singular field was set, or another member of a oneof on the way to the field.
    pub(crate) fn clashes(
        &self,
        alloc: Global,
        target: &Target,
        numbers: &[u32],
    ) -> Result<bool, NoMemory>
        ensures { (made : List Assignment) → Stands self.now made → numbers.now ≡ numbers_of target.now.steps
            → IfOk result (λ r. r ≡ list_any (clashes target.now) (targets_of made)) }
    {
        if is_set(&self.places, target.shape, numbers) {
            return Ok(true);
        }
        let other = chooses_other(alloc, &self.members, target.steps.as_slice())?;
        Ok(other)
    }

    /// Sets a field to an item, or a list to its items so far and this one.
    pub(crate) fn set(
        &mut self,
        alloc: Global,
        target: &Target,
        numbers: Vec<u32>,
        item: Item,
    ) -> Result<(), NoMemory>
        requires { IsPlaced self.old }
        ensures { (made : List Assignment) → Stands self.old made → numbers.items ≡ numbers_of target.now.steps
            → chooses_other_of (choices_made made) (choices_of target.now) ≡ false
            → OnOk result (Stands self.new (made ++ record { target = target.now; item = item } ∷ [])) }
    {
        choose(alloc, &mut self.members, target.steps.as_slice())?;
        put_item(
            alloc,
            &mut self.settings,
            &mut self.places,
            target.shape,
            numbers,
            item,
        )?;
        Ok(())
    }
}
