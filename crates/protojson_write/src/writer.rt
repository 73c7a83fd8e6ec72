//! Appending messages: fields by rising number, entries of maps by rising key, and no white space. A part may stand
//! where a write is refused.
ghost use Rattle.std.specs.Prelude.{◌≡◌, ◌++◌, ◌+◌, ◌≤◌, ◌∷◌, [], ℕ, length, OnOk, OnErr, IfErr};
ghost use Rattle.std.specs.Option.{option_copied};
ghost use Rattle.base.specs.Extends.{Extends};
ghost use Rattle.json_events.specs.StringOutput.{json_string};
ghost use Rattle.message_types.specs.Types.{field_in, fields_of};
ghost use Rattle.schema.specs.Value.{slot_at};
ghost use Rattle.schema.specs.declared.value.Item.{out-Item};
ghost use Rattle.schema.specs.declared.value.Slot.{out-Slot, Slot as SlotOf};
ghost use Rattle.protojson_write.specs.JsonOutput.{absent_text, array_text, object_text, single_default};
ghost use Rattle.protojson_write.specs.ShowAnswers.{IsStop};
ghost use Rattle.protojson_write.specs.WriterTexts.{MayStop, entry_of, item_of, items_of, member_of, members_of, message_of, object_of, other_items_of, other_members_of, other_pairs_of, pairs_of, part_of, slot_of};

use crate::absent::put_absent;
use crate::fault::ShowFault;
use crate::known::{find_known, put_known};
use crate::room::put_comma;
use crate::scalars::{put_key, put_scalar};
use crate::within::Within;
use field_index::{IndexedFields, IndexedTypes};
use json_events::put_string;
use schema::{Field, Item, Key, Kind, Known, Slot, TypeId, Value};

/// Appends an item.
#[cycle(put)]
fn put_item(
    out: &mut Vec<u8>,
    within: Within<'_, '_>,
    kind: Kind,
    item: &Item,
) -> Result<(), ShowFault>
    ensures ok { OnOk result (out.new.items ≡ out.old.items ++ item_of within.entry kind item.now) }
    ensures err { OnErr result (Extends out.old.items out.new.items) }
    ensures stop { MayStop within.entry out.old.items (item_of within.entry kind item.now) result }
{
    match (kind, item) {
        (Kind::One(scalar), _) => Ok(put_scalar(out, within.types, scalar, item)?),
        (Kind::Message(id), Item::Message(value)) => put_message(out, within, id, value),
        _ => Ok(()),
    }
}

/// Appends items behind a first one.
#[cycle(put)]
fn put_other_items(
    out: &mut Vec<u8>,
    within: Within<'_, '_>,
    kind: Kind,
    items: &[Item],
) -> Result<(), ShowFault>
    ensures ok { OnOk result (out.new.items ≡ out.old.items ++ other_items_of within.entry kind items.now) }
    ensures err { OnErr result (Extends out.old.items out.new.items) }
    ensures stop { MayStop within.entry out.old.items (other_items_of within.entry kind items.now) result }
{
    for item in items {
        put_comma(out, within)?;
        put_item(out, within, kind, item)?;
    }
    Ok(())
}

/// Appends items with commas between them.
#[cycle(put)]
fn put_items(
    out: &mut Vec<u8>,
    within: Within<'_, '_>,
    kind: Kind,
    items: &[Item],
) -> Result<(), ShowFault>
    ensures ok { OnOk result (out.new.items ≡ out.old.items ++ items_of within.entry kind items.now) }
    ensures err { OnErr result (Extends out.old.items out.new.items) }
    ensures stop { MayStop within.entry out.old.items (items_of within.entry kind items.now) result }
{
    let Some((first, rest)) = items.split_first() else {
        return Ok(());
    };
    put_item(out, within, kind, first)?;
    put_other_items(out, within, kind, rest)
}

/// Appends an array.
#[cycle(put)]
fn put_array(
    out: &mut Vec<u8>,
    within: Within<'_, '_>,
    kind: Kind,
    items: &[Item],
) -> Result<(), ShowFault>
    ensures ok { OnOk result (out.new.items ≡ out.old.items ++ array_text (items_of within.entry kind items.now)) }
    ensures err { OnErr result (Extends out.old.items out.new.items) }
    ensures stop { MayStop within.entry out.old.items (array_text (items_of within.entry kind items.now)) result }
{
    out.push(b'[')?;
    put_items(out, within, kind, items)?;
    out.push(b']')?;
    Ok(())
}

/// Appends an entry of a map.
#[cycle(put)]
fn put_entry(
    out: &mut Vec<u8>,
    within: Within<'_, '_>,
    kind: Kind,
    key: &Key,
    item: &Item,
) -> Result<(), ShowFault>
    ensures ok { OnOk result (out.new.items ≡ out.old.items ++ entry_of within.entry kind (key.now, item.now)) }
    ensures err { OnErr result (Extends out.old.items out.new.items) }
    ensures stop { MayStop within.entry out.old.items (entry_of within.entry kind (key.now, item.now)) result }
{
    put_key(out, key)?;
    out.push(b':')?;
    put_item(out, within, kind, item)
}

/// Appends entries behind a first one.
#[cycle(put)]
fn put_other_entries(
    out: &mut Vec<u8>,
    within: Within<'_, '_>,
    kind: Kind,
    entries: &[(Key, Item)],
) -> Result<(), ShowFault>
    ensures ok { OnOk result (out.new.items ≡ out.old.items ++ other_pairs_of within.entry kind entries.now) }
    ensures err { OnErr result (Extends out.old.items out.new.items) }
    ensures stop { MayStop within.entry out.old.items (other_pairs_of within.entry kind entries.now) result }
{
    for (key, item) in entries {
        put_comma(out, within)?;
        put_entry(out, within, kind, key, item)?;
    }
    Ok(())
}

/// Appends entries with commas between them.
#[cycle(put)]
fn put_entries(
    out: &mut Vec<u8>,
    within: Within<'_, '_>,
    kind: Kind,
    entries: &[(Key, Item)],
) -> Result<(), ShowFault>
    ensures ok { OnOk result (out.new.items ≡ out.old.items ++ pairs_of within.entry kind entries.now) }
    ensures err { OnErr result (Extends out.old.items out.new.items) }
    ensures stop { MayStop within.entry out.old.items (pairs_of within.entry kind entries.now) result }
{
    let Some((first, rest)) = entries.split_first() else {
        return Ok(());
    };
    put_entry(out, within, kind, &first.0, &first.1)?;
    put_other_entries(out, within, kind, rest)
}

/// Appends a map.
#[cycle(put)]
fn put_map(
    out: &mut Vec<u8>,
    within: Within<'_, '_>,
    kind: Kind,
    entries: &[(Key, Item)],
) -> Result<(), ShowFault>
    ensures ok { OnOk result (out.new.items ≡ out.old.items ++ object_text (pairs_of within.entry kind entries.now)) }
    ensures err { OnErr result (Extends out.old.items out.new.items) }
    ensures stop { MayStop within.entry out.old.items (object_text (pairs_of within.entry kind entries.now)) result }
{
    out.push(b'{')?;
    put_entries(out, within, kind, entries)?;
    out.push(b'}')?;
    Ok(())
}

/// Appends a slot.
#[cycle(put)]
fn put_slot(
    out: &mut Vec<u8>,
    within: Within<'_, '_>,
    kind: Kind,
    slot: &Slot,
) -> Result<(), ShowFault>
    ensures ok { OnOk result (out.new.items ≡ out.old.items ++ slot_of within.entry kind slot.now) }
    ensures err { OnErr result (Extends out.old.items out.new.items) }
    ensures stop { MayStop within.entry out.old.items (slot_of within.entry kind slot.now) result }
{
    match slot {
        Slot::One(item) => put_item(out, within, kind, item),
        Slot::Many(items) => put_array(out, within, kind, items.as_slice()),
        Slot::Pairs(pairs) => put_map(out, within, kind, pairs.entries()),
    }
}

/// Appends a member of an object.
#[cycle(put)]
fn put_member(
    out: &mut Vec<u8>,
    within: Within<'_, '_>,
    field: Option<&Field>,
    slot: &Slot,
) -> Result<(), ShowFault>
    ensures ok { OnOk result (out.new.items ≡ out.old.items ++ member_of within.entry field.entry slot.now) }
    ensures err { OnErr result (Extends out.old.items out.new.items) }
    ensures stop { MayStop within.entry out.old.items (member_of within.entry field.entry slot.now) result }
{
    let Some(field) = field else { return Ok(()) };
    put_string(out, &field.json)?;
    out.push(b':')?;
    put_slot(out, within, field.kind, slot)
}

/// Appends members behind a first one.
#[cycle(put)]
fn put_other_members(
    out: &mut Vec<u8>,
    within: Within<'_, '_>,
    fields: &IndexedFields<'_>,
    slots: &[(u32, Slot)],
) -> Result<(), ShowFault>
    ensures ok { OnOk result (out.new.items ≡ out.old.items ++ other_members_of within.entry fields.now slots.now) }
    ensures err { OnErr result (Extends out.old.items out.new.items) }
    ensures stop { MayStop within.entry out.old.items (other_members_of within.entry fields.now slots.now) result }
{
    for (number, slot) in slots {
        put_comma(out, within)?;
        put_member(out, within, fields.by_number(*number), slot)?;
    }
    Ok(())
}

/// Appends members with commas between them.
#[cycle(put)]
fn put_members(
    out: &mut Vec<u8>,
    within: Within<'_, '_>,
    fields: &IndexedFields<'_>,
    slots: &[(u32, Slot)],
) -> Result<(), ShowFault>
    ensures ok { OnOk result (out.new.items ≡ out.old.items ++ members_of within.entry fields.now slots.now) }
    ensures err { OnErr result (Extends out.old.items out.new.items) }
    ensures stop { MayStop within.entry out.old.items (members_of within.entry fields.now slots.now) result }
{
    let Some((first, rest)) = slots.split_first() else {
        return Ok(());
    };
    put_member(out, within, fields.by_number(first.0), &first.1)?;
    put_other_members(out, within, fields, rest)
}

/// Appends an object.
#[cycle(put)]
fn put_object(
    out: &mut Vec<u8>,
    within: Within<'_, '_>,
    fields: &IndexedFields<'_>,
    slots: &[(u32, Slot)],
) -> Result<(), ShowFault>
    ensures ok { OnOk result (out.new.items ≡ out.old.items ++ object_of within.entry fields.now slots.now) }
    ensures err { OnErr result (Extends out.old.items out.new.items) }
    ensures stop { MayStop within.entry out.old.items (object_of within.entry fields.now slots.now) result }
{
    out.push(b'{')?;
    put_members(out, within, fields, slots)?;
    out.push(b'}')?;
    Ok(())
}

/// Appends one field alone, with its slot or without.
#[cycle(put)]
pub(crate) fn put_part(
    out: &mut Vec<u8>,
    within: Within<'_, '_>,
    field: Option<&Field>,
    slot: Option<&Slot>,
) -> Result<(), ShowFault>
    ensures ok { OnOk result (out.new.items ≡ out.old.items ++ part_of within.entry field.entry
        slot.entry) }
    ensures err { OnErr result (Extends out.old.items out.new.items) }
    ensures stop { MayStop within.entry out.old.items (part_of within.entry field.entry
        slot.entry) result }
{
    match (field, slot) {
        (None, _) => Ok(()),
        (Some(field), Some(slot)) => put_slot(out, within, field.kind, slot),
        (Some(field), None) => Ok(put_absent(out, within.types, field)?),
    }
}

/// Appends a message of so many levels.
#[cycle(put)]
pub(crate) fn put_message(
    out: &mut Vec<u8>,
    within: Within<'_, '_>,
    id: TypeId,
    value: &Value,
) -> Result<(), ShowFault>
    ensures ok { OnOk result (out.new.items ≡ out.old.items ++ message_of within.entry id value.now) }
    ensures err { OnErr result (Extends out.old.items out.new.items) }
    ensures stop { MayStop within.entry out.old.items (message_of within.entry id value.now) result }
{
    if within.level == 0 {
        return Ok(());
    }
    let inner = Within {
        level: within.level - 1,
        ..within
    };
    let fields = within.types.fields(id);
    let known = find_known(within.types, id);
    match known {
        Known::Plain => put_object(out, inner, fields, value.fields()),
        Known::Wrapper => put_part(out, inner, fields.by_number(1), value.get(1)),
        _ => Ok(put_known(out, known, value)?),
    }
}
