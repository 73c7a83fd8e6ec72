//! The items of scalar payloads (the encoding guide, "Last One Wins" and "Packed Repeated Fields").
ghost use Rattle.std.specs.Prelude.{◌≡◌, ◌++◌, true, map, option_map, IfOk, OnOk};
ghost use Rattle.std.specs.List.{AllByRecursion, filter_map};
ghost use Rattle.schema.specs.declared.value.Item.{out-Item};
ghost use Rattle.wire_format.specs.FieldValues.{last_of, scalar_items};
ghost use Rattle.wire_format.specs.GoodBytes.{IsGoodText};
ghost use Rattle.wire_records.specs.RecordViews.{payload_of as seen_payload};
ghost use Rattle.wire_format.specs.Scalars.{scalar_of as scalar_of_kind, elements};
ghost use Rattle.schema.specs.Soundness.{is_packable as is_packable_kind};
ghost use Rattle.std.specs.Option.{option_to_list};

use crate::scalars::scalar_of;
use crate::sizes::scalar_wire;
use base::{List, NoMemory};
use schema::{Item, Scalar, Types, is_packable};
use std::alloc::Global;
use wire_records::{Payload, payload_of};

/// The last of the payloads that fit a scalar kind, as an item.
pub(crate) fn last_scalar(
    alloc: Global,
    types: &Types,
    scalar: Scalar,
    payloads: &[Payload<'_>],
) -> Result<Option<Item>, NoMemory>
    requires { AllByRecursion (IsGoodText scalar) (map seen_payload payloads.now) }
    ensures { IfOk result (λ o. option_map out-Item o ≡ last_of (filter_map (scalar_of_kind types.now scalar) (map seen_payload payloads.now))) }
{
    let mut last = None;
    for payload in payloads {
        match scalar_of(alloc, types, scalar, *payload)? {
            Some(item) => last = Some(item),
            None => {}
        }
    }
    Ok(last)
}

/// Appends the items of a packed payload.
#[tactic(auto, using(crate::proofs::decoding::CollectLemmas::packed_text))]
fn push_elements(
    alloc: Global,
    types: &Types,
    scalar: Scalar,
    bytes: &[u8],
    items: &mut List<Item>,
) -> Result<(), NoMemory>
    requires { is_packable_kind scalar ≡ true }
    ensures { OnOk result (map out-Item items.new ≡ map out-Item items.old ++ elements types.now scalar 0 bytes.now) }
{
    let mut at = 0;
    while at < bytes.len() {
        let (_, left) = bytes.split_at(at);
        match payload_of(scalar_wire(scalar), left) {
            Ok((payload, _, to)) => {
                at += to;
                push_scalar(alloc, types, scalar, payload, items)?;
            }
            Err(_) => return Ok(()),
        }
    }
    Ok(())
}

/// Appends the item of a payload, if that fits the kind.
fn push_scalar(
    alloc: Global,
    types: &Types,
    scalar: Scalar,
    payload: Payload<'_>,
    items: &mut List<Item>,
) -> Result<(), NoMemory>
    requires { IsGoodText scalar (seen_payload payload) }
    ensures { OnOk result (map out-Item items.new ≡ map out-Item items.old ++ option_to_list (scalar_of_kind types.now scalar (seen_payload payload.entry))) }
{
    match scalar_of(alloc, types, scalar, payload)? {
        Some(item) => items.push(item),
        None => Ok(()),
    }
}

/// Appends the items of a payload of a list of scalars, packed or not.
pub(crate) fn push_scalars(
    alloc: Global,
    types: &Types,
    scalar: Scalar,
    payload: Payload<'_>,
    items: &mut List<Item>,
) -> Result<(), NoMemory>
    requires { IsGoodText scalar (seen_payload payload) }
    ensures { OnOk result (map out-Item items.new ≡ map out-Item items.old ++ scalar_items types.now scalar (seen_payload payload.entry)) }
{
    match payload {
        Payload::Len(bytes) => {
            if is_packable(scalar) {
                return push_elements(alloc, types, scalar, bytes, items);
            }
            push_scalar(alloc, types, scalar, payload, items)
        }
        _ => push_scalar(alloc, types, scalar, payload, items),
    }
}
