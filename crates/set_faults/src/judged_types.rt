//! The types of a set, with each enum judged once.
ghost use Rattle.std.specs.Prelude.{◌≡◌, map, option_map, slice_get, IfOk, IfSome};
ghost use Rattle.set_faults.specs.MessageFaults.{enum_of, is_lawful_enum};
ghost use Rattle.descriptor_pool.specs.DeclaredNames.{DeclaredEnum as Declared};
ghost use Rattle.descriptor_pool.specs.FieldTypes.{value_field};

use crate::enum_faults::is_lawful_enum;
use base::NoMemory;
use descriptor_pool::{DeclaredEnum, SetTypes};
use descriptors::FieldInfo;
use std::alloc::Global;
use std::marker::Model;

/// The types of a set, and of each enum whether it may be.
#[derive(Drop)]
pub(crate) struct JudgedTypes<'a, 'b> {
    types: &'b SetTypes<'a>,
    lawful: Vec<bool>,
}

impl<'a, 'b> Model for JudgedTypes<'a, 'b> {
    ghost use Rattle.std.specs.Prelude.{◌≡◌, map};
    ghost use Rattle.descriptor_pool.specs.DeclaredNames.{DeclaredEnum};
    ghost use Rattle.descriptor_pool.specs.DeclaredTypes.{SetTypes as Seen};
    ghost use Rattle.set_faults.specs.MessageFaults.{is_lawful_enum};

    ghost Value = { Seen };

    ghost view = { λ j. j.types.now };

    ghost invariant = { λ j. j.lawful.items ≡ map (λ (e : DeclaredEnum). is_lawful_enum e.values) j.types.now.enums };
}

/// Of each enum, whether it may be.
fn lawful_enums(alloc: Global, enums: &[DeclaredEnum<'_>]) -> Result<Vec<bool>, NoMemory>
    ensures { IfOk result (λ bs. bs.items ≡ map (λ (e : Declared). is_lawful_enum e.values) enums.now) }
{
    let mut lawful = Vec::new(alloc);
    for declared in enums {
        lawful.push(is_lawful_enum(alloc, declared.info.value.as_slice())?)?;
    }
    Ok(lawful)
}

/// The types of a set, with each enum judged.
pub(crate) fn judged_types<'a, 'b>(
    alloc: Global,
    types: &'b SetTypes<'a>,
) -> Result<JudgedTypes<'a, 'b>, NoMemory>
    ensures { IfOk result (λ judged. judged ≡ types.now) }
{
    let lawful = lawful_enums(alloc, types.enums())?;
    Ok(JudgedTypes { types, lawful })
}

impl<'a, 'b> JudgedTypes<'a, 'b> {
    /// The types as the set declares them.
    pub(crate) fn declared(&self) -> &SetTypes<'a>
        ensures { result.now ≡ self.now }
    {
        self.types
    }

    /// The field whose type one value of a field has.
    pub(crate) fn value_field(&self, field: &'a FieldInfo) -> &'a FieldInfo
        ensures { result.now ≡ value_field self.now field.now }
    {
        self.types.value_field(field)
    }

    /// The enum of an index, and whether it may be.
    fn enum_at(&self, at: usize) -> Option<(&DeclaredEnum<'a>, bool)>
        ensures found { option_map (λ x. x.0.now) result ≡ slice_get self.now.enums at }
        ensures lawful { IfSome result (λ x. x.1 ≡ is_lawful_enum x.0.now.values) }
    {
        match self.types.enum_at(at) {
            Some(found) => Some((found, self.lawful[at])),
            None => None,
        }
    }

    /// The enum that a type name names, and whether it may be.
    pub(crate) fn enum_of(&self, type_name: &'a str) -> Option<(&DeclaredEnum<'a>, bool)>
        ensures found { option_map (λ x. x.0.now) result ≡ enum_of self.now type_name.now }
        ensures lawful { IfSome result (λ x. x.1 ≡ is_lawful_enum x.0.now.values) }
    {
        match self.types.enum_named(type_name) {
            Some(at) => self.enum_at(at),
            None => None,
        }
    }
}
