//! Setting fields of a message along paths of field numbers (google/api/http.proto).
ghost use Rattle.std.specs.Prelude.{IfOk};
ghost use Rattle.std.specs.List.{AllByRecursion};
ghost use Rattle.field_settings.specs.AppliedSettings.{AreSet, FitsSetting};
ghost use Rattle.schema.specs.Soundness.{IsSound};
ghost use Rattle.schema.specs.Validity.{IsValid};

use crate::paths::set_path;
use crate::setting::Setting;
use base::NoMemory;
use schema::{TypeId, Types, Value};
use std::alloc::Global;

/// The value with each setting made, one after the other. Slots are copied, since one list of settings
/// serves many values. The value is dropped where no memory is found.
pub fn apply(
    alloc: Global,
    types: &Types,
    id: TypeId,
    settings: &[Setting],
    value: Value,
) -> Result<Value, NoMemory>
    requires sound { IsSound types.now }
    requires fits { AllByRecursion (FitsSetting types.now id) settings.now }
    requires valid { IsValid types.now id value }
    ensures set { IfOk result (λ v. AreSet types.now id settings.now value v) }
    ensures valid { IfOk result (λ v. IsValid types.now id v) }
{
    let mut changed = value;
    for setting in settings {
        changed = set_path(
            alloc,
            types,
            id,
            setting.path.as_slice(),
            &setting.slot,
            changed,
        )?;
    }
    Ok(changed)
}
