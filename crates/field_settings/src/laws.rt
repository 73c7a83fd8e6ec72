//! Laws of settings. Each is the contract of an empty function.
ghost use Rattle.std.specs.Prelude.{◌≡◌, ◌++◌, ◌↔◌, ℕ, [], List};
ghost use Rattle.std.specs.List.{AllByRecursion};
ghost use Rattle.field_settings.specs.AppliedSettings.{AreSet, FitsSetting, Sets};
ghost use Rattle.field_settings.specs.SettingLaws.{HoldsAtEnd, KeepsAlong};
ghost use Rattle.field_settings.specs.declared.setting.Setting.{Setting};
ghost use Rattle.message_types.specs.declared.messages.TypeId.{TypeId};
ghost use Rattle.message_types.specs.declared.messages.Types.{Types};
ghost use Rattle.schema.specs.Soundness.{IsSound};
ghost use Rattle.schema.specs.Validity.{IsValid};
ghost use Rattle.schema.specs.declared.value.Slot.{Slot};
ghost use Rattle.schema.specs.declared.value.Value.{Value};

/// There is one value in which a slot is set at the end of a path, and one in which settings are made.
pub fn one_value_is_set()
    ensures one { (types : Types) (id : TypeId) (path : List ℕ) (slot : Slot) (v w x : Value)
        → Sets types id path slot v w → Sets types id path slot v x → w ≡ x }
    ensures all { (types : Types) (id : TypeId) (settings : List Setting) (v w x : Value)
        → AreSet types id settings v w → AreSet types id settings v x → w ≡ x }
{}

/// Settings that fit a type can be made in each valid value of it, and what they make is valid.
pub fn what_fits_is_set()
    ensures { (types : Types) (id : TypeId) (settings : List Setting) (v : Value) → IsSound types
        → AllByRecursion (FitsSetting types id) settings → IsValid types id v
        → (w : Value) × AreSet types id settings v w × IsValid types id w }
{}

/// What was set is found at the end of its path.
pub fn what_is_set_is_found()
    ensures { (types : Types) (id : TypeId) (path : List ℕ) (slot : Slot) (v w : Value)
        → Sets types id path slot v w → HoldsAtEnd types id path slot w }
{}

/// Each message on the way keeps what it held, but for the field that leads on and the members of its oneof, of which the
/// others hold nothing.
pub fn the_rest_stays()
    ensures { (types : Types) (id : TypeId) (path : List ℕ) (slot : Slot) (v w : Value)
        → Sets types id path slot v w → KeepsAlong types id path v w }
{}

/// What is set at a path twice is what is set there last alone.
pub fn setting_again_replaces()
    ensures { (types : Types) (id : TypeId) (path : List ℕ) (first second : Slot) (v u w : Value)
        → Sets types id path first v u → Sets types id path second u w → Sets types id path second v w }
{}

/// No settings change nothing.
pub fn nothing_set_changes_nothing()
    ensures { (types : Types) (id : TypeId) (v w : Value) → AreSet types id [] v w ↔ (v ≡ w) }
{}

/// Two lists of settings, joined, are made one after the other.
pub fn joined_settings_follow()
    ensures { (types : Types) (id : TypeId) (first second : List Setting) (v w : Value)
        → AreSet types id (first ++ second) v w
        ↔ ((u : Value) × AreSet types id first v u × AreSet types id second u w) }
{}
