//! Laws of the definitions that `read_leaf`'s contract cites. Each is the contract of an empty function.
ghost use Rattle.std.specs.Prelude.{◌≡◌, ◌≢◌, ℕ, suc, List, Result, Err};
ghost use Rattle.leaf_texts.specs.LeafTexts.{IsLeafReading, IsLeafText, IsLeafTextFault, IsReadLeaf};
ghost use Rattle.message_types.specs.declared.fields.Kind.{Kind as KindOf};
ghost use Rattle.message_types.specs.declared.fields.Kind.TheVariants.{One as OneOf};
ghost use Rattle.message_types.specs.declared.fields.Scalar.{Scalar as ScalarKind};
ghost use Rattle.message_types.specs.declared.messages.Types.{Types as AllTypes};
ghost use Rattle.scalar_texts.specs.declared.fault.ScalarFault.{ScalarFault};
ghost use Rattle.scalar_texts.specs.declared.fault.ScalarFault.TheVariants.{NoMemory};
ghost use Rattle.schema.specs.Layers.{ItemLayer};
ghost use Rattle.schema.specs.Soundness.{IsSound};
ghost use Rattle.schema.specs.Validity.{IsItem, valid_within};
ghost use Rattle.schema.specs.declared.value.Item.{Item};

use json_meanings::laws::sound_types_have_known_fields;
use known_types::laws::known_values_are_valid;
use scalar_texts::laws::{
    every_text_is_read, items_and_faults_are_apart as scalars_are_apart, readings_are_scalars,
};

/// Two readings of a text are one, where neither is out of memory.
pub fn one_reading_of_a_leaf()
    ensures { (types : AllTypes) (kind : KindOf) (text : List ℕ) (r s : Result Item ScalarFault)
        → IsLeafReading types kind text r → IsLeafReading types kind text s
        → r ≢ Err NoMemory → s ≢ Err NoMemory → r ≡ s }
{
    scalars_are_apart();
}

/// A text means one item at most, or has one fault, and not both.
pub fn items_and_faults_are_apart()
    ensures item { (types : AllTypes) (kind : KindOf) (text : List ℕ) (i j : ItemLayer)
        → IsLeafText types kind text i → IsLeafText types kind text j → i ≡ j }
    ensures apart { (types : AllTypes) (kind : KindOf) (text : List ℕ) (i : ItemLayer) (fault : ScalarFault)
        → IsLeafText types kind text i → IsLeafTextFault types kind text fault → ⊥ }
    ensures fault { (types : AllTypes) (kind : KindOf) (text : List ℕ) (f g : ScalarFault)
        → IsLeafTextFault types kind text f → IsLeafTextFault types kind text g → f ≡ g }
{
    scalars_are_apart();
}

/// Each text of each kind means an item, or there is something wrong with it, which is never that memory was not found.
pub fn every_leaf_text_is_read()
    ensures read { (types : AllTypes) (kind : KindOf) (text : List ℕ) → IsReadLeaf types kind text }
    ensures memory { (types : AllTypes) (kind : KindOf) (text : List ℕ) → IsLeafTextFault types kind text NoMemory → ⊥ }
{
    every_text_is_read();
}

/// What a text means is a valid item of its kind, wherever one may stand: where one level is left or more, and of a
/// scalar or an enum where none is left too. So it may be set in a singular field of that kind, and so may a list of such
/// items in a list.
pub fn leaves_are_valid()
    ensures scalars { (types : AllTypes) (scalar : ScalarKind) (text : List ℕ) (i : ItemLayer) (levels : ℕ)
        → IsLeafText types (OneOf scalar) text i → IsItem (valid_within levels types) (OneOf scalar) i }
    ensures leaves { (types : AllTypes) (kind : KindOf) (text : List ℕ) (i : ItemLayer) (levels : ℕ)
        → IsSound types → IsLeafText types kind text i → IsItem (valid_within (suc levels) types) kind i }
{
    readings_are_scalars();
    sound_types_have_known_fields();
    known_values_are_valid();
}
