//! Laws of values: a value is the finite map that contracts see of it.
ghost use Rattle.schema.specs.Extensionality.{RisingPairsAreTheirItems, RisingValuesAreTheirSlots, ValidValuesAreTheirSlots};

/// Values that have the same slot at every number are one value, where their numbers rise, as those
/// of valid values do.
pub fn values_are_their_slots()
    ensures rising { RisingValuesAreTheirSlots }
    ensures valid { ValidValuesAreTheirSlots }
{}

/// Maps whose keys rise, and which have the same item at every key, are one map.
pub fn pairs_are_their_items()
    ensures { RisingPairsAreTheirItems }
{}
