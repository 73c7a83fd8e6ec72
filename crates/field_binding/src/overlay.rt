//! What a request sets of its message beside its body.

use base::List;
use field_settings::Setting;
use std::marker::Model;

/// What the query and the path of one request set. `bind_path` makes it, for one binding of one API, and `bind_body`
/// takes it for the same.
#[derive(Drop)]
pub struct Overlay {
    pub(crate) query: List<Setting>,
    pub(crate) path: List<Setting>,
}

impl Model for Overlay {
    ghost use Rattle.std.specs.Coded.{codes};
    ghost use Rattle.field_binding.specs.Assignments.{Assignments, assignments};
    ghost use Rattle.schema.specs.contracts.value.Slot as slot;

    ghost Value = { Assignments };

    ghost coded = { Prim.hlevel (codes, slot.the_row.coded) };

    ghost view = { λ o. assignments o.query o.path };
}
