//! A descriptor set whose values are shown and read.
ghost use Rattle.std.specs.Prelude.{IfSome};
ghost use Rattle.linked_api.specs.LinkedApi.{IsLinked};

use descriptor_set::read_set;
use linked_api::Api;
use schema_link::link;
use std::alloc::Global;

/// What is linked of a set; None where it is refused, or without memory.
pub(crate) fn served(alloc: Global, set: &[u8]) -> Option<Api>
    ensures { IfSome result IsLinked }
{
    let Ok(read) = read_set(alloc, set) else {
        return None;
    };
    match link(alloc, &read) {
        Ok(api) => Some(api),
        Err(_) => None,
    }
}
