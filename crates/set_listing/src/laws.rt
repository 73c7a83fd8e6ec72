//! Laws of the definitions that the contract of `routes_text` cites. Each is the contract of a function that does
//! nothing.
ghost use Rattle.std.specs.Prelude.{◌≡◌, ℕ, List};
ghost use Rattle.set_listing.specs.RouteLines.{IsRoutesText};
ghost use Rattle.linked_api.specs.LinkedApi.{IsLinked};
ghost use Rattle.linked_api.specs.declared.api.Api.{Api};

/// An API that is linked has one text of its routes.
pub fn one_text_of_routes()
    ensures some { (api : Api) → IsLinked api → (text : List ℕ) × IsRoutesText api text }
    ensures one { (api : Api) (a b : List ℕ) → IsRoutesText api a → IsRoutesText api b → a ≡ b }
{}
