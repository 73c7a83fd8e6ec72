//! Laws of the definitions that the calls' contracts cite. Each is the contract of an empty function.
ghost use Rattle.std.specs.Prelude.{◌≡◌, ℕ, List, map};
ghost use Rattle.form_urlencoded.specs.Form.{raw_pairs, parse};
ghost use Rattle.query_parameters.specs.QueryParameters.{parameters_of, encoded_pair, decoded_pair};

/// Without their numbers the parameters of a query are the pairs that the URL Standard's parser splits it into, and
/// decoded the pairs that it has before it decodes them as UTF-8, in its order.
pub fn parameters_are_the_forms_pairs()
    ensures encoded { (query : List ℕ) → map encoded_pair (parameters_of query) ≡ raw_pairs query }
    ensures decoded { (query : List ℕ) → map decoded_pair (parameters_of query) ≡ parse query }
{}
