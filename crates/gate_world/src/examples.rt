//! Callers that are written against the public clauses alone.
ghost use Rattle.std.specs.Prelude.{◌≡◌, true, false};
ghost use Rattle.std.specs.List.{list_any};
ghost use Rattle.gate_world.specs.Policies.{forwardable};
ghost use Rattle.http_rules.specs.Tokens.{is_lower_case_token};

use crate::policy::Policy;

/// Whether a policy forwards the field of a name of whatever form.
pub fn is_forwarded<P: Policy>(policy: &P, name: &[u8]) -> bool
    ensures picked { result ≡ P.picks policy.now name.now }
    ensures forwardable { result ≡ true → forwardable name.now ≡ true }
    ensures token { is_lower_case_token name.now ≡ false → result ≡ false }
{
    policy.forwards(name)
}

/// Whether a policy forwards a field of a list of names of whatever form.
pub fn forwards_one_of<P: Policy>(policy: &P, names: &[&[u8]]) -> bool
    ensures { result ≡ list_any (λ name. P.picks policy.now name.now) names.now }
{
    for name in names {
        if is_forwarded(policy, name) {
            return true;
        }
    }
    false
}
