//! Which header fields of a client go on to the upstream.
ghost use Rattle.std.specs.Prelude.{◌≡◌, ℕ, Bool, true, false, List};
ghost use Rattle.gate_world.specs.Policies.{forwardable};

/// A choice among the names of header fields. It can be asked of every name; what an implementation needs so
/// that it can answer stands with that implementation.
pub trait Policy {
    /// Whether a name passes.
    ghost picks: { Self → List ℕ → Bool };

    /// True exactly where the field of this name goes on: false for each name that is no lower-case token.
    fn forwards(&self, name: &[u8]) -> bool
        ensures { result ≡ picks self.now name.now };

    /// Only a name that is a lower-case token and is not reserved passes.
    ghost keeps: { (p : Self) (name : List ℕ) → picks p name ≡ true → forwardable name ≡ true };
}

/// No field goes on.
#[derive(Debug, Clone, Copy, PartialEq, Eq)]
pub struct NoFields;

impl Policy for NoFields {
    ghost use Rattle.std.proofs.Common.{rules};

    ghost picks = { λ _ _. false };

    ghost keeps = { Prim.search rules };

    fn forwards(&self, _name: &[u8]) -> bool {
        false
    }
}
