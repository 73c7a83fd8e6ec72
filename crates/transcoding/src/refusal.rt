//! Why a request is refused.
ghost use Rattle.std.specs.Prelude.{◌≡◌};
ghost use Rattle.transcoding.specs.RequestRefusals.{cause_of, refusal_detail, refusal_status};

use base::NoMemory;
use gate_world::{Detail, Refusal};

/// The HTTP status of a request of a form that is not built yet.
const NOT_BUILT_STATUS: u16 = 501;

/// Why a request is refused.
#[derive(Debug, Clone, Copy, PartialEq, Eq)]
pub enum RequestRefusal {
    /// The target has a query, or the binding has a body, a streamed request, or a variable that ends at bytes or at
    /// a well-known type: such a request is not transcoded yet. It comes behind a method that is not allowed.
    NotBuilt,
    /// A cause of the table.
    Listed(Refusal),
}

impl RequestRefusal {
    /// The HTTP status.
    pub fn status(self) -> u16
        ensures { result ≡ refusal_status self }
    {
        match self {
            RequestRefusal::NotBuilt => NOT_BUILT_STATUS,
            RequestRefusal::Listed(refusal) => refusal.status(),
        }
    }

    /// The text, or what of it stands in front of the value that it names.
    pub fn cause(self) -> &'static str
        ensures { result.now ≡ cause_of self }
    {
        match self {
            RequestRefusal::NotBuilt => "not built",
            RequestRefusal::Listed(refusal) => refusal.cause(),
        }
    }

    /// The value that it names, where it names one.
    pub fn detail(self) -> Option<Detail>
        ensures { result ≡ refusal_detail self }
    {
        match self {
            RequestRefusal::NotBuilt => None,
            RequestRefusal::Listed(refusal) => refusal.detail(),
        }
    }
}

impl From<NoMemory> for RequestRefusal {
    ghost use Rattle.std.specs.Prelude.{◌≡◌};
    ghost use Rattle.gate_world.specs.declared.refusal.Refusal.TheVariants as refusals;
    ghost use Rattle.transcoding.specs.declared.refusal.RequestRefusal.TheVariants as requests;

    ghost from_gives = { λ _ refusal. refusal ≡ requests.Listed refusals.NoMemory };

    fn from(_: NoMemory) -> RequestRefusal {
        RequestRefusal::Listed(Refusal::NoMemory)
    }
}
