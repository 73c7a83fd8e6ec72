//! Laws of the definitions that the contract of `run_offline` cites. Each is the contract of a function
//! that does nothing.
ghost use Rattle.std.specs.Prelude.{◌≡◌, ◌⊎◌, ℕ, List, [], Ok};
ghost use Rattle.descriptor_set.specs.SetReading.{set_reading};
ghost use Rattle.descriptors.specs.declared.file_set.FileSet.{FileSet};
ghost use Rattle.gateway_run.specs.CommandOutput.{IsOutput, IsRefusedBy};
ghost use Rattle.gateway_run.specs.Commands.{Command};
ghost use Rattle.gateway_run.specs.DeclaredApi.{Declares, IsUnserved};
ghost use Rattle.gateway_run.specs.declared.descriptor_fault.DescriptorFault.{DescriptorFault};
ghost use Rattle.transcoding.specs.declared.refusal.RequestRefusal.{RequestRefusal};
ghost use Rattle.linked_api.specs.LinkedApi.{IsLinked};
ghost use Rattle.linked_api.specs.declared.api.Api.{Api};
ghost use Rattle.schema_link.specs.LinkAnswers.{faults};

/// The bytes of a set declare one API at most, and it is linked.
pub fn one_api_is_declared()
    ensures one { (bytes : List ℕ) (a b : Api) → Declares bytes a → Declares bytes b → a ≡ b }
    ensures linked { (bytes : List ℕ) (api : Api) → Declares bytes api → IsLinked api }
{
    schema_link::laws::faultless_sets_have_one_api();
    schema_link::laws::what_is_linked_of_a_set_is_linked();
}

/// A set that has a fault declares nothing, and has one fault.
pub fn one_fault_of_a_set()
    ensures nothing { (bytes : List ℕ) (f : DescriptorFault) (api : Api) → IsUnserved bytes f → Declares bytes api → ⊥ }
    ensures one { (bytes : List ℕ) (f g : DescriptorFault) → IsUnserved bytes f → IsUnserved bytes g → f ≡ g }
{}

/// A command whose request is refused prints nothing, is refused for one cause, and one that is not prints one
/// output: so each status is given exactly where its cause stands.
pub fn one_answer_to_a_command()
    ensures apart { (file input out : List ℕ) (c : Command) (r : RequestRefusal) → IsRefusedBy file input c r
        → IsOutput file input c out → ⊥ }
    ensures one_cause { (file input : List ℕ) (c : Command) (q r : RequestRefusal) → IsRefusedBy file input c q
        → IsRefusedBy file input c r → q ≡ r }
    ensures one_output { (file input out other : List ℕ) (c : Command) → IsOutput file input c out
        → IsOutput file input c other → out ≡ other }
{
    one_api_is_declared();
    set_listing::laws::one_text_of_routes();
    transcoding::laws::one_transcoding();
}

/// A set without faults declares an API, and over one that does each command has an output or is refused for a cause
/// other than out of memory, whatever the input holds.
pub fn each_command_is_answered()
    ensures declared { (file : List ℕ) (set : FileSet) → set_reading file ≡ Ok set → faults set ≡ []
        → (api : Api) × Declares file api }
    ensures answered { (file input : List ℕ) (c : Command) (api : Api) → Declares file api
        → ((out : List ℕ) × IsOutput file input c out) ⊎ ((r : RequestRefusal) × IsRefusedBy file input c r) }
{
    one_api_is_declared();
    schema_link::laws::faultless_sets_have_one_api();
    set_listing::laws::one_text_of_routes();
    transcoding::laws::each_request_is_answered();
}
