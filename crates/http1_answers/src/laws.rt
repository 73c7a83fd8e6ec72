//! Laws of the answers to refusals.
ghost use Rattle.std.specs.Prelude.{◌≤◌, ℕ, Bool, List, length};
ghost use Rattle.gate_world.specs.declared.refusal.Refusal.{Refusal};
ghost use Rattle.http1_answers.specs.RefusalAnswers.{refusal_answer};

/// An answer to a refusal has at most 4,096 bytes, where the methods that it tells have at most 2,176.
pub fn refusal_answers_are_short()
    ensures { (refusal : Refusal) (close : Bool) (allow : List ℕ) → length allow ≤ 2176
        → length (refusal_answer refusal close allow) ≤ 4096 }
{}
