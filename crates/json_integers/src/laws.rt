//! Laws of the definitions.
ghost use Rattle.std.specs.Prelude.{◌≡◌, ◌↔◌, ℕ, ℤ, List, Some, true};
ghost use Rattle.json_events.specs.JsonNumbers.{IsNumber, DenotesInteger};
ghost use Rattle.json_integers.specs.ExactIntegers.{exact_integer};
ghost use Rattle.json_integers.specs.IntegerTexts.{IsIntegerText};
ghost use Rattle.json_integers.specs.NumberCut.{are_parts, cut_number};
ghost use Rattle.json_integers.specs.declared.integer_text.IntegerText.{IntegerText};

use json_events::laws::texts_mean_one_value;

/// A text has one answer, and one alone.
pub fn one_answer_of_a_text()
    ensures some { (text : List ℕ) → (x : IntegerText) × IsIntegerText text x }
    ensures one { (text : List ℕ) (x y : IntegerText) → IsIntegerText text x → IsIntegerText text y → x ≡ y }
{
    texts_mean_one_value();
}

/// A text is a number exactly where its cut has the parts of one, and an integer exactly where that is computed of them.
pub fn integers_are_computed()
    ensures numbers { (text : List ℕ) → IsNumber text ↔ (are_parts (cut_number text) ≡ true) }
    ensures integers { (text : List ℕ) (z : ℤ) → DenotesInteger z text ↔ (exact_integer text ≡ Some z) }
{}
