//! Laws of the definitions: the contracts of these functions, which do nothing.

ghost use Rattle.std.specs.Prelude.{◌≡◌, ◌++◌, ℕ, List, Some, length};
ghost use Rattle.ztext.specs.Words.{IsText, front_text, text_at};
ghost use Rattle.ztext.specs.Abbreviations.{abbreviation_at};
ghost use Rattle.ztext.specs.Output.{output_at};
ghost use Rattle.ztext.specs.Local.{SameWords, SameAbbreviation, SameReading};

/// Bytes that begin with a text have it at their front.
pub fn text_is_at_front()
    ensures { (text rest : List ℕ) → IsText text → front_text (text ++ rest) ≡ Some text }
{}

/// What a text is, and what it prints, depends on its own words and on those of the abbreviations that it uses, with the words
/// that lead to them.
pub fn reading_is_local()
    ensures text { (memory other : List ℕ) (at : ℕ) → length other ≡ length memory → SameWords memory other at → text_at other at ≡ text_at memory at }
    ensures abbreviation { (memory other : List ℕ) (n : ℕ) → length other ≡ length memory → SameAbbreviation memory other n → abbreviation_at other n ≡ abbreviation_at memory n }
    ensures output { (memory other : List ℕ) (at : ℕ) → SameReading memory other at → output_at other at ≡ output_at memory at }
{}
