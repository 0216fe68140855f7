//! Laws of the definitions: the contracts of these functions, which do nothing.

ghost use Rattle.std.specs.Prelude.{ℕ, ◌↔◌, List};
ghost use Rattle.zdict.specs.Parts.{AreParts, IsIn, IsToken};
ghost use Rattle.zdict.specs.Tokens.{Span, tokens};

/// Tokens are parts of their line, none empty, and each begins no earlier than the one before it ends.
pub fn tokens_are_parts()
    ensures { (listed line : List ℕ) → AreParts line 0 (tokens listed line) }
{}

/// A span is among the tokens exactly where it is one separator, or a run of letters with none before or behind it.
pub fn tokens_are_exact()
    ensures { (listed line : List ℕ) (span : Span) → IsIn span (tokens listed line) ↔ IsToken listed line span }
{}
