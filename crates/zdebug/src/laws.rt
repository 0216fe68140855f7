//! Laws of the definitions: the contracts of functions that do nothing.

ghost use Rattle.std.specs.Prelude.{◌≡◌, List, ℕ, false, true};
ghost use Rattle.std.specs.List.{list_all};
ghost use Rattle.zdebug.specs.Shown.{escaped, is_byte, is_printable, is_string, shown};

/// What is shown of bytes is printable: whatever a name is, it moves no cursor and begins no line.
#[tactic(auto, using(crate::proofs::Printable::printable))]
pub fn shown_names_are_printable()
    ensures { (bytes : List ℕ) → list_all is_byte bytes ≡ true → list_all is_printable (shown bytes) ≡ true }
{}

/// What is shown of bytes and then escaped stands between two quotation marks as a string of JSON, whatever a name is.
#[tactic(auto, using(crate::proofs::Strings::strings))]
pub fn escaped_names_are_strings()
    ensures { (bytes : List ℕ) → list_all is_byte bytes ≡ true → is_string false (escaped (shown bytes)) ≡ true }
{}
