//! Laws of a sink that tells the source's lines: the contracts of these functions, which do nothing.

ghost use Rattle.std.specs.Prelude.{◌≡◌, ◌++◌, ◌⊎◌, [], false, List, Option, ℕ};
ghost use Rattle.std.specs.List.{list_any};
ghost use Rattle.std.specs.Io.KnownBytes.{Appends};
ghost use Rattle.zfront.specs.Sourced.{Known, is_end, line_told};
ghost use Rattle.zfront.specs.ToldLines.{Settles, TakesNone, TakesPiece, Untold, nothing_untold};

/// A line that was taken at the beginning of one, and all given out by a flush, is below as it is told, or as it was.
#[tactic(auto, using(crate::proofs::Tellings::flushed_line))]
pub fn flushed_lines_are_told()
    ensures { (old between new : Option (List ℕ)) (known : Known) (second third : Untold) (line : List ℕ) → TakesPiece known old between nothing_untold second line → Settles known between new second third → third.decided ≡ [] → Appends old new (line_told known line) ⊎ Appends old new line }
{}

/// Two pieces of a line that are taken one after the other are one.
pub fn pieces_of_lines_join()
    ensures { (old between new : Option (List ℕ)) (known : Known) (first second third : Untold) (piece more : List ℕ) → TakesPiece known old between first second piece → TakesPiece known between new second third more → list_any is_end piece ≡ false → TakesPiece known old new first third (piece ++ more) }
{}

/// A write that failed lost nothing: what comes of the next one, if it takes a piece, is as if the first hadn't been asked for.
#[tactic(auto, using(crate::proofs::Tellings::none_then_piece))]
pub fn failed_writes_lose_no_line()
    ensures { (old between new : Option (List ℕ)) (known : Known) (first second third : Untold) (piece : List ℕ) → TakesNone old between first second → TakesPiece known between new second third piece → TakesPiece known old new first third piece }
{}
