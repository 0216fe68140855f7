//! Laws of a text that stops behind each page: the contracts of these functions, which do nothing.

ghost use Rattle.std.specs.Prelude.{◌≡◌, ◌<◌, ◌≤◌, ◌++◌, List, Option, ℕ};
ghost use Rattle.zfront.specs.Pages.{IsPaged, Paging, ShowsPiece, paged};

/// With its stops taken out a text is as it was written; and before, between and behind two stops there are no more ends of lines than a page has.
#[tactic(auto, using(crate::proofs::Parting::is_paged))]
pub fn stops_are_between_pages()
    ensures { (lines shown : ℕ) (text : List ℕ) → 0 < lines → shown ≤ lines → IsPaged lines text (paged lines shown text) }
{}

/// Two pieces that are taken one after the other are one, while it stops, or while it doesn't.
pub fn shown_pieces_join()
    ensures { (old between new : Option (List ℕ)) (first second third : Paging) (piece more : List ℕ) → ShowsPiece old between first second piece → ShowsPiece between new second third more → second.stops ≡ first.stops → third.stops ≡ second.stops → ShowsPiece old new first third (piece ++ more) }
{}
