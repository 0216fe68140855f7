//! Laws of the definitions: the contracts of these functions, which do nothing.

ghost use Rattle.std.specs.Prelude.{◌≡◌, ◌<◌, ◌++◌, [], ℕ, List, Option};
ghost use Rattle.std.specs.Io.KnownBytes.{Appends};
ghost use Rattle.zfront.specs.Owed.{Finishes, GivesSome, Owed, Passes, bytes_owed, nothing_owed};
ghost use Rattle.zfront.specs.Turns.{EndsTurn};
ghost use Rattle.zfront.specs.WrappedText.{IsWrapped};
ghost use Rattle.zfront.specs.Wrapping.{Feeds, Wrapping, wrapped};

/// At a width of 1 or more, what a text is shown as has as many bytes, of which some spaces became ends of lines and the others stayed; each
/// line of it ends within the width, or is one word at most; and no space became an end of line that fits with the word behind it.
pub fn text_is_wrapped()
    ensures { (width column : ℕ) (text : List ℕ) → 0 < width → IsWrapped width column text (wrapped width column text) }
{}

/// Nothing else is so.
#[tactic(auto, using(crate::proofs::Determined::one_wrapping))]
pub fn wrapping_is_determined()
    ensures { (width column : ℕ) (text result : List ℕ) → 0 < width → IsWrapped width column text result → result ≡ wrapped width column text }
{}

/// At width 0 a text is shown as it is.
#[tactic(auto, using(crate::proofs::Determined::wrapped_wide))]
pub fn no_width_wraps_nothing()
    ensures { (column : ℕ) (text : List ℕ) → wrapped 0 column text ≡ text }
{}

/// Two pieces that are fed one after the other are one.
#[tactic(auto, using(crate::proofs::Feeding::pieces_join))]
pub fn pieces_join()
    ensures { (first second third : Wrapping) (piece more given after : List ℕ) → Feeds first second piece given → Feeds second third more after → Feeds first third (piece ++ more) (given ++ after) }
{}

/// So are two that a sink takes.
#[tactic(auto, using(crate::proofs::Sinking::passes_join))]
pub fn taken_pieces_join()
    ensures { (old between new : Option (List ℕ)) (first second third : Owed) (piece more : List ℕ) → Passes old between first second piece → Passes between new second third more → Passes old new first third (piece ++ more) }
{}

/// A write that failed lost nothing: what comes of the next call is as if that write hadn't been asked for.
pub fn failed_writes_lose_nothing()
    ensures taken { (old between new : Option (List ℕ)) (first second third : Owed) (piece : List ℕ) → GivesSome old between first second → Passes between new second third piece → Passes old new first third piece }
    ensures flushed { (old between new : Option (List ℕ)) (first second third : Owed) → GivesSome old between first second → Finishes between new second third → Finishes old new first third }
{}

/// Nor did a flush that failed, where the next call is one too.
#[tactic(auto, using(crate::proofs::Flushing::finishes_again))]
pub fn failed_flushes_lose_nothing()
    ensures { (old between new : Option (List ℕ)) (first second third : Owed) → Finishes old between first second → Finishes between new second third → Finishes old new first third }
{}

/// A text that was taken at the beginning of a line, and all given out by a flush, is below as it is wrapped.
#[tactic(auto, using(crate::proofs::Flushing::flushed_wrapped))]
pub fn flushed_text_is_wrapped()
    ensures { (old between new : Option (List ℕ)) (width : ℕ) (second third : Owed) (text : List ℕ) → Passes old between (nothing_owed width) second text → Finishes between new second third → bytes_owed third ≡ [] → Appends old new (wrapped width 0 text) }
{}

/// The text of a turn that began at the beginning of a line is below as it is wrapped, once the turn has ended; and the next turn begins so too.
#[tactic(auto, using(crate::proofs::Ending::turn_wrapped, crate::proofs::Ending::turn_begins))]
pub fn turns_are_wrapped()
    ensures shown { (old between new : Option (List ℕ)) (width : ℕ) (second third : Owed) (text : List ℕ) → Passes old between (nothing_owed width) second text → EndsTurn between new second third → Appends old new (wrapped width 0 text) }
    ensures next { (old between new : Option (List ℕ)) (width : ℕ) (second third : Owed) (text : List ℕ) → Passes old between (nothing_owed width) second text → EndsTurn between new second third → third ≡ nothing_owed width }
{}

/// A call that failed in a turn lost nothing: where the turn ends with the next one, it is as if the first hadn't been asked for.
#[tactic(auto, using(crate::proofs::Ending::failed_write_ends, crate::proofs::Ending::failed_flush_ends))]
pub fn failed_calls_lose_nothing()
    ensures write { (old between new : Option (List ℕ)) (first second third : Owed) → GivesSome old between first second → EndsTurn between new second third → EndsTurn old new first third }
    ensures flush { (old between new : Option (List ℕ)) (first second third : Owed) → Finishes old between first second → EndsTurn between new second third → EndsTurn old new first third }
{}
