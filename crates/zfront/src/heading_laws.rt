//! Laws of frames and of the line at the top: the contracts of these functions, which do nothing.

ghost use Rattle.std.specs.Prelude.{◌≡◌, ◌==◌, ◌≤◌, ◌++◌, ◌∷◌, [], true, false, All, List, ℕ, length};
ghost use Rattle.std.specs.List.{list_any};
ghost use Rattle.zfront.specs.Frames.{Frame, frame_behind, is_outside, outside};
ghost use Rattle.zfront.specs.Headings.{heading_line};

/// The line has just the columns that it was given, and each of its bytes is a character: none moves the cursor.
#[tactic(auto, using(crate::proofs::LineLaws::line_length, crate::proofs::LineLaws::line_bytes))]
pub fn lines_are_characters()
    ensures columns { (name right : List ℕ) (width : ℕ) → 2 ≤ width → length (heading_line name right width) ≡ width }
    ensures characters { (name right : List ℕ) (width : ℕ) → All (λ byte. (32 ≤ byte) × (byte ≤ 126)) (heading_line name right width) }
{}

/// What is outside frames in two pieces is what is outside in them as one, and a frame goes on from one to the other.
#[tactic(auto, using(crate::proofs::LineLaws::outside_join, crate::proofs::LineLaws::frame_join))]
pub fn framed_pieces_join()
    ensures outside { (frame : Frame) (piece more : List ℕ) → outside frame (piece ++ more) ≡ outside frame piece ++ outside (frame_behind frame piece) more }
    ensures frame { (frame : Frame) (piece more : List ℕ) → frame_behind frame (piece ++ more) ≡ frame_behind (frame_behind frame piece) more }
{}

/// A text outside frames with no byte 2 passes as it is. Of a whole frame nothing does, and behind it the text is outside frames again.
#[tactic(auto, using(crate::proofs::LineLaws::text_outside))]
pub fn frames_are_taken_out()
    ensures text { (frame : Frame) (text : List ℕ) → is_outside frame.place ≡ true → list_any (λ byte. byte == 2) text ≡ false → outside frame text ≡ text }
    ensures whole { (frame : Frame) (inner : List ℕ) → is_outside frame.place ≡ true → list_any (λ byte. byte == 3) inner ≡ false → (outside frame (2 ∷ (inner ++ (3 ∷ []))) ≡ []) × (is_outside (frame_behind frame (2 ∷ (inner ++ (3 ∷ [])))).place ≡ true) }
{}
