//! A law of the definitions: the contract of a function that does nothing.

ghost use Rattle.std.specs.Prelude.{◌≡◌, List, ℕ};
ghost use Rattle.zstory.specs.Bytes.{AreBytes};
ghost use Rattle.zinfo.specs.Shown.{shown};

/// What is shown of bytes tells them: other bytes are shown otherwise.
#[tactic(auto, using(crate::proofs::Apart::apart))]
pub fn shown_bytes_are_told_apart()
    ensures { (first second : List ℕ) → AreBytes first → AreBytes second → shown first ≡ shown second → first ≡ second }
{}
