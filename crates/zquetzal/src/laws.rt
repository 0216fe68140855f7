//! What holds of all saves: each function here is empty, and its contract is a law.

ghost use Rattle.std.specs.Prelude.{◌≡◌, ℕ, List, Ok};
ghost use Rattle.zstory.specs.LoadedStory.{LoadedStory, IsSound};
ghost use Rattle.zquetzal.specs.Saved.{Saved, IsSaved, origin_of};
ghost use Rattle.zquetzal.specs.Grammar.{save_text, ReadsAs};
ghost use Rattle.zquetzal.specs.Reading.{reading};

/// What is written of a story is read as what was saved, and bytes are a save of a story in one way alone.
pub fn saves_are_read()
    ensures relates { (story : LoadedStory) (s : Saved) → IsSound story.memory → IsSaved story s → ReadsAs story (save_text (origin_of story) s) s }
    ensures read { (story : LoadedStory) (s : Saved) → IsSound story.memory → IsSaved story s → reading story (save_text (origin_of story) s) ≡ Ok s }
    ensures one { (story : LoadedStory) (bytes : List ℕ) (s t : Saved) → ReadsAs story bytes s → ReadsAs story bytes t → s ≡ t }
{}
