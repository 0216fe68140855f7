//! What holds of all compressed saves: each function here is empty, and its contract is a law.

ghost use Rattle.std.specs.Prelude.{◌≡◌, ℕ, List, Ok, length};
ghost use Rattle.zstory.specs.LoadedStory.{LoadedStory};
ghost use Rattle.zstory.specs.Bytes.{AreBytes};
ghost use Rattle.zquetzal.specs.Saved.{Saved};
ghost use Rattle.zunpack.specs.Packing.{Packs, packed, unpacked};
ghost use Rattle.zunpack.specs.PackedSave.{PackedAs};

/// Bytes that stand for a memory are unpacked as that, each memory that is as long as the story's is one that bytes stand for, and bytes
/// are a compressed save of a story in one way alone.
pub fn memory_is_packed()
    ensures read { (dynamic bytes memory : List ℕ) → Packs dynamic bytes memory → unpacked dynamic bytes ≡ Ok memory }
    ensures only { (dynamic bytes memory : List ℕ) → AreBytes bytes → unpacked dynamic bytes ≡ Ok memory → Packs dynamic bytes memory }
    ensures packed { (dynamic memory : List ℕ) → AreBytes dynamic → AreBytes memory → length memory ≡ length dynamic → Packs dynamic (packed dynamic memory) memory }
    ensures again { (dynamic memory : List ℕ) → length memory ≡ length dynamic → unpacked dynamic (packed dynamic memory) ≡ Ok memory }
    ensures one { (story : LoadedStory) (bytes : List ℕ) (s t : Saved) → PackedAs story bytes s → PackedAs story bytes t → s ≡ t }
{}
