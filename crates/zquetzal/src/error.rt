//! Why a save is refused.

use thiserror::Error;

/// Why bytes are no save that can be restored. Where several causes hold, the first variant in this order is answered.
///
/// Reading answers none behind `Frames`: those are of machines, which know what they can restore.
#[derive(Clone, Copy, Debug, PartialEq, Eq, Error)]
#[error("{}", self.text())]
pub enum SaveError {
    /// Q1: the file is no form of the kind `IFZS` (Q 2).
    NotForm,
    /// Q2: a length doesn't fit, or a pad byte isn't there or isn't zero (Q 5, 8).
    Length,
    /// Q3: there is no `IFhd`, no `Stks` or no memory, or `IFhd` isn't the first of them (Q 5).
    ChunkMissing,
    /// Q4: one of `IFhd`, `UMem` and `Stks` is there twice (own).
    ChunkTwice,
    /// Q5: the memory is compressed (own).
    Compressed,
    /// Q6: the save is of another story (Q 5).
    OtherStory,
    /// Q7: the memory is not as long as the story's dynamic memory.
    MemoryLength,
    /// Q8: the frames are none that a story can have (Q 4, own).
    Frames,
    /// Q9: play would go on where no `save` is listed.
    Place,
    /// Q10: the story's certificate doesn't describe what was saved.
    NotDescribed,
    /// Q11: a growth was refused.
    OutOfMemory,
}

impl SaveError {
    ghost use Rattle.std.specs.Prelude.{◌≡◌};
    ghost use Rattle.zquetzal.specs.Refusal.{number_of};

    /// The number after the `Q` of its code.
    pub fn number(self) -> u8
        ensures { result ≡ number_of self }
    {
        self as u8 + 1
    }

    // What is printed of it.
    fn text(self) -> &'static str {
        match self {
            SaveError::NotForm => "not a save file",
            SaveError::Length => "a length does not fit the file",
            SaveError::ChunkMissing => "a part of the save is missing",
            SaveError::ChunkTwice => "a part of the save is there twice",
            SaveError::Compressed => "the memory is compressed",
            SaveError::OtherStory => "the save is of another story",
            SaveError::MemoryLength => "the memory has another length",
            SaveError::Frames => "the frames do not fit",
            SaveError::Place => "no save instruction is at the place",
            SaveError::NotDescribed => "the certificate does not describe the save",
            SaveError::OutOfMemory => "out of memory",
        }
    }
}
