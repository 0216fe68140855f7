//! Why a save can't be unpacked.

ghost use Rattle.std.specs.Prelude.{◌≡◌};
ghost use Rattle.zunpack.specs.declared.error.UnpackError.TheVariants.{OutOfMemory};

use std::alloc::AllocError;
use thiserror::Error;

/// Why a save isn't unpacked. Where several causes hold, the first variant in this order is answered.
#[derive(Clone, Copy, Debug, PartialEq, Eq, Error)]
#[error("{}", self.text())]
pub enum UnpackError {
    /// C1: the file is no form of the kind `IFZS` (Q 2).
    NotForm,
    /// C2: a length doesn't fit, or a pad byte isn't there or isn't zero (Q 5, 8).
    Length,
    /// C3: there is no `IFhd`, no `Stks` or no memory, or `IFhd` isn't the first of them (Q 5).
    ChunkMissing,
    /// C4: one of `IFhd`, `Stks`, `UMem` and `CMem` is there twice, or both memories are there (own).
    ChunkTwice,
    /// C5: the memory isn't compressed.
    Plain,
    /// C6: the save is of another story (Q 5).
    OtherStory,
    /// C7: the compressed memory ends in a 0 without its count (Q 3).
    Unfinished,
    /// C8: the compressed memory comes to more bytes than the story's dynamic memory has (Q 3).
    TooLong,
    /// C9: the frames are none that a story can have (Q 4, own).
    Frames,
    /// Memory was refused. It says nothing of the file but that no cause before C9 holds.
    OutOfMemory,
}

impl UnpackError {
    ghost use Rattle.zunpack.specs.Refusal.{number_of};

    /// The number after the `C` of its code.
    pub fn number(self) -> u8
        ensures { result ≡ number_of self }
    {
        self as u8 + 1
    }

    // What is printed of it.
    fn text(self) -> &'static str {
        match self {
            UnpackError::NotForm => "not a save file",
            UnpackError::Length => "a length does not fit the file",
            UnpackError::ChunkMissing => "a part of the save is missing",
            UnpackError::ChunkTwice => "a part of the save is there twice",
            UnpackError::Plain => "the memory is not compressed",
            UnpackError::OtherStory => "the save is of another story",
            UnpackError::Unfinished => "the compressed memory is cut off",
            UnpackError::TooLong => "the compressed memory is too long",
            UnpackError::Frames => "the frames do not fit",
            UnpackError::OutOfMemory => "out of memory",
        }
    }
}

impl From<AllocError> for UnpackError {
    ghost from_gives = { λ _ error. error ≡ OutOfMemory };

    fn from(_: AllocError) -> UnpackError {
        UnpackError::OutOfMemory
    }
}
