//! Why a file is refused.

ghost use Rattle.std.specs.Prelude.{◌≡◌};
ghost use Rattle.zstory.specs.declared.load_error.LoadError.TheVariants.{OutOfMemory};

use std::alloc::AllocError;
use thiserror::Error;

/// Why a file is no story of this profile. Where several causes hold, the first variant in this order is answered.
#[derive(Clone, Copy, Debug, PartialEq, Eq, Error)]
#[error("{}", self.text())]
pub enum LoadError {
    /// L1: the file is shorter than a header, 64 bytes (Z 1.1.1).
    TooShort,
    /// L2: the file is longer than a version 3 story can be, 131,072 bytes (Z 1.1.4).
    TooLong,
    /// L3: the first byte, which is the version, isn't 3 (Z 11.1).
    NotVersion3,
    /// L4: the stated length is under 64 bytes or above the file's (Z 11.1.6).
    LengthWord,
    /// L5: static memory begins below 64 or beyond the stated length (Z 1.1.2).
    StaticBase,
    /// L6: the 480 bytes of the globals don't lie in dynamic memory behind the header (Z 6.2).
    Globals,
    /// L7: the 62 bytes of property defaults don't lie in dynamic memory behind the header (Z 12.2).
    Objects,
    /// L8: the dictionary isn't wholly in static memory and below byte address 65,536 (Z 13.1).
    Dictionary,
    /// L9: a dictionary entry has no room for its four bytes of text (Z 13.3).
    EntryLength,
    /// L10: a dictionary entry's text is below that of the entry before (Z 13.5).
    DictionaryOrder,
    /// L11: the first instruction stands in the header or behind the end of memory (Z 5.5).
    FirstInstruction,
    /// L12: memory for the story was refused. It says nothing of the file but that no other cause holds.
    OutOfMemory,
}

impl LoadError {
    ghost use Rattle.zstory.specs.Refusal.{number_of};

    /// The refusal's number, 1 to 12, which programs print behind an `L`.
    pub fn number(self) -> u8
        ensures { result ≡ number_of self }
    {
        self as u8 + 1
    }

    // What is printed of it.
    fn text(self) -> &'static str {
        match self {
            LoadError::TooShort => "the file is shorter than 64 bytes",
            LoadError::TooLong => "the file is longer than 131072 bytes",
            LoadError::NotVersion3 => "the story is not of version 3",
            LoadError::LengthWord => "the stated length does not fit the file",
            LoadError::StaticBase => "the base of static memory is out of range",
            LoadError::Globals => "the globals are not in dynamic memory",
            LoadError::Objects => "the property defaults are not in dynamic memory",
            LoadError::Dictionary => "the dictionary is not in readable static memory",
            LoadError::EntryLength => "the dictionary entries are too short",
            LoadError::DictionaryOrder => "the dictionary is not in order",
            LoadError::FirstInstruction => "the first instruction is out of range",
            LoadError::OutOfMemory => "out of memory",
        }
    }
}

impl From<AllocError> for LoadError {
    ghost from_gives = { λ _ error. error ≡ OutOfMemory };

    fn from(_: AllocError) -> LoadError {
        LoadError::OutOfMemory
    }
}
