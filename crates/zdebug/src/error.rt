//! Why bytes are no debug information.

ghost use Rattle.std.specs.Prelude.{◌≡◌};
ghost use Rattle.zdebug.specs.declared.error.DebugError.TheVariants.{OutOfMemory};

use std::alloc::{AllocError, AllocFailed};
use thiserror::Error;

/// What is wrong where the reading of a file stops.
#[derive(Clone, Copy, Debug, PartialEq, Eq, Error)]
#[error("{}", self.text())]
pub enum DebugError {
    /// B1: the file is longer than [`FILE_LIMIT`](crate::FILE_LIMIT) bytes.
    TooLong,
    /// B2: what stands in front of the first tag isn't blank, or the outermost element isn't `inform-story-file`, or there is none.
    NotDebug,
    /// B3: a version other than 1.0 and 1.1, or none.
    Version,
    /// B4: a `<` with a blank or a `>` behind it, or with no `>` before the next `<`; or a tag that begins with `<!`.
    Tag,
    /// B5: an end of an element that isn't the innermost open one, or an element behind the outermost one.
    Misplaced,
    /// B6: the file ends within an element.
    Unclosed,
    /// B7: what is no decimal number below 2 ^ 32 (with blanks in front, and none behind), where one has to stand.
    NotNumber,
    /// B8: a `&` that begins none of the five entities.
    Entity,
    /// B9: a record that lacks its name, its number, or another part.
    Incomplete,
    /// B10: a growth was refused.
    OutOfMemory,
}

impl DebugError {
    ghost use Rattle.zdebug.specs.Refusal.{number_of};

    /// The number after the `B` of its code.
    pub fn number(self) -> u8
        ensures { result ≡ number_of self }
    {
        match self {
            DebugError::TooLong => 1,
            DebugError::NotDebug => 2,
            DebugError::Version => 3,
            DebugError::Tag => 4,
            DebugError::Misplaced => 5,
            DebugError::Unclosed => 6,
            DebugError::NotNumber => 7,
            DebugError::Entity => 8,
            DebugError::Incomplete => 9,
            DebugError::OutOfMemory => 10,
        }
    }

    // What is printed of it.
    fn text(self) -> &'static str {
        match self {
            DebugError::TooLong => "the debug information is too long",
            DebugError::NotDebug => "not debug information of Inform 6",
            DebugError::Version => "the version of the debug information is not known",
            DebugError::Tag => "a tag is not one",
            DebugError::Misplaced => "an element stands where it cannot",
            DebugError::Unclosed => "an element is not closed",
            DebugError::NotNumber => "a number is not one",
            DebugError::Entity => "an entity is not known",
            DebugError::Incomplete => "a record is not complete",
            DebugError::OutOfMemory => "out of memory",
        }
    }
}

impl From<AllocError> for DebugError {
    ghost from_gives = { λ _ e. e ≡ OutOfMemory };

    fn from(_e: AllocError) -> DebugError {
        DebugError::OutOfMemory
    }
}

impl<T: Drop> From<AllocFailed<T>> for DebugError {
    ghost from_gives = { λ _ e. e ≡ OutOfMemory };

    fn from(_e: AllocFailed<T>) -> DebugError {
        DebugError::OutOfMemory
    }
}
