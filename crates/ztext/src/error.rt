//! Why a text can't be decoded.

use thiserror::Error;

/// Why a text can't be decoded. Where several causes hold, the first of them is answered.
#[derive(Clone, Copy, Debug, PartialEq, Eq, Error)]
pub enum TextError {
    /// E1: the text, or an abbreviation that it uses, isn't whole in memory.
    #[error("the text is not whole in memory")]
    Outside,
    /// E2: an abbreviation that the text uses itself uses an abbreviation.
    #[error("an abbreviation uses an abbreviation")]
    NestedAbbreviation,
    /// E3: the output found no room.
    #[error("out of memory")]
    OutOfMemory,
}
