//! What one word makes.

ghost use Rattle.std.specs.Prelude.{◌≡◌};
ghost use Rattle.zword.specs.Unary.{transform};

/// An operation that makes one word of one (Z 15).
#[derive(Clone, Copy, PartialEq, Eq)]
pub enum UnaryOp {
    /// The word with each bit turned (`not`).
    Not,
    /// The word itself, for what only hands it on (`push`).
    Keep,
}

impl UnaryOp {
    /// The word that a word makes.
    pub fn apply(self, word: u16) -> u16
        ensures { result ≡ transform self word }
    {
        match self {
            UnaryOp::Not => !word,
            UnaryOp::Keep => word,
        }
    }
}
