//! What is asked of two words.

ghost use Rattle.std.specs.Prelude.{◌≡◌};
ghost use Rattle.zword.specs.Question.{holds};

/// A question on two words, as a branch asks it (Z 15).
#[derive(Clone, Copy, PartialEq, Eq)]
pub enum Question {
    /// Whether they are one word (`je`, and `jz` against 0).
    Equal,
    /// Whether the first is less, both signed (`jl`, `dec_chk`).
    Less,
    /// Whether the first is greater, both signed (`jg`, `inc_chk`).
    Greater,
    /// Whether the first has all bits of the second (`test`).
    Test,
}

impl Question {
    /// Whether it holds of two words.
    pub fn holds(self, first: u16, second: u16) -> bool
        ensures { result ≡ holds self first second }
    {
        match self {
            Question::Equal => first == second,
            Question::Less => first.cast_signed() < second.cast_signed(),
            Question::Greater => first.cast_signed() > second.cast_signed(),
            Question::Test => first & second == second,
        }
    }
}
