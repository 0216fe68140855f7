//! What is told of a command.

ghost use Rattle.std.specs.Prelude.{◌≡◌};
ghost use Rattle.zprompt.specs.Answers.{text_of};

/// What a command is answered with.
#[derive(Clone, Copy, Debug, PartialEq, Eq)]
pub enum Answer {
    /// Play stands at the prompt before.
    Undone,
    /// No prompt before is kept.
    NothingKept,
    /// Memory to go back was refused.
    NoMemory,
    /// Which commands there are.
    Commands,
    /// There is no such command.
    NoSuch,
}

impl Answer {
    /// What is written of it, and the prompt once more.
    pub fn text(self) -> &'static [u8]
        ensures { result.now ≡ text_of self }
    {
        match self {
            Answer::Undone => b"[undone]\n\n>",
            Answer::NothingKept => b"[nothing to undo]\n\n>",
            Answer::NoMemory => b"[not undone: out of memory]\n\n>",
            Answer::Commands => {
                b"[/undo takes the last line back, /quit ends play, /help tells this]\n\n>"
            }
            Answer::NoSuch => b"[no such command: /help tells which there are]\n\n>",
        }
    }
}
