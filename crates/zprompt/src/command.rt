//! What a player says to the program, and not to the story.

ghost use Rattle.std.specs.Prelude.{◌≡◌};
ghost use Rattle.zprompt.specs.Commands.{command_of, named};

/// A command of the player.
#[derive(Clone, Copy, Debug, PartialEq, Eq)]
pub enum Command {
    /// Play goes back to the prompt before.
    Undo,
    /// Play ends.
    Quit,
    /// The commands are told.
    Help,
    /// It is none of these.
    Unknown,
}

/// The command that a line is, if it is one: each begins with a `/`.
pub fn command_of(line: &[u8]) -> Option<Command>
    ensures { result ≡ command_of line.now }
{
    match line {
        [b'/', word @ ..] => Some(named(word)),
        _ => None,
    }
}

/// The command that a word names.
fn named(word: &[u8]) -> Command
    ensures { result ≡ named word.now }
{
    if word == b"undo".as_slice() {
        return Command::Undo;
    }
    if word == b"quit".as_slice() {
        return Command::Quit;
    }
    if word == b"help".as_slice() {
        return Command::Help;
    }
    Command::Unknown
}
