//! How a play is asked for.

use zplayer::Options;

/// How to play.
#[derive(Clone, Copy, Debug, PartialEq, Eq)]
pub struct Manner {
    /// The steps, and how status lines are shown. With commands the steps are those from one prompt to the next.
    pub options: Options,
    /// Whether a line that begins with a `/` is a command of the player's own.
    pub commands: bool,
}
