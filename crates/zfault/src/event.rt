//! What a machine is handed while it waits.

ghost use Rattle.std.specs.Prelude.{◌≡◌};
ghost use Rattle.zfault.specs.Answers.{answers};

use crate::line::Line;
use crate::pause::Need;

/// An answer to what a machine needs.
#[derive(Clone, Copy, Debug, PartialEq, Eq)]
pub enum Event {
    /// What the player typed, for `sread`.
    Line(Line),
    /// A random word, for `random`.
    Random(u16),
    /// Whether the save was kept, for `save`; true too at the `save` that a restored game goes on from (Z 15, save).
    Saved(bool),
    /// There is no save, or none that is accepted, for `restore`.
    NotRestored,
}

impl Event {
    /// Whether a machine that needs this can go on with the event.
    pub fn answers(&self, need: Need) -> bool
        ensures { result ≡ answers need self.now }
    {
        matches!(
            (need, self),
            (Need::Line, Event::Line(_))
                | (Need::Random, Event::Random(_))
                | (Need::Saved, Event::Saved(_))
                | (Need::Restore, Event::NotRestored)
        )
    }
}
