//! Why a machine stands still, and what it then waits for.

ghost use Rattle.std.specs.Prelude.{◌≡◌};
ghost use Rattle.zfault.specs.Answers.{pause_for};

/// Why a run stops with no fault. A pause changes nothing and is no step.
#[derive(Clone, Copy, Debug, PartialEq, Eq)]
pub enum Pause {
    /// `sread` waits for a line of the player (Z 15, sread).
    NeedLine,
    /// `random` waits for a random word (Z 2.4).
    NeedRandom,
    /// `save` waits to hear whether the save was kept (Z 15, save).
    NeedSave,
    /// `restore` waits for a save (Z 15, restore).
    NeedRestore,
    /// The steps of the budget were made (own).
    Budget,
    /// The instruction at the place is `quit` (Z 15, quit).
    Quit,
    /// A call where as many frames as the limit allows stand above the first, or a push to a stack of 65,535 words (own).
    FrameLimit,
}

/// What the instruction at the place waits for.
#[derive(Clone, Copy, Debug, PartialEq, Eq)]
pub enum Need {
    /// A line of the player.
    Line,
    /// A random word.
    Random,
    /// Whether a save was kept.
    Saved,
    /// A save, or that there is none.
    Restore,
}

/// The pause in which a machine waits for what it needs.
impl From<Need> for Pause {
    ghost from_gives = { λ need pause. pause ≡ pause_for need };

    fn from(need: Need) -> Pause {
        match need {
            Need::Line => Pause::NeedLine,
            Need::Random => Pause::NeedRandom,
            Need::Saved => Pause::NeedSave,
            Need::Restore => Pause::NeedRestore,
        }
    }
}
