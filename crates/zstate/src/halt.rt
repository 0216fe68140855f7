//! Why a machine stands still.

use zfault::{Fault, Need, Pause};

/// What keeps an instruction from being done.
#[derive(Clone, Copy, Debug, PartialEq, Eq)]
pub enum Halt {
    /// It has no meaning here.
    Fault(Fault),
    /// It waits for an event.
    Need(Need),
    /// It is `quit`.
    Quit,
    /// It is a call with no room for its frame, or a push with none for its word (own).
    FrameLimit,
}

/// Why a run stops.
#[derive(Clone, Copy, Debug, PartialEq, Eq)]
pub enum Stop {
    /// Nothing is wrong, but the machine doesn't go on.
    Paused(Pause),
    /// A fault, with the place of the instruction that meets it.
    Fault(Fault, i32),
}
