//! How playing is asked for, and how it ends.

use std::alloc::AllocError;
use thiserror::Error;
use zfault::{Fault, Pause};
use zscreen::StatusLines;
use zstate::Stop;

/// How to play.
#[derive(Clone, Copy, Debug, PartialEq, Eq)]
pub struct Options {
    /// The most steps that are made.
    pub budget: u32,
    /// How status lines are shown.
    pub status: StatusLines,
}

/// How playing ended.
#[derive(Clone, Copy, Debug, PartialEq, Eq)]
pub enum End {
    /// The story quit.
    Quit,
    /// The story waits for a line, and there is none.
    NoInput,
    /// The steps of the budget were made.
    Budget,
    /// A call or a push found no room (own).
    FrameLimit,
    /// The story met a fault, at the place of this instruction.
    Fault(Fault, i32),
}

/// How playing ends where a run stops so. A need that nothing answers is a want of input.
impl From<Stop> for End {
    ghost use Rattle.std.specs.Prelude.{◌≡◌};
    ghost use Rattle.zplayer.specs.Playing.{end_of};

    ghost from_gives = { λ stop end. end ≡ end_of stop };

    fn from(stop: Stop) -> End {
        match stop {
            Stop::Paused(Pause::Budget) => End::Budget,
            Stop::Paused(Pause::Quit) => End::Quit,
            Stop::Paused(Pause::FrameLimit) => End::FrameLimit,
            Stop::Paused(
                Pause::NeedLine | Pause::NeedRandom | Pause::NeedSave | Pause::NeedRestore,
            ) => { End::NoInput }
            Stop::Fault(fault, place) => End::Fault(fault, place),
        }
    }
}

/// Why playing broke off.
#[derive(Clone, Copy, Debug, PartialEq, Eq, Error)]
pub enum PlayError {
    /// P1: the reader failed.
    #[error("reading failed")]
    Read,
    /// P2: the writer failed.
    #[error("writing failed")]
    Write,
    /// P3: memory was refused.
    #[error("out of memory")]
    OutOfMemory,
}

impl From<AllocError> for PlayError {
    ghost use Rattle.std.specs.Prelude.{◌≡◌};
    ghost use Rattle.zplayer.specs.declared.end.PlayError.TheVariants.{OutOfMemory};

    ghost from_gives = { λ _ error. error ≡ OutOfMemory };

    fn from(_: AllocError) -> PlayError {
        PlayError::OutOfMemory
    }
}
