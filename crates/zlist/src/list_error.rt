//! Why no listing of a story is made.

ghost use Rattle.std.specs.Prelude.{◌≡◌};
ghost use Rattle.zlist.specs.declared.list_error.ListError.TheVariants.{OutOfMemory};

use std::alloc::AllocError;
use thiserror::Error;
use zcode::DecodeError;

/// What is at fault with what a story lists (own). Of several the one at the lowest address is answered, and of those at one
/// address the first.
#[derive(Clone, Copy, Debug, PartialEq, Eq, Error)]
pub enum ListError {
    /// U1: no instruction stands at a place that the code leads to, or no head at a routine that a constant calls. The place may
    /// lie outside memory.
    #[error("no instruction at {0}: {1}")]
    Decode(i32, DecodeError),
    /// U2: the instruction at the address belongs to two routines.
    #[error("the instruction at {0} belongs to two routines")]
    TwoRoutines(u32),
    /// U3: the instruction at the address jumps as far as a variable says.
    #[error("the jump at {0} has no constant target")]
    ComputedJump(u32),
    /// U4: memory was refused.
    #[error("out of memory")]
    OutOfMemory,
}

impl From<AllocError> for ListError {
    ghost from_gives = { λ _ error. error ≡ OutOfMemory };

    fn from(_: AllocError) -> ListError {
        ListError::OutOfMemory
    }
}
