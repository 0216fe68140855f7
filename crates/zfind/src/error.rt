//! Why no certificate is found.

ghost use Rattle.std.specs.Prelude.{◌≡◌};
ghost use Rattle.zfind.specs.declared.error.FindError.TheVariants.{OutOfMemory};
ghost use Rattle.zfind.specs.Finding.{refused_for, told_of};

use std::alloc::AllocError;
use thiserror::Error;
use zcert::CertError;
use zcheck::{Refusal, StoryRule};
use zlist::ListError;
use zrule::Rule;

/// What stands in the way of a certificate.
#[derive(Clone, Copy, Debug, PartialEq, Eq)]
pub enum Obstacle {
    /// A rule on the story is broken.
    Story(StoryRule),
    /// A rule is broken at a place, which may lie outside memory.
    Place(i32, Rule),
}

/// Why no certificate is found.
#[derive(Clone, Copy, Debug, PartialEq, Eq, Error)]
pub enum FindError {
    /// G1: none was found that passes. What stood in its way is told.
    #[error("no certificate was found")]
    NotFound(Obstacle),
    /// G2: more instructions would have to be visited than the finder visits, or more work done than it does.
    #[error("the search took too long")]
    RoundLimit,
    /// G3: a growth was refused.
    #[error("out of memory")]
    OutOfMemory,
}

impl FindError {
    ghost use Rattle.zfind.specs.Finding.{number_of};

    /// The number after the `G` of its code.
    pub fn number(self) -> u8
        ensures { result ≡ number_of self }
    {
        match self {
            FindError::NotFound(_) => 1,
            FindError::RoundLimit => 2,
            FindError::OutOfMemory => 3,
        }
    }
}

impl From<AllocError> for FindError {
    ghost from_gives = { λ _ error. error ≡ OutOfMemory };

    fn from(_: AllocError) -> FindError {
        FindError::OutOfMemory
    }
}

impl From<ListError> for FindError {
    ghost from_gives = { λ fault error. error ≡ told_of fault };

    fn from(fault: ListError) -> FindError {
        match fault {
            ListError::Decode(place, _) => FindError::NotFound(Obstacle::Place(
                place,
                Rule::Decodes,
            )),
            ListError::TwoRoutines(address) | ListError::ComputedJump(address) => {
                FindError::NotFound(Obstacle::Place(address.cast_signed(), Rule::Successor))
            }
            ListError::OutOfMemory => FindError::OutOfMemory,
        }
    }
}

impl From<Refusal> for FindError {
    ghost from_gives = { λ refusal error. error ≡ refused_for refusal };

    fn from(refusal: Refusal) -> FindError {
        match refusal {
            Refusal::Story(rule) => FindError::NotFound(Obstacle::Story(rule)),
            Refusal::Instruction(address, rule) => {
                FindError::NotFound(Obstacle::Place(address.cast_signed(), rule))
            }
            Refusal::OutOfMemory => FindError::OutOfMemory,
        }
    }
}

// A builder refuses nothing else of what is found, since its fields come in their turn and keep the limits.
impl From<CertError> for FindError {
    ghost from_gives = { λ _ error. error ≡ OutOfMemory };

    fn from(_: CertError) -> FindError {
        FindError::OutOfMemory
    }
}
