//! Why a certificate isn't accepted.

ghost use Rattle.std.specs.Prelude.{◌≡◌};
ghost use Rattle.zcheck.specs.declared.refusal.Refusal.TheVariants.{OutOfMemory};
ghost use Rattle.zcheck.specs.declared.refusal.StreamRefusal.TheVariants.{Cert, Check};

use std::alloc::AllocError;
use thiserror::Error;
use zcert::CertError;
use zrule::Rule;

/// A rule on the story and its tables (own). The first that is named here has the lowest number.
#[derive(Clone, Copy, Debug, PartialEq, Eq)]
pub enum StoryRule {
    /// S1: release, serial, checksum and length are the story's.
    Identity,
    /// S2: the first place is listed, in the main code, with an empty stack.
    FirstPlace,
    /// S3: each routine begins at an even place of static memory, with the stated count of locals, and its head is whole there.
    RoutineHeads,
    /// S4: the loaded value of each global lies in its set.
    FirstGlobals,
    /// S5: each object has a property table: in dynamic memory, with falling numbers and a name of the stated length. No
    /// instruction changes a byte of it without asking, and stores may write each byte of its data that isn't frozen.
    PropertyTables,
    /// S6: parent, sibling and child of each object are objects, or none.
    Tree,
    /// S7: the 96 abbreviations are whole in memory, none uses another, and no instruction changes a byte of them.
    Abbreviations,
    /// S8: the globals and the object table share no byte, and what is frozen lies in dynamic memory behind the header,
    /// where no instruction changes it.
    Tables,
}

impl StoryRule {
    ghost use Rattle.zcheck.specs.Numbers.{number_of};

    /// The number after the `S` of its code.
    pub fn number(self) -> u8
        ensures { result ≡ number_of self }
    {
        match self {
            StoryRule::Identity => 1,
            StoryRule::FirstPlace => 2,
            StoryRule::RoutineHeads => 3,
            StoryRule::FirstGlobals => 4,
            StoryRule::PropertyTables => 5,
            StoryRule::Tree => 6,
            StoryRule::Abbreviations => 7,
            StoryRule::Tables => 8,
        }
    }
}

/// What is wrong first with a certificate: the lowest rule on the story that is broken, or else the lowest address at
/// which a rule is, with the lowest of them there.
#[derive(Clone, Copy, Debug, PartialEq, Eq, Error)]
pub enum Refusal {
    /// The story breaks a rule.
    #[error("the certificate doesn't hold of the story")]
    Story(StoryRule),
    /// The instruction at an address breaks a rule.
    #[error("the certificate doesn't hold of an instruction")]
    Instruction(u32, Rule),
    /// A growth was refused.
    #[error("out of memory")]
    OutOfMemory,
}

impl From<AllocError> for Refusal {
    ghost from_gives = { λ _ refusal. refusal ≡ OutOfMemory };

    fn from(_: AllocError) -> Refusal {
        Refusal::OutOfMemory
    }
}

/// Why a story isn't accepted with a certificate that comes in pieces.
#[derive(Clone, Copy, Debug, PartialEq, Eq, Error)]
pub enum StreamRefusal {
    /// The bytes aren't read as a certificate.
    #[error("{0}")]
    Cert(CertError),
    /// The certificate that they spell isn't accepted.
    #[error("{0}")]
    Check(Refusal),
}

impl From<CertError> for StreamRefusal {
    ghost from_gives = { λ error refusal. refusal ≡ Cert error };

    fn from(error: CertError) -> StreamRefusal {
        StreamRefusal::Cert(error)
    }
}

impl From<Refusal> for StreamRefusal {
    ghost from_gives = { λ refused refusal. refusal ≡ Check refused };

    fn from(refused: Refusal) -> StreamRefusal {
        StreamRefusal::Check(refused)
    }
}
