//! What a command comes to.

ghost use Rattle.std.specs.Prelude.{◌≡◌};
ghost use Rattle.zperform.specs.Keeping.{magic_of, purpose_number};
ghost use Rattle.zperform.specs.Report.{problem_of_checking, problem_of_listing, problem_of_load, problem_of_play, problem_of_reading, problem_of_stream, problem_of_unpack, status_of};

use std::alloc::AllocError;
use zbatch::Tally;
use zcert::CertError;
use zcheck::{Refusal, StoryRule, StreamRefusal};
use zfind::{FindError, Obstacle};
use zlist::ListError;
use zplayer::{End, PlayError};
use zrule::Rule;
use zstory::LoadError;
use zunpack::UnpackError;

/// What a file, a device or the system kept from being done.
#[derive(Clone, Copy)]
pub enum Failure {
    /// A file can't be read or written.
    File,
    /// Input can't be read.
    Read,
    /// Output can't be written.
    Write,
    /// Memory was refused.
    Memory,
}

/// What a file is for that a command may write.
#[derive(Clone, Copy)]
pub enum Purpose {
    /// To keep a certificate.
    Certificate,
    /// To keep saves.
    Save,
}

impl Purpose {
    /// The four bytes by which such a file begins.
    pub fn magic(self) -> [u8; 4]
        ensures { result ≡ magic_of self }
    {
        match self {
            Purpose::Certificate => *b"ZPCC",
            Purpose::Save => *b"FORM",
        }
    }

    /// The number of the refusal of a file that holds something else.
    pub fn number(self) -> u8
        ensures { result ≡ purpose_number self }
    {
        match self {
            Purpose::Certificate => 1,
            Purpose::Save => 2,
        }
    }
}

/// Why a command wasn't done, or not to its end.
#[derive(Clone, Copy)]
pub enum Problem {
    /// The file is no story of this profile. Never for want of memory.
    Refused(LoadError),
    /// The file is no certificate. Never for want of memory.
    Unreadable(CertError),
    /// The certificate doesn't hold of the story.
    BreaksStory(StoryRule),
    /// The certificate doesn't hold of the instruction at an address.
    BreaksInstruction(u32, Rule),
    /// The story has no listing. Never for want of memory.
    Unlisted(ListError),
    /// No certificate was found; and what is broken in every one, if that is known. Never for want of memory.
    Unfound(FindError, Option<Obstacle>),
    /// The file that was to be written holds something else.
    Occupied(Purpose),
    /// The file is no save that can be unpacked. Never for want of memory.
    Packed(UnpackError),
    /// Something failed that isn't the story's fault.
    Failed(Failure),
}

/// What a command came to.
#[derive(Clone, Copy)]
pub enum Outcome {
    /// The story was listed.
    Listed,
    /// A certificate was found, and is in its file.
    Found,
    /// The certificate was accepted.
    Accepted,
    /// Each of many stories was gone through, and so many ended in each way.
    Through(Tally),
    /// The certificate was shown.
    Shown,
    /// The word is no address.
    NoAddress,
    /// What the story has was told.
    Informed,
    /// The code was explained.
    Explained,
    /// There is no such code.
    NoSuchCode,
    /// The save was unpacked, and the plain one is in its file.
    Unpacked,
    /// One certificate is named for more stories than one, or for none.
    OneForMany,
    /// The story was played, and ended so.
    Played(End),
    /// The command wasn't done, or not to its end.
    Stopped(Problem),
}

impl Outcome {
    /// The exit status.
    pub fn status(&self) -> u8
        ensures { result ≡ status_of self.now }
    {
        match self {
            Outcome::Played(End::Fault(_, _)) => 3,
            Outcome::Listed
            | Outcome::Found
            | Outcome::Accepted
            | Outcome::Shown
            | Outcome::Informed
            | Outcome::Explained
            | Outcome::Unpacked
            | Outcome::Played(_) => 0,
            Outcome::Through(tally) => tally.status(),
            Outcome::NoAddress | Outcome::NoSuchCode | Outcome::OneForMany => 2,
            Outcome::Stopped(Problem::Failed(_)) => 4,
            Outcome::Stopped(_) => 1,
        }
    }
}

impl From<LoadError> for Problem {
    ghost from_gives = { λ error problem. problem ≡ problem_of_load error };

    fn from(error: LoadError) -> Problem {
        match error {
            LoadError::OutOfMemory => Problem::Failed(Failure::Memory),
            _ => Problem::Refused(error),
        }
    }
}

impl From<CertError> for Problem {
    ghost from_gives = { λ error problem. problem ≡ problem_of_reading error };

    fn from(error: CertError) -> Problem {
        match error {
            CertError::OutOfMemory => Problem::Failed(Failure::Memory),
            _ => Problem::Unreadable(error),
        }
    }
}

impl From<Refusal> for Problem {
    ghost from_gives = { λ refusal problem. problem ≡ problem_of_checking refusal };

    fn from(refusal: Refusal) -> Problem {
        match refusal {
            Refusal::Story(rule) => Problem::BreaksStory(rule),
            Refusal::Instruction(address, rule) => Problem::BreaksInstruction(address, rule),
            Refusal::OutOfMemory => Problem::Failed(Failure::Memory),
        }
    }
}

impl From<StreamRefusal> for Problem {
    ghost from_gives = { λ refusal problem. problem ≡ problem_of_stream refusal };

    fn from(refusal: StreamRefusal) -> Problem {
        match refusal {
            StreamRefusal::Cert(error) => Problem::from(error),
            StreamRefusal::Check(refusal) => Problem::from(refusal),
        }
    }
}

impl From<ListError> for Problem {
    ghost from_gives = { λ error problem. problem ≡ problem_of_listing error };

    fn from(error: ListError) -> Problem {
        of_listing(error)
    }
}

/// What keeps a story from being listed, as a problem.
fn of_listing(error: ListError) -> Problem
    ensures { result ≡ problem_of_listing error }
{
    match error {
        ListError::OutOfMemory => Problem::Failed(Failure::Memory),
        _ => Problem::Unlisted(error),
    }
}

impl From<UnpackError> for Problem {
    ghost from_gives = { λ error problem. problem ≡ problem_of_unpack error };

    fn from(error: UnpackError) -> Problem {
        match error {
            UnpackError::OutOfMemory => Problem::Failed(Failure::Memory),
            _ => Problem::Packed(error),
        }
    }
}

impl From<PlayError> for Problem {
    ghost from_gives = { λ error problem. problem ≡ problem_of_play error };

    fn from(error: PlayError) -> Problem {
        Problem::Failed(match error {
            PlayError::Read => Failure::Read,
            PlayError::Write => Failure::Write,
            PlayError::OutOfMemory => Failure::Memory,
        })
    }
}

impl From<AllocError> for Problem {
    ghost use Rattle.std.specs.Prelude.{◌≡◌};
    ghost use Rattle.zperform.specs.declared.outcome.Failure.TheVariants.{Memory};
    ghost use Rattle.zperform.specs.declared.outcome.Problem.TheVariants.{Failed};

    ghost from_gives = { λ _ problem. problem ≡ Failed Memory };

    fn from(_: AllocError) -> Problem {
        Problem::Failed(Failure::Memory)
    }
}
