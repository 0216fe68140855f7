//! Which file failed last, and why.

ghost use Rattle.std.specs.Prelude.{◌≡◌, ◌⊎◌, ◌≤◌, length, min, take};
ghost use Rattle.zperform.specs.Blaming.{IsBlameOf, asked_text, cause_text};

use arrayvec::ArrayVec;
use std::io::ErrorKind;

/// The longest name of a file that the system opens.
pub const NAME_LIMIT: usize = 4096;

/// What was asked of a file.
#[derive(Clone, Copy, Debug, PartialEq, Eq)]
pub enum Action {
    /// To be read.
    Read,
    /// To be written.
    Write,
}

impl Action {
    /// What couldn't be done, in words.
    pub fn text(self) -> &'static str
        ensures { result.now ≡ asked_text self }
    {
        match self {
            Action::Read => "cannot read",
            Action::Write => "cannot write",
        }
    }
}

/// Why the system refused it.
#[derive(Clone, Copy, Debug, PartialEq, Eq)]
pub enum Cause {
    /// There is none of the name.
    Missing,
    /// It isn't allowed.
    Denied,
    /// It is a folder.
    Folder,
    /// A part of its path is no folder.
    NoFolder,
    /// The device is full.
    Full,
    /// The name is longer than names may be, or has a byte that none may have.
    BadName,
    /// It holds something, and isn't to be written over.
    NotEmpty,
    /// Anything else.
    Other,
}

impl Cause {
    /// The cause that the system tells.
    pub fn of(kind: ErrorKind) -> Cause
        ensures missing { kind ≡ ErrorKind.NotFound → result ≡ Cause.Missing }
        ensures denied { (kind ≡ ErrorKind.PermissionDenied) ⊎ (kind ≡ ErrorKind.ReadOnlyFilesystem) → result ≡ Cause.Denied }
        ensures folder { kind ≡ ErrorKind.IsADirectory → result ≡ Cause.Folder }
        ensures no_folder { kind ≡ ErrorKind.NotADirectory → result ≡ Cause.NoFolder }
        ensures full { (kind ≡ ErrorKind.StorageFull) ⊎ (kind ≡ ErrorKind.QuotaExceeded) → result ≡ Cause.Full }
        ensures bad_name { kind ≡ ErrorKind.InvalidFilename → result ≡ Cause.BadName }
    {
        match kind {
            ErrorKind::NotFound => Cause::Missing,
            ErrorKind::PermissionDenied | ErrorKind::ReadOnlyFilesystem => Cause::Denied,
            ErrorKind::IsADirectory => Cause::Folder,
            ErrorKind::NotADirectory => Cause::NoFolder,
            ErrorKind::StorageFull | ErrorKind::QuotaExceeded => Cause::Full,
            ErrorKind::InvalidFilename => Cause::BadName,
            _ => Cause::Other,
        }
    }

    /// The cause in words, by what was asked.
    pub fn text(self, action: Action) -> &'static str
        ensures { result.now ≡ cause_text action self }
    {
        match (action, self) {
            (Action::Read, Cause::Missing) => "no such file",
            (Action::Write, Cause::Missing) => "no such folder",
            (_, Cause::Denied) => "permission denied",
            (_, Cause::Folder) => "it is a folder",
            (_, Cause::NoFolder) => "a part of its path is no folder",
            (_, Cause::Full) => "the device is full",
            (_, Cause::BadName) => "no file can have this name",
            (_, Cause::NotEmpty) => "it is not empty",
            (_, Cause::Other) => "the system failed",
        }
    }
}

/// A file of which a call failed.
#[derive(Drop)]
pub struct Blame {
    /// Its name, as far as the longest goes that the system opens.
    pub name: ArrayVec<u8, NAME_LIMIT>,
    /// What was asked of it.
    pub action: Action,
    /// Why that failed.
    pub cause: Cause,
}

impl Blame {
    /// The blame of the file of a name.
    pub fn new(name: &str, action: Action, cause: Cause) -> Blame
        ensures of { IsBlameOf name.now action result }
        ensures cause { result.cause ≡ cause }
    {
        Blame {
            name: kept(front(name.as_bytes())),
            action,
            cause,
        }
    }
}

/// The bytes of a name as far as the longest goes that the system opens.
fn front(name: &[u8]) -> &[u8]
    ensures front { result.now ≡ take (min (length name.now) 4096) name.now }
    ensures few { length result.now ≤ 4096 }
{
    &name[..name.len().min(NAME_LIMIT)]
}

/// These bytes, kept.
fn kept(name: &[u8]) -> ArrayVec<u8, NAME_LIMIT>
    requires { length name.now ≤ 4096 }
    ensures { result.items ≡ name.now }
{
    let mut kept = ArrayVec::new();
    let _ = kept.try_extend_from_slice(name);
    kept
}
