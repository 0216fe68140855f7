//! The files that commands name.

ghost use Rattle.std.specs.Prelude.{◌≡◌, ◌<◌, ◌≤◌, ◌+◌, ℕ, Bool, true, false, List, None, Option, ◌⊎◌, Ok, Err, IfErr, IfOk, IfSome, IsErrOf, IsTrue, MatchBool, MatchOption, OnOk, ◌↔◌, Some, length, option_map, take, vec_len};
ghost use Rattle.zfault.specs.Devices.{RisesByOne};
ghost use Rattle.zplayer.specs.Outside.{CountsRefusal};
ghost use Rattle.zperform.specs.Blaming.{IsOf, IsUnread};
ghost use Rattle.zperform.specs.declared.blame.Blame.{Blame as Blamed};
ghost use Rattle.zperform.specs.Contents.{CountsNone, HasBytes, IsBeginning, ReadsPart, SparesOthers};
ghost use Rattle.zperform.specs.Devices.{ReadsUnless};
ghost use Rattle.zperform.specs.Finding.{HasAlone};
ghost use Rattle.zperform.specs.Keeping.{BeginsSo};

use crate::blame::{Action, Blame, Cause, NAME_LIMIT};
use crate::outcome::{Failure, Problem};
use crate::progress::Progress;
use arrayvec::{ArrayString, ArrayVec};
use itoa::Buffer;
use std::alloc::Global;
use std::fs;
use std::fs::OpenFile;
use std::io::{self, ErrorKind, Read, Seek, SeekFrom, Write};
use std::os::unix::fs::MetadataExt;
use std::path::Path;
use std::rt::Runtime;
use zfind::Watch;

/// The most bytes that are read of a file in one call.
pub const PIECE: usize = 4096;

/// Files by name, which are told how far a search for a certificate is.
pub trait Files: Watch {
    /// The bytes of the file of a name, where they are known.
    ghost known: { Self → List ℕ → Option (List ℕ) } = { λ _ _. None };

    /// How often a call failed so far, a `u64` that stays at its last value.
    ghost failures: { Self → ℕ };

    /// Whether a call on the file of a name can fail.
    ghost can_fail: { Self → List ℕ → Bool } = { λ _ _. true };

    /// The file of which a call failed last, and why, if one failed.
    ghost blamed: { Self → Option Blamed };

    /// The file of which a call failed last, and why, if one failed.
    fn blame(&self) -> Option<&Blame>
        ensures { option_map (λ blame. blame.now) result ≡ blamed self.now };

    /// Reads bytes of a file, from a place on, to the front of the buffer and answers how many: 0 of a buffer with room
    /// is the end of the file. `None` where it failed, and only then the count of failures rises, by one.
    fn read_at(&mut self, name: &str, from: u64, buffer: &mut [u8]) -> Option<usize>
        ensures bound { IfSome result (λ count. count ≤ length buffer.new) }
        ensures bytes { IfSome result (λ count. ReadsPart (known self.old name.now) from count buffer.new) }
        ensures kept { known self.new ≡ known self.old }
        ensures counts { CountsNone (failures self.old) (failures self.new) result }
        ensures blamed { MatchOption result (IsOf name.now Action.Read (blamed self.new)) (λ _. blamed self.new ≡ blamed self.old) }
        ensures could { result ≡ None → can_fail self.old name.now ≡ true }
        ensures alike { can_fail self.new ≡ can_fail self.old };

    /// Whether there is a file of a name, or a folder or a device. One of which something is known is there.
    fn is_there(&self, name: &str) -> bool
        ensures { IfSome (known self.now name.now) (λ _. result ≡ true) };

    /// Whether the file of a name may be written over by one that begins with these four bytes: unless it is a plain file that holds others.
    /// One that isn't there or can't be read may.
    fn may_replace(&self, name: &str, magic: [u8; 4]) -> bool
        ensures { IfSome (known self.now name.now) (λ bytes. IsTrue result ↔ BeginsSo magic bytes) };

    /// Makes a file that has these bytes alone. False where it failed, and only then the count of failures rises, by one.
    fn put(&mut self, name: &str, bytes: &[u8]) -> bool
        ensures whole { result ≡ true → HasAlone bytes.now (known self.new name.now) }
        ensures spared { SparesOthers name.now (known self.old) (known self.new) }
        ensures counts { CountsRefusal (failures self.old) (failures self.new) result }
        ensures blamed { MatchBool result (blamed self.new ≡ blamed self.old) (IsOf name.now Action.Write (blamed self.new)) }
        ensures could { result ≡ false → can_fail self.old name.now ≡ true }
        ensures alike { can_fail self.new ≡ can_fail self.old };

    /// What is shown of how far the work is goes, so that something else can be told.
    fn clear(&self);
}

/// A file that is open, and how far it was read.
#[derive(Drop)]
struct Opened<F> {
    name: ArrayVec<u8, NAME_LIMIT>,
    file: F,
    at: u64,
}

/// The files of the system. The one that was read last stays open, and goes on being read where that ended: so what can't be
/// read from a place on, as a pipe, is read from its beginning.
#[derive(Drop)]
pub struct Disk<'a, R: Runtime> {
    rt: &'a R,
    last: Option<Opened<R::File>>,
    failures: u64,
    blame: Option<Blame>,
    progress: Progress<'a, R>,
}

impl<'a, R: Runtime> Disk<'a, R> {
    /// The files that the runtime reaches. While work on them takes long, how far it is may be shown on the errors.
    pub fn new(rt: &'a R, shows: bool) -> Disk<'a, R>
        ensures failures { result.failures ≡ 0 }
        ensures blame { result.blame ≡ None }
    {
        Disk {
            rt,
            last: None,
            failures: 0,
            blame: None,
            progress: Progress::new(rt, shows),
        }
    }

    /// Opens a file to be read from a place on.
    fn open(&self, name: &str, from: u64) -> io::Result<Opened<R::File>> {
        let mut opened = Opened {
            name: ArrayVec::new(),
            file: fs::open(self.rt, name)?,
            at: from,
        };
        if opened.name.try_extend_from_slice(name.as_bytes()).is_err() {
            return Err(io::Error::from(ErrorKind::InvalidFilename));
        }
        if from > 0 {
            opened.file.seek(SeekFrom::Start(from))?;
        }
        Ok(opened)
    }

    /// Reads bytes of a file from a place on, where the file that was read last stands or else of a file opened anew.
    fn read_from(&mut self, name: &str, from: u64, buffer: &mut [u8]) -> io::Result<usize>
        ensures bound { IfOk result (λ count. count ≤ length buffer.new) }
        ensures failures { self.new.failures ≡ self.old.failures }
        ensures blame { self.new.blame ≡ self.old.blame }
    {
        let mut opened = match self.last.take() {
            Some(last) if last.at == from && last.name.as_slice() == name.as_bytes() => last,
            _ => self.open(name, from)?,
        };
        let count = opened.file.read(buffer)?;
        let Some(at) = opened.at.checked_add(count as u64) else {
            return Err(io::Error::from(ErrorKind::FileTooLarge));
        };
        opened.at = at;
        self.last = Some(opened);
        Ok(count)
    }

    /// Counts a failure, and blames the file of a name for it.
    fn fail(&mut self, name: &str, action: Action, cause: Cause)
        ensures counted { RisesByOne self.old.failures self.new.failures }
        ensures blamed { IsOf name.now action self.new.blame }
    {
        self.failures = self.failures.saturating_add(1);
        self.blame = Some(Blame::new(name, action, cause));
    }
}

impl<'a, R: Runtime> Files for Disk<'a, R> {
    ghost failures = { λ disk. disk.failures };

    ghost blamed = { λ disk. disk.blame };

    fn blame(&self) -> Option<&Blame> {
        self.blame.as_ref()
    }

    fn read_at(&mut self, name: &str, from: u64, buffer: &mut [u8]) -> Option<usize> {
        if from == 0 {
            self.progress.opened();
        }
        match self.read_from(name, from, buffer) {
            Ok(count) => Some(count),
            Err(error) => {
                self.fail(name, Action::Read, Cause::of(error.kind()));
                None
            }
        }
    }

    fn is_there(&self, name: &str) -> bool {
        fs::metadata(self.rt, name).is_ok()
    }

    fn may_replace(&self, name: &str, magic: [u8; 4]) -> bool {
        !holds_others(self.rt, name, magic).unwrap_or(false)
    }

    fn put(&mut self, name: &str, bytes: &[u8]) -> bool {
        self.last = None;
        match replace(self.rt, name, bytes) {
            Ok(()) => true,
            Err(error) => {
                self.fail(name, Action::Write, Cause::of(error.kind()));
                false
            }
        }
    }

    fn clear(&self) {
        self.progress.clear();
    }
}

impl<'a, R: Runtime> Watch for Disk<'a, R> {
    fn visited(&self, count: u32) {
        self.progress.visited(count);
    }
}

/// Whether a name leads to a plain file that doesn't begin with these four bytes, nor with a part of them where it is shorter.
fn holds_others<R: Runtime>(rt: &R, name: &str, magic: [u8; 4]) -> io::Result<bool> {
    if !fs::metadata(rt, name)?.is_file() {
        return Ok(false);
    }
    let mut first = [0; 4];
    let count = fs::open(rt, name)?.read(&mut first)?;
    Ok(first[..count] != magic[..count])
}

/// How many names are tried for a file beside another.
const PARTS: u32 = 1000;

/// The longest name of a file beside another: behind the other's name come a point and three digits, and `.part`.
const BESIDE_LIMIT: usize = NAME_LIMIT + 9;

/// The name of a file beside another.
type Beside = ArrayString<BESIDE_LIMIT>;

/// Writes a file whole in the place of the one of its name, or of the one that a link of that name leads to. A plain file is written beside
/// that first, and takes its name once it is through, so that a full disk, or an end of the program, leaves the old one; anything else, as a
/// pipe, is written to.
fn replace<R: Runtime>(rt: &R, name: &str, bytes: &[u8]) -> io::Result<()> {
    match fs::symlink_metadata(rt, name) {
        Ok(there) if there.is_symlink() => replace_linked(rt, name, bytes),
        Ok(there) if there.is_file() => replace_plain(rt, name, Some(&there), bytes),
        Ok(_) => fs::write(rt, name, bytes),
        Err(_) => replace_plain(rt, name, None, bytes),
    }
}

/// Replaces the file that a link leads to, and leaves the link.
fn replace_linked<R: Runtime>(rt: &R, link: &str, bytes: &[u8]) -> io::Result<()> {
    let Ok(target) = rt.canonicalize(rt.alloc(), link) else {
        return replace_missing(rt, link, bytes);
    };
    let there = fs::metadata(rt, target.as_str())?;
    if !there.is_file() {
        return fs::write(rt, link, bytes);
    }
    replace_plain(rt, target.as_str(), Some(&there), bytes)
}

/// Makes the file that a link leads to where there is none. Where that is one more link, it is written through.
fn replace_missing<R: Runtime>(rt: &R, link: &str, bytes: &[u8]) -> io::Result<()> {
    let mut target = Path::new(link).to_path_buf(rt.alloc())?;
    let _ = target.pop();
    target.push(rt.read_link(rt.alloc(), link)?.as_str())?;
    match fs::symlink_metadata(rt, target.as_str()) {
        Ok(_) => fs::write(rt, link, bytes),
        Err(_) => replace_plain(rt, target.as_str(), None, bytes),
    }
}

/// Writes a plain file beside the one of its name, with the mode and the owner of the one that is there, and gives it that name. Where none may
/// be made there, as in a folder that isn't the player's, the one that is there is written to.
fn replace_plain<R: Runtime>(
    rt: &R,
    name: &str,
    there: Option<&fs::Metadata>,
    bytes: &[u8],
) -> io::Result<()> {
    match create_beside(rt, name) {
        Ok((beside, mut file)) => {
            let written = write_through(rt, &beside, &mut file, there, bytes);
            let done = written.and_then(|()| fs::rename(rt, beside.as_str(), name));
            if done.is_err() {
                let _ = fs::remove_file(rt, beside.as_str());
            }
            done
        }
        Err(error) if error.kind() == ErrorKind::PermissionDenied && there.is_some() => {
            fs::write(rt, name, bytes)
        }
        Err(error) => Err(error),
    }
}

/// Makes a file beside another, of a name that none has: what another program is writing, or has left, isn't touched.
fn create_beside<R: Runtime>(rt: &R, name: &str) -> io::Result<(Beside, R::File)> {
    'names: for number in 0..PARTS {
        let beside = beside(name, number)?;
        match fs::File::create_new(rt, beside.as_str()) {
            Ok(file) => return Ok((beside, file)),
            Err(error) if error.kind() == ErrorKind::AlreadyExists => {}
            Err(error) => return Err(error),
        }
    }
    Err(io::Error::from(ErrorKind::AlreadyExists))
}

/// A name beside another: `NAME.part` is the first, and then come `NAME.1.part`, `NAME.2.part` and so on.
fn beside(name: &str, number: u32) -> io::Result<Beside> {
    let mut beside = Beside::new();
    push(&mut beside, name)?;
    if number > 0 {
        push(&mut beside, ".")?;
        push(&mut beside, Buffer::new().format(number))?;
    }
    push(&mut beside, ".part")?;
    Ok(beside)
}

fn push(name: &mut Beside, more: &str) -> io::Result<()> {
    match name.try_push_str(more) {
        Ok(()) => Ok(()),
        Err(_) => Err(io::Error::from(ErrorKind::InvalidFilename)),
    }
}

/// Writes a new file, with the mode and the owner of another, and sees that it is on its device. An owner that the system doesn't let be is
/// left.
fn write_through<R: Runtime>(
    rt: &R,
    name: &Beside,
    file: &mut R::File,
    like: Option<&fs::Metadata>,
    bytes: &[u8],
) -> io::Result<()> {
    if let Some(like) = like {
        let _ = rt.chown(name.as_str(), Some(like.uid()), Some(like.gid()));
        file.set_permissions(like.permissions())?;
    }
    file.write_all(bytes)?;
    file.sync_all()
}

/// The bytes of a file, at most so many, whatever size the system says that it has. Memory is taken for the bytes that were
/// read alone.
pub fn read_file<F: Files>(
    alloc: Global,
    files: &mut F,
    name: &str,
    most: usize,
) -> Result<Vec<u8>, Problem>
    ensures read { (bytes : List ℕ) → F.known files.old name.now ≡ Some bytes → IfOk result (λ file. file.items ≡ take most bytes) }
    ensures bound { IfOk result (λ file. vec_len file ≤ most) }
    ensures failed { IfErr result (λ problem. (problem ≡ Problem.Failed Failure.File) ⊎ (problem ≡ Problem.Failed Failure.Memory)) }
    ensures wanted { result ≡ Err (Problem.Failed Failure.Memory) → HasBytes (F.known files.old name.now) }
    ensures files { ReadsUnless F.known F.failures F.can_fail files.old files.new (IsErrOf result (Problem.Failed Failure.File)) }
    ensures could { IsErrOf result (Problem.Failed Failure.File) → F.can_fail files.old name.now ≡ true }
    ensures blamed { IsErrOf result (Problem.Failed Failure.File) → IsUnread name.now (F.blamed files.new) }
{
    let mut file = Vec::new(alloc);
    'pieces: while read_more(files, name, &mut file, most)? {}
    Ok(file)
}

/// Appends more of a file, of which the vector has the beginning, and answers whether there may be more: not at its end, nor
/// where the vector has so many bytes.
fn read_more<F: Files>(
    files: &mut F,
    name: &str,
    file: &mut Vec<u8>,
    most: usize,
) -> Result<bool, Problem>
    requires { vec_len file.old ≤ most }
    ensures bound { OnOk result (vec_len file.new ≤ most) }
    ensures grown { result ≡ Ok true → vec_len file.old < vec_len file.new }
    ensures more { (bytes : List ℕ) → F.known files.old name.now ≡ Some bytes → IsBeginning file.old.items bytes → OnOk result (IsBeginning file.new.items bytes) }
    ensures whole { (bytes : List ℕ) → F.known files.old name.now ≡ Some bytes → IsBeginning file.old.items bytes → result ≡ Ok false → file.new.items ≡ take most bytes }
    ensures failed { IfErr result (λ problem. (problem ≡ Problem.Failed Failure.File) ⊎ (problem ≡ Problem.Failed Failure.Memory)) }
    ensures wanted { result ≡ Err (Problem.Failed Failure.Memory) → HasBytes (F.known files.old name.now) }
    ensures files { ReadsUnless F.known F.failures F.can_fail files.old files.new (IsErrOf result (Problem.Failed Failure.File)) }
    ensures could { IsErrOf result (Problem.Failed Failure.File) → F.can_fail files.old name.now ≡ true }
    ensures blamed { IsErrOf result (Problem.Failed Failure.File) → IsUnread name.now (F.blamed files.new) }
{
    let at = file.len();
    if at == most {
        return Ok(false);
    }
    let mut piece = [0; PIECE];
    let part = &mut piece[..PIECE.min(most - at)];
    let Some(count) = files.read_at(name, at as u64, part) else {
        return Err(Problem::Failed(Failure::File));
    };
    file.extend_from_slice(&part[..count])?;
    Ok(count > 0)
}
