//! Certificates fed to the checker from their files, piece by piece.

ghost use Rattle.std.specs.Prelude.{◌≡◌, ◌+◌, ◌≤◌, true, None, Ok, IfErr, IfOk, IfSome, IsErrOf, length, take};
ghost use Rattle.zperform.specs.Blaming.{IsUnread};
ghost use Rattle.zperform.specs.Accepting.{IsFedTo, IsFedWhole, IsNoCertificate, version_of};
ghost use Rattle.zperform.specs.Devices.{ReadsUnless};

use crate::files::{Files, PIECE};
use crate::outcome::{Failure, Problem};
use std::alloc::Global;
use zcert::Spelled;
use zcheck::CheckStream;
use zstory::Story;

/// How many bytes tell the version of a certificate's file.
pub const HEADING: usize = 5;

/// How many pieces are read of a file: no more bytes can be counted. A certificate's limits end it long before.
const PIECES: u64 = u64::MAX / PIECE as u64;

/// A stream that was fed the file of a certificate, to be checked with a story. The first bytes were read, all where the file has no more
/// of them. No more of the file is read once the stream refuses it, and no more than a piece of it is held.
pub fn feed_certificate<V: Spelled, F: Files>(
    alloc: Global,
    story: Story,
    name: &str,
    first: &[u8],
    files: &mut F,
) -> Result<CheckStream<V>, Problem>
    requires first { IfSome (F.known files.old name.now) (λ file. first.now ≡ take 5 file) }
    requires few { length first.now ≤ 5 }
    requires version { version_of first.now ≡ V.format.version }
    ensures story { IfOk result (λ stream. stream.story ≡ story) }
    ensures fed { IfOk result (λ stream. IsFedWhole V.format (F.known files.old name.now) stream.stream) }
    ensures open { IfOk result (λ stream. stream.stream.refused ≡ None) }
    ensures refused { IfErr result (IsNoCertificate V.format (F.known files.old name.now)) }
    ensures files { ReadsUnless F.known F.failures F.can_fail files.old files.new (IsErrOf result (Problem.Failed Failure.File)) }
    ensures could { IsErrOf result (Problem.Failed Failure.File) → F.can_fail files.old name.now ≡ true }
    ensures blamed { IsErrOf result (Problem.Failed Failure.File) → IsUnread name.now (F.blamed files.new) }
{
    let mut stream = CheckStream::new(alloc, story);
    stream.feed(first)?;
    if first.len() < HEADING {
        return Ok(stream);
    }
    let mut at = first.len() as u64;
    'pieces: for _piece in 0..PIECES {
        let count = feed_piece(files, name, at, &mut stream)?;
        if count == 0 {
            return Ok(stream);
        }
        at += count as u64;
    }
    Err(Problem::Failed(Failure::Memory))
}

/// Feeds the piece of a file that begins at a place to a stream that was fed what is before it, and answers how many bytes it has:
/// none at the end of the file.
fn feed_piece<V: Spelled, F: Files>(
    files: &mut F,
    name: &str,
    at: u64,
    stream: &mut CheckStream<V>,
) -> Result<usize, Problem>
    requires version { 5 ≤ at }
    requires fed { IsFedTo V.format (F.known files.old name.now) at stream.old.stream }
    ensures story { stream.new.story ≡ stream.old.story }
    ensures bound { IfOk result (λ count. count ≤ 4096) }
    ensures open { IfOk result (λ _. stream.new.stream.refused ≡ None) }
    ensures more { IfOk result (λ count. IsFedTo V.format (F.known files.old name.now) (at + count) stream.new.stream) }
    ensures whole { result ≡ Ok 0 → IsFedWhole V.format (F.known files.old name.now) stream.new.stream }
    ensures refused { IfErr result (IsNoCertificate V.format (F.known files.old name.now)) }
    ensures files { ReadsUnless F.known F.failures F.can_fail files.old files.new (IsErrOf result (Problem.Failed Failure.File)) }
    ensures could { IsErrOf result (Problem.Failed Failure.File) → F.can_fail files.old name.now ≡ true }
    ensures blamed { IsErrOf result (Problem.Failed Failure.File) → IsUnread name.now (F.blamed files.new) }
{
    let mut piece = [0; PIECE];
    let Some(count) = files.read_at(name, at, &mut piece) else {
        return Err(Problem::Failed(Failure::File));
    };
    stream.feed(&piece[..count])?;
    Ok(count)
}
