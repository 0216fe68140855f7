//! What is told of a story's file, and of the certificate beside it.

ghost use Rattle.std.specs.Prelude.{◌≡◌, ◌≤◌, true, IfErr, IfOk, IfSome, IsErrOf, length, string_bytes, take};
ghost use Rattle.zfault.specs.Devices.{RisesByOne};
ghost use Rattle.zperform.specs.Blaming.{IsUnread};
ghost use Rattle.zperform.specs.Accepting.{version_of};
ghost use Rattle.zperform.specs.Devices.{FlushesUnless, ReadsUnless};
ghost use Rattle.zperform.specs.Informing.{HoldsDigested, HoldsInfo, InfoComesTo, IsBeside, IsKeptOf, IsNoInfo, IsNotKept, IsUntold, beside_by, info_text, kept_of, lines_of};

use crate::accepting::{STORY_LIMIT, has_lists, load_bytes};
use crate::feeding::{HEADING, feed_certificate};
use crate::files::{Files, read_file};
use crate::outcome::{Failure, Outcome, Problem};
use crate::performing::write_done;
use crate::showing::is_of;
use std::alloc::{AllocError, Global};
use zbatch::name_beside;
use zcert::{Certificate, Spelled};
use zcheck::StoryRule;
use zdomain::{Interval, Values};
use zfault::Sink;
use zinfo::{Beside, Info, Kept, info, object_of_info, text_of_beside, text_of_info};
use zjson::digest_text;
use zstory::Story;

/// The ending of a certificate's name, in the place of a story's.
pub const ENDING: &str = "cert";

/// Writes what the story of a file says of itself, and what it has, and what the certificate beside it has, if there is one: nothing before
/// all of it is made. The certificate needn't be accepted.
pub fn inform<F: Files, W: Sink>(
    alloc: Global,
    story: &str,
    json: bool,
    files: &mut F,
    writer: &mut W,
) -> Outcome
    ensures comes { InfoComesTo json story.now (F.known files.old) (W.contents writer.old) (W.contents writer.new) result }
    ensures writer { FlushesUnless W.failures W.waits writer.old writer.new (result ≡ Outcome.Stopped (Problem.Failed Failure.Write)) }
    ensures kept { F.known files.new ≡ F.known files.old }
    ensures unread { result ≡ Outcome.Stopped (Problem.Failed Failure.File) → RisesByOne (F.failures files.old) (F.failures files.new) }
    ensures could { result ≡ Outcome.Stopped (Problem.Failed Failure.File) → F.can_fail files.old story.now ≡ true }
    ensures blamed { result ≡ Outcome.Stopped (Problem.Failed Failure.File) → IsUnread story.now (F.blamed files.new) }
{
    match informed(alloc, story, json, files) {
        Ok(text) => write_done(&text, Outcome::Informed, writer),
        Err(problem) => Outcome::Stopped(problem),
    }
}

/// What is told of a story's file, and of what stands beside it.
fn informed<F: Files>(
    alloc: Global,
    name: &str,
    json: bool,
    files: &mut F,
) -> Result<Vec<u8>, Problem>
    ensures informed { IfOk result (λ text. HoldsInfo json name.now (F.known files.old) text.items) }
    ensures refused { IfErr result (IsNoInfo (F.known files.old name.now)) }
    ensures kept { F.known files.new ≡ F.known files.old }
    ensures unread { IsErrOf result (Problem.Failed Failure.File) → RisesByOne (F.failures files.old) (F.failures files.new) }
    ensures could { IsErrOf result (Problem.Failed Failure.File) → F.can_fail files.old name.now ≡ true }
    ensures blamed { IsErrOf result (Problem.Failed Failure.File) → IsUnread name.now (F.blamed files.new) }
    ensures unwritten { ¬ IsErrOf result (Problem.Failed Failure.Write) }
{
    let (story, digest) = open_digested(alloc, name, files)?;
    let facts = info(alloc, &story)?;
    let certificate = name_beside(alloc, name, ENDING)?;
    let beside = beside_of(alloc, story, certificate.as_str(), files)?;
    let text = text_of(
        alloc,
        json,
        name,
        digest.as_str(),
        &facts,
        certificate.as_str(),
        &beside,
    )?;
    Ok(text)
}

/// The facts of a story, and what stands beside it, as an object of JSON or as lines.
fn text_of(
    alloc: Global,
    json: bool,
    name: &str,
    digest: &str,
    facts: &Info,
    certificate: &str,
    beside: &Beside,
) -> Result<Vec<u8>, AllocError>
    ensures { IfOk result (λ text. text.items ≡ info_text json name.now digest.now facts.now certificate.now beside.now) }
{
    if json {
        object_of_info(alloc, name, digest, facts, certificate, beside)
    } else {
        lines_of(alloc, facts, beside)
    }
}

/// The facts of a story, and what stands beside it, as lines.
fn lines_of(alloc: Global, facts: &Info, beside: &Beside) -> Result<Vec<u8>, AllocError>
    ensures { IfOk result (λ text. text.items ≡ lines_of facts.now beside.now) }
{
    let mut text = Vec::new(alloc);
    text.extend_from_slice(text_of_info(alloc, facts)?.as_bytes())?;
    text.extend_from_slice(text_of_beside(alloc, beside)?.as_bytes())?;
    Ok(text)
}

/// The story of a file, with the SHA-256 of that.
fn open_digested<F: Files>(
    alloc: Global,
    name: &str,
    files: &mut F,
) -> Result<(Story, String), Problem>
    ensures held { IfOk result (λ opened. HoldsDigested (F.known files.old name.now) opened.0 (string_bytes opened.1)) }
    ensures refused { IfErr result (IsNoInfo (F.known files.old name.now)) }
    ensures files { ReadsUnless F.known F.failures F.can_fail files.old files.new (IsErrOf result (Problem.Failed Failure.File)) }
    ensures could { IsErrOf result (Problem.Failed Failure.File) → F.can_fail files.old name.now ≡ true }
    ensures blamed { IsErrOf result (Problem.Failed Failure.File) → IsUnread name.now (F.blamed files.new) }
    ensures unwritten { ¬ IsErrOf result (Problem.Failed Failure.Write) }
{
    let file = read_file(alloc, files, name, STORY_LIMIT)?;
    let story = load_bytes(alloc, &file)?;
    let digest = digest_text(alloc, &file)?;
    Ok((story, digest))
}

/// What stands beside a story by a name: no more is read of it than decides that.
fn beside_of<F: Files>(
    alloc: Global,
    story: Story,
    name: &str,
    files: &mut F,
) -> Result<Beside, Problem>
    ensures beside { IfOk result (IsBeside (F.known files.old name.now) story) }
    ensures untold { IfErr result IsUntold }
    ensures kept { F.known files.new ≡ F.known files.old }
{
    if !files.is_there(name) {
        return Ok(Beside::Nothing);
    }
    let first = match read_file(alloc, files, name, HEADING) {
        Ok(first) => first,
        Err(problem) => return beside_by(Err(problem)),
    };
    if has_lists(&first) {
        beside_by(kept_by::<Values, F>(alloc, story, name, &first, files))
    } else {
        beside_by(kept_by::<Interval, F>(alloc, story, name, &first, files))
    }
}

/// What stands beside a story: a certificate that has this, or one that is refused or of another story, or a file that can't be read; or it
/// isn't known.
fn beside_by(kept: Result<Kept, Problem>) -> Result<Beside, Problem>
    ensures { result ≡ beside_by kept }
{
    match kept {
        Ok(kept) => Ok(Beside::Own(kept)),
        Err(Problem::Unreadable(error)) => Ok(Beside::Unreadable(error.number())),
        Err(Problem::BreaksStory(_)) => Ok(Beside::OfAnother),
        Err(Problem::Failed(Failure::File)) => Ok(Beside::Closed),
        Err(problem) => Err(problem),
    }
}

/// What the certificate of a file has, of which the first bytes were read and tell the version, if it is of a story.
fn kept_by<V: Spelled, F: Files>(
    alloc: Global,
    story: Story,
    name: &str,
    first: &[u8],
    files: &mut F,
) -> Result<Kept, Problem>
    requires first { IfSome (F.known files.old name.now) (λ file. first.now ≡ take 5 file) }
    requires few { length first.now ≤ 5 }
    requires version { version_of first.now ≡ V.format.version }
    ensures kept { IfOk result (IsKeptOf V.format (F.known files.old name.now) story) }
    ensures refused { IfErr result (IsNotKept V.format (F.known files.old name.now) story) }
    ensures files { ReadsUnless F.known F.failures F.can_fail files.old files.new (IsErrOf result (Problem.Failed Failure.File)) }
    ensures could { IsErrOf result (Problem.Failed Failure.File) → F.can_fail files.old name.now ≡ true }
    ensures blamed { IsErrOf result (Problem.Failed Failure.File) → IsUnread name.now (F.blamed files.new) }
{
    let stream = feed_certificate::<V, F>(alloc, story, name, first, files)?;
    let (story, certificate) = stream.read()?;
    if !is_of(&story, &certificate) {
        return Err(Problem::BreaksStory(StoryRule::Identity));
    }
    Ok(kept_of(&certificate))
}

/// What a certificate has.
fn kept_of<V: Spelled>(certificate: &Certificate<V>) -> Kept
    ensures { result ≡ kept_of V.format certificate.now }
{
    Kept {
        version: certificate.version(),
        frames: certificate.limit(),
        routines: certificate.routines().len(),
        instructions: certificate.instruction_count(),
        marks: certificate.marks(),
        facts: certificate.facts().len(),
    }
}
