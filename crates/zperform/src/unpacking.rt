//! Saves of compressed memory, rewritten as plain ones.

ghost use Rattle.std.specs.Prelude.{◌≡◌, true, IfErr, IfOk, IsErrOf};
ghost use Rattle.zplayer.specs.Outside.{Blames};
ghost use Rattle.zperform.specs.Blaming.{IsUnread, IsUnreadOf};
ghost use Rattle.zperform.specs.Contents.{SparesOthers};
ghost use Rattle.zperform.specs.Devices.{ReadsUnless, held};
ghost use Rattle.zperform.specs.Accepting.{IsOfEither};
ghost use Rattle.zperform.specs.Unpacking.{IsNotUnpacked, IsOfThree, IsPacked, IsUnpacked, IsUnpackedOf, IsUnreadOfThree, ReadsSave, UnpackEnds};

use crate::accepting::open_story;
use crate::files::{Files, read_file};
use crate::outcome::{Failure, Outcome, Problem};
use crate::saves::SAVE_LIMIT;
use std::alloc::Global;
use zstory::Story;
use zunpack::unpack;

/// Rewrites the save of a file, whose memory is compressed, as a plain one in another. The story is looked at first, then the save.
pub fn unpack_file<F: Files>(
    alloc: Global,
    story: &str,
    save: &str,
    out: &str,
    files: &mut F,
) -> Outcome
    ensures ends { UnpackEnds story.now save.now out.now (F.known files.old) (F.known files.new) result }
    ensures spared { SparesOthers out.now (F.known files.old) (F.known files.new) }
    ensures files { Blames (result ≡ Outcome.Stopped (Problem.Failed Failure.File)) (F.failures files.old) (F.failures files.new) }
    ensures could { result ≡ Outcome.Stopped (Problem.Failed Failure.File) → IsOfThree (held F.known F.failures F.can_fail F.blamed files.old) story.now save.now out.now }
    ensures blamed { result ≡ Outcome.Stopped (Problem.Failed Failure.File) → IsUnreadOfThree story.now save.now out.now (F.blamed files.new) }
    ensures unread { ¬ (result ≡ Outcome.Stopped (Problem.Failed Failure.Read)) }
    ensures unwritten { ¬ (result ≡ Outcome.Stopped (Problem.Failed Failure.Write)) }
{
    let plain = match plain_of(alloc, story, save, files) {
        Ok(plain) => plain,
        Err(problem) => return Outcome::Stopped(problem),
    };
    if files.put(out, &plain) {
        Outcome::Unpacked
    } else {
        Outcome::Stopped(Problem::Failed(Failure::File))
    }
}

/// The plain save that tells what the save of a file does, of the story of another.
fn plain_of<F: Files>(
    alloc: Global,
    story: &str,
    save: &str,
    files: &mut F,
) -> Result<Vec<u8>, Problem>
    ensures unpacked { IfOk result (λ plain. IsUnpackedOf (F.known files.old story.now) (F.known files.old save.now) plain.items) }
    ensures refused { IfErr result (IsNotUnpacked (F.known files.old story.now) (F.known files.old save.now)) }
    ensures files { ReadsUnless F.known F.failures F.can_fail files.old files.new (IsErrOf result (Problem.Failed Failure.File)) }
    ensures could { IsErrOf result (Problem.Failed Failure.File) → IsOfEither (held F.known F.failures F.can_fail F.blamed files.old) story.now save.now }
    ensures blamed { IsErrOf result (Problem.Failed Failure.File) → IsUnreadOf story.now save.now (F.blamed files.new) }
{
    let story = open_story(alloc, story, files)?;
    plain_for(alloc, &story, save, files)
}

/// The same of a story that is loaded.
fn plain_for<F: Files>(
    alloc: Global,
    story: &Story,
    save: &str,
    files: &mut F,
) -> Result<Vec<u8>, Problem>
    ensures unpacked { IfOk result (λ plain. ReadsSave (F.known files.old save.now) (λ packed. IsUnpacked story.now packed plain.items)) }
    ensures refused { IfErr result (IsPacked (F.known files.old save.now) story.now) }
    ensures files { ReadsUnless F.known F.failures F.can_fail files.old files.new (IsErrOf result (Problem.Failed Failure.File)) }
    ensures could { IsErrOf result (Problem.Failed Failure.File) → F.can_fail files.old save.now ≡ true }
    ensures blamed { IsErrOf result (Problem.Failed Failure.File) → IsUnread save.now (F.blamed files.new) }
{
    let file = read_file(alloc, files, save, SAVE_LIMIT)?;
    let plain = unpack(alloc, story, &file)?;
    Ok(plain)
}
