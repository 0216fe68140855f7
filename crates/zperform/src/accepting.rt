//! Stories and certificates from files.

ghost use Rattle.std.specs.Prelude.{◌≡◌, ◌==◌, ◌||◌, ◌≤◌, ℕ, true, List, Option, IfErr, IfOk, IfSome, IsErrOf, length, take};
ghost use Rattle.zcert.specs.declared.limits.TheConstants.{LIST_VERSION as version_with_lists, LIMIT_VERSION as version_with_limit, MARK_VERSION as version_with_marks, FACT_VERSION as version_with_facts};
ghost use Rattle.zcheck.specs.Judged.{certificate_of, marks_in};
ghost use Rattle.zstory.specs.Bytes.{byte_at};
ghost use Rattle.zperform.specs.Blaming.{IsUnread, IsUnreadOf};
ghost use Rattle.zperform.specs.Devices.{ReadsUnless, held};
ghost use Rattle.zperform.specs.Playing.{Holds, IsUnloaded};
ghost use Rattle.zperform.specs.Accepting.{HoldsStory, IsAcceptedStory, IsNoStory, IsJudgedOf, IsOfEither, IsUnaccepted, IsUnacceptedStory, marks_of, story_in, story_of, version_of};

use crate::feeding::{HEADING, feed_certificate};
use crate::files::{Files, read_file};
use crate::outcome::{Failure, Problem};
use std::alloc::Global;
use zcert::{FACT_VERSION, LIMIT_VERSION, LIST_VERSION, MARK_VERSION, Spelled};
use zcheck::{Accepted, Judged, Marked};
use zdomain::{Interval, Values};
use zstory::Story;

/// The most bytes that are read of a story: one more than the longest has, so that a longer file is told from it.
pub const STORY_LIMIT: usize = 131_073;

/// The place of the byte that tells the version of a certificate's file.
const VERSION_AT: usize = 4;

/// A story that is accepted with a certificate of either kind of sets, which may mark instructions.
#[derive(Drop)]
pub enum AcceptedStory {
    /// Of version 1.
    Intervals(Judged<Accepted<Interval>, Marked<Interval>>),
    /// Of version 2, 3, 4 or 5.
    Lists(Judged<Accepted<Values>, Marked<Values>>),
}

impl AcceptedStory {
    /// How many instructions the certificate marks.
    pub fn marks(&self) -> usize
        ensures { result ≡ marks_of self.now }
    {
        match self {
            AcceptedStory::Intervals(judged) => marks_in(judged),
            AcceptedStory::Lists(judged) => marks_in(judged),
        }
    }

    /// The story.
    pub fn story(&self) -> &Story
        ensures { result.now ≡ story_of self.now }
    {
        match self {
            AcceptedStory::Intervals(judged) => story_in(judged),
            AcceptedStory::Lists(judged) => story_in(judged),
        }
    }
}

/// The story that is accepted.
fn story_in<V: Spelled>(judged: &Judged<Accepted<V>, Marked<V>>) -> &Story
    ensures { result.now ≡ story_in judged.now }
{
    match judged {
        Judged::Whole(accepted) => accepted.story(),
        Judged::Marked(marked) => marked.story(),
    }
}

/// How many instructions the certificate of a story marks that is accepted.
fn marks_in<V: Spelled>(judged: &Judged<Accepted<V>, Marked<V>>) -> usize
    ensures { result ≡ marks_in (certificate_of judged.now) }
{
    match judged {
        Judged::Whole(accepted) => accepted.certificate().marks(),
        Judged::Marked(marked) => marked.certificate().marks(),
    }
}

/// Accepts the story of a file with the certificate of another, and else says why not: the story is looked at first,
/// then the certificate's file, of which no more is read than decides it, then whether it holds.
pub fn accept<F: Files>(
    alloc: Global,
    story: &str,
    certificate: &str,
    files: &mut F,
) -> Result<AcceptedStory, Problem>
    ensures accepted { IfOk result (IsAcceptedStory (F.known files.old story.now) (F.known files.old certificate.now)) }
    ensures refused { IfErr result (IsUnacceptedStory (F.known files.old story.now) (F.known files.old certificate.now)) }
    ensures files { ReadsUnless F.known F.failures F.can_fail files.old files.new (IsErrOf result (Problem.Failed Failure.File)) }
    ensures could { IsErrOf result (Problem.Failed Failure.File) → IsOfEither (held F.known F.failures F.can_fail F.blamed files.old) story.now certificate.now }
    ensures blamed { IsErrOf result (Problem.Failed Failure.File) → IsUnreadOf story.now certificate.now (F.blamed files.new) }
{
    let story = open_story(alloc, story, files)?;
    accept_loaded(alloc, story, certificate, files)
}

/// Accepts a story with the certificate of a file, and else says why not.
pub fn accept_loaded<F: Files>(
    alloc: Global,
    story: Story,
    certificate: &str,
    files: &mut F,
) -> Result<AcceptedStory, Problem>
    ensures accepted { IfOk result (λ a. (known : Option (List ℕ)) → HoldsStory known story → IsAcceptedStory known (F.known files.old certificate.now) a) }
    ensures refused { IfErr result (λ problem. (known : Option (List ℕ)) → HoldsStory known story → IsUnacceptedStory known (F.known files.old certificate.now) problem) }
    ensures files { ReadsUnless F.known F.failures F.can_fail files.old files.new (IsErrOf result (Problem.Failed Failure.File)) }
    ensures could { IsErrOf result (Problem.Failed Failure.File) → F.can_fail files.old certificate.now ≡ true }
    ensures blamed { IsErrOf result (Problem.Failed Failure.File) → IsUnread certificate.now (F.blamed files.new) }
{
    let first = read_file(alloc, files, certificate, HEADING)?;
    if has_lists(&first) {
        let accepted = accept_story(alloc, story, certificate, &first, files)?;
        Ok(AcceptedStory::Lists(accepted))
    } else {
        let accepted = accept_story(alloc, story, certificate, &first, files)?;
        Ok(AcceptedStory::Intervals(accepted))
    }
}

/// Whether a certificate's file that begins so is of a version that has lists.
pub fn has_lists(first: &[u8]) -> bool
    ensures { result ≡ ((byte_at first.now 4 == version_with_lists) || (byte_at first.now 4 == version_with_limit) || (byte_at first.now 4 == version_with_marks) || (byte_at first.now 4 == version_with_facts)) }
{
    let version = first.get(VERSION_AT);
    version == Some(&LIST_VERSION)
        || version == Some(&LIMIT_VERSION)
        || version == Some(&MARK_VERSION)
        || version == Some(&FACT_VERSION)
}

/// Accepts a story with the certificate of a file, of which the first bytes were read and tell the version.
fn accept_story<V: Spelled, F: Files>(
    alloc: Global,
    story: Story,
    certificate: &str,
    first: &[u8],
    files: &mut F,
) -> Result<Judged<Accepted<V>, Marked<V>>, Problem>
    requires first { IfSome (F.known files.old certificate.now) (λ file. first.now ≡ take 5 file) }
    requires few { length first.now ≤ 5 }
    requires version { version_of first.now ≡ V.format.version }
    ensures accepted { IfOk result (λ j. (known : Option (List ℕ)) → HoldsStory known story → IsJudgedOf V.operations V.format known (F.known files.old certificate.now) j) }
    ensures refused { IfErr result (λ problem. (known : Option (List ℕ)) → HoldsStory known story → IsUnaccepted V.operations V.format known (F.known files.old certificate.now) problem) }
    ensures files { ReadsUnless F.known F.failures F.can_fail files.old files.new (IsErrOf result (Problem.Failed Failure.File)) }
    ensures could { IsErrOf result (Problem.Failed Failure.File) → F.can_fail files.old certificate.now ≡ true }
    ensures blamed { IsErrOf result (Problem.Failed Failure.File) → IsUnread certificate.now (F.blamed files.new) }
{
    let stream = feed_certificate(alloc, story, certificate, first, files)?;
    Ok(stream.judge(alloc)?)
}

/// Loads the story of a file.
pub fn open_story<F: Files>(alloc: Global, name: &str, files: &mut F) -> Result<Story, Problem>
    ensures held { IfOk result (HoldsStory (F.known files.old name.now)) }
    ensures refused { IfErr result (IsNoStory (F.known files.old name.now)) }
    ensures files { ReadsUnless F.known F.failures F.can_fail files.old files.new (IsErrOf result (Problem.Failed Failure.File)) }
    ensures could { IsErrOf result (Problem.Failed Failure.File) → F.can_fail files.old name.now ≡ true }
    ensures blamed { IsErrOf result (Problem.Failed Failure.File) → IsUnread name.now (F.blamed files.new) }
{
    let file = read_file(alloc, files, name, STORY_LIMIT)?;
    load(alloc, file)
}

/// Loads a story of bytes.
pub fn load_bytes(alloc: Global, file: &[u8]) -> Result<Story, Problem>
    ensures loaded { IfOk result (Holds file.now) }
    ensures unloaded { IfErr result (IsUnloaded file.now) }
{
    Ok(Story::load(alloc, file)?)
}

/// Loads a story, and frees the bytes of its file.
pub fn load(alloc: Global, file: Vec<u8>) -> Result<Story, Problem>
    ensures loaded { IfOk result (Holds file.items) }
    ensures unloaded { IfErr result (IsUnloaded file.items) }
{
    Ok(Story::load(alloc, &file)?)
}
