//! What the certificate of a file says, written in words.

ghost use Rattle.std.specs.Prelude.{◌≡◌, ◌==◌, ◌↔◌, ◌≤◌, true, ℕ, List, Option, IfErr, IfOk, IfSome, IsErrOf, IsTrue, length, option_map, take};
ghost use Rattle.zstory.specs.Bytes.{byte_at};
ghost use Rattle.zstory.specs.LoadedStory.{identity_of};
ghost use Rattle.zperform.specs.Blaming.{IsUnread, IsUnreadOf};
ghost use Rattle.zperform.specs.Accepting.{HoldsStory, IsOfEither, version_of};
ghost use Rattle.zperform.specs.Devices.{FlushesUnless, ReadsUnless, held};
ghost use Rattle.zperform.specs.Showing.{HoldsShown, HoldsShownBy, IsUnshown, IsUnshownStory, ShowComesTo, ShowEnds, address_in};

use crate::accepting::{has_lists, open_story};
use crate::claims::claims_of;
use crate::feeding::{HEADING, feed_certificate};
use crate::files::{Files, read_file};
use crate::outcome::{Failure, Outcome, Problem};
use crate::performing::write_done;
use crate::told::Told;
use std::alloc::Global;
use zcert::{Certificate, Spelled};
use zcheck::StoryRule;
use zdomain::{Interval, Values};
use zfault::Sink;
use zstory::Story;

/// The most digits of an address.
const DIGITS: usize = 5;

/// Writes what the certificate of a file says of the story of another, and of the instruction at an address, if there is a word for one:
/// nothing before all of it is made. The certificate needn't be accepted.
pub fn show_files<F: Files, W: Sink>(
    alloc: Global,
    story: &str,
    certificate: &str,
    address: Option<&str>,
    files: &mut F,
    writer: &mut W,
) -> Outcome
    ensures comes { ShowComesTo (F.known files.old story.now) (F.known files.old certificate.now) (option_map (λ a. a.now) address.entry) (W.contents writer.old) (W.contents writer.new) result }
    ensures writer { FlushesUnless W.failures W.waits writer.old writer.new (result ≡ Outcome.Stopped (Problem.Failed Failure.Write)) }
    ensures files { ReadsUnless F.known F.failures F.can_fail files.old files.new (result ≡ Outcome.Stopped (Problem.Failed Failure.File)) }
    ensures could { result ≡ Outcome.Stopped (Problem.Failed Failure.File) → IsOfEither (held F.known F.failures F.can_fail F.blamed files.old) story.now certificate.now }
    ensures blamed { result ≡ Outcome.Stopped (Problem.Failed Failure.File) → IsUnreadOf story.now certificate.now (F.blamed files.new) }
{
    let Some(word) = address else {
        return show_at(alloc, story, certificate, None, files, writer);
    };
    match address_in(word) {
        Some(place) => show_at(alloc, story, certificate, Some(place), files, writer),
        None => Outcome::NoAddress,
    }
}

/// The address that a word says.
fn address_in(word: &str) -> Option<u32>
    ensures { result ≡ address_in word.now }
{
    if word.len() > DIGITS || has_plus(word) {
        return None;
    }
    u32::from_str_radix(word, 16).ok()
}

/// Whether a word begins with a plus, which a number may.
fn has_plus(word: &str) -> bool
    ensures { result ≡ (byte_at word.now 0 == 43) }
{
    word.as_bytes().first() == Some(&b'+')
}

/// Writes what a certificate says, with an address or without.
fn show_at<F: Files, W: Sink>(
    alloc: Global,
    story: &str,
    certificate: &str,
    address: Option<u32>,
    files: &mut F,
    writer: &mut W,
) -> Outcome
    ensures comes { ShowEnds (F.known files.old story.now) (F.known files.old certificate.now) address (W.contents writer.old) (W.contents writer.new) result }
    ensures writer { FlushesUnless W.failures W.waits writer.old writer.new (result ≡ Outcome.Stopped (Problem.Failed Failure.Write)) }
    ensures files { ReadsUnless F.known F.failures F.can_fail files.old files.new (result ≡ Outcome.Stopped (Problem.Failed Failure.File)) }
    ensures could { result ≡ Outcome.Stopped (Problem.Failed Failure.File) → IsOfEither (held F.known F.failures F.can_fail F.blamed files.old) story.now certificate.now }
    ensures blamed { result ≡ Outcome.Stopped (Problem.Failed Failure.File) → IsUnreadOf story.now certificate.now (F.blamed files.new) }
{
    match shown(alloc, story, certificate, address, files) {
        Ok(text) => write_done(&text, Outcome::Shown, writer),
        Err(problem) => Outcome::Stopped(problem),
    }
}

/// The lines of what the certificate of a file says, of either kind of sets. The story is looked at first, then the certificate's file, of
/// which no more is read than decides it.
fn shown<F: Files>(
    alloc: Global,
    story: &str,
    certificate: &str,
    address: Option<u32>,
    files: &mut F,
) -> Result<Vec<u8>, Problem>
    ensures shown { IfOk result (λ text. HoldsShown (F.known files.old story.now) (F.known files.old certificate.now) address text.items) }
    ensures refused { IfErr result (IsUnshownStory (F.known files.old story.now) (F.known files.old certificate.now)) }
    ensures files { ReadsUnless F.known F.failures F.can_fail files.old files.new (IsErrOf result (Problem.Failed Failure.File)) }
    ensures could { IsErrOf result (Problem.Failed Failure.File) → IsOfEither (held F.known F.failures F.can_fail F.blamed files.old) story.now certificate.now }
    ensures blamed { IsErrOf result (Problem.Failed Failure.File) → IsUnreadOf story.now certificate.now (F.blamed files.new) }
{
    let story = open_story(alloc, story, files)?;
    let first = read_file(alloc, files, certificate, HEADING)?;
    if has_lists(&first) {
        shown_by::<Values, F>(alloc, story, certificate, &first, address, files)
    } else {
        shown_by::<Interval, F>(alloc, story, certificate, &first, address, files)
    }
}

/// The lines of what the certificate of a file says of a story, of which the first bytes were read and tell the version. Of another story
/// it says nothing.
fn shown_by<V: Told, F: Files>(
    alloc: Global,
    story: Story,
    certificate: &str,
    first: &[u8],
    address: Option<u32>,
    files: &mut F,
) -> Result<Vec<u8>, Problem>
    requires first { IfSome (F.known files.old certificate.now) (λ file. first.now ≡ take 5 file) }
    requires few { length first.now ≤ 5 }
    requires version { version_of first.now ≡ V.format.version }
    ensures shown { IfOk result (λ text. (known : Option (List ℕ)) → HoldsStory known story → HoldsShownBy V.operations V.format V.kind_text V.set_text known (F.known files.old certificate.now) address text.items) }
    ensures refused { IfErr result (λ problem. (known : Option (List ℕ)) → HoldsStory known story → IsUnshown V.operations V.format known (F.known files.old certificate.now) problem) }
    ensures files { ReadsUnless F.known F.failures F.can_fail files.old files.new (IsErrOf result (Problem.Failed Failure.File)) }
    ensures could { IsErrOf result (Problem.Failed Failure.File) → F.can_fail files.old certificate.now ≡ true }
    ensures blamed { IsErrOf result (Problem.Failed Failure.File) → IsUnread certificate.now (F.blamed files.new) }
{
    let stream = feed_certificate::<V, F>(alloc, story, certificate, first, files)?;
    let (story, certificate) = stream.read()?;
    if !is_of(&story, &certificate) {
        return Err(Problem::BreaksStory(StoryRule::Identity));
    }
    Ok(claims_of(alloc, &story, &certificate, address)?)
}

/// Whether a certificate is of a story.
pub fn is_of<V: Spelled>(story: &Story, certificate: &Certificate<V>) -> bool
    ensures { IsTrue result ↔ (certificate.now.identity ≡ identity_of story.now) }
{
    certificate.identity() == story.identity()
}
