//! Certificates found for a story's file, and codes explained.

ghost use Rattle.std.specs.Prelude.{◌≡◌, ◌≤◌, ◌++◌, ℕ, List, true, IfErr, IfOk, IfSome, IsErrOf};
ghost use Rattle.zplayer.specs.Outside.{Blames};
ghost use Rattle.zperform.specs.Blaming.{IsUnread, IsUnreadOrUnwritten};
ghost use Rattle.zperform.specs.Devices.{FlushesUnless, ReadsUnless, held};
ghost use Rattle.zperform.specs.Finding.{FailsFor, FindComesTo, IsCertificateFor, IsFound, IsFoundFor, IsFoundText, IsNotFound, IsOfStoryOrFound, IsUnfound, lead_text};
ghost use Rattle.zperform.specs.Marking.{ArePlacesOf};

use crate::accepting::open_story;
use crate::files::Files;
use crate::marking::add_marks;
use crate::message::Message;
use crate::outcome::{Failure, Outcome, Problem};
use crate::performing::write_done;
use std::alloc::{AllocError, Global};
use zfault::Sink;
use zfind::{FindError, Found, Watch, broken_in_all, find_marked, find_unmarked};
use zstory::Story;

/// What certificate is looked for, and what is told of it.
#[derive(Clone, Copy)]
pub struct Search {
    /// How many frames may stand above the first, if the certificate is to name that.
    pub frames: Option<u16>,
    /// Whether it may mark no instruction.
    pub strict: bool,
    /// Whether each instruction that it marks is told, with the reason.
    pub places: bool,
    /// Whether they are told as objects.
    pub json: bool,
}

/// A certificate that was found.
#[derive(Drop)]
pub struct Answer {
    /// Its bytes.
    pub bytes: Vec<u8>,
    /// What is told of it.
    pub text: Vec<u8>,
    /// How many instructions it marks.
    pub marks: usize,
}

/// Finds a certificate for the story of a file, keeps it in another, and then says so.
pub fn find_file<F: Files, W: Sink>(
    alloc: Global,
    story: &str,
    certificate: &str,
    search: Search,
    files: &mut F,
    writer: &mut W,
) -> Outcome
    requires low { IfSome search.frames (λ n. n ≤ 4096) }
    ensures comes { FindComesTo search story.now certificate.now (F.known files.old) (F.known files.new) (W.contents writer.old) (W.contents writer.new) result }
    ensures writer { FlushesUnless W.failures W.waits writer.old writer.new (result ≡ Outcome.Stopped (Problem.Failed Failure.Write)) }
    ensures files { Blames (result ≡ Outcome.Stopped (Problem.Failed Failure.File)) (F.failures files.old) (F.failures files.new) }
    ensures could { result ≡ Outcome.Stopped (Problem.Failed Failure.File) → IsOfStoryOrFound search (held F.known F.failures F.can_fail F.blamed files.old) story.now certificate.now }
    ensures blamed { result ≡ Outcome.Stopped (Problem.Failed Failure.File) → IsUnreadOrUnwritten story.now certificate.now (F.blamed files.new) }
{
    let Answer { bytes, text, .. } = match answer_of(alloc, story, search, files) {
        Ok(answer) => answer,
        Err(problem) => return Outcome::Stopped(problem),
    };
    if !files.put(certificate, &bytes) {
        return Outcome::Stopped(Problem::Failed(Failure::File));
    }
    write_done(&text, Outcome::Found, writer)
}

/// A certificate for the story of a file.
pub fn answer_of<F: Files>(
    alloc: Global,
    name: &str,
    search: Search,
    files: &mut F,
) -> Result<Answer, Problem>
    requires low { IfSome search.frames (λ n. n ≤ 4096) }
    ensures found { IfOk result (λ answer. IsFound search (F.known files.old name.now) answer.bytes.items answer.text.items answer.marks) }
    ensures refused { IfErr result (IsNotFound search (F.known files.old name.now)) }
    ensures files { ReadsUnless F.known F.failures F.can_fail files.old files.new (IsErrOf result (Problem.Failed Failure.File)) }
    ensures could { IsErrOf result (Problem.Failed Failure.File) → F.can_fail files.old name.now ≡ true }
    ensures blamed { IsErrOf result (Problem.Failed Failure.File) → IsUnread name.now (F.blamed files.new) }
    ensures unwritten { ¬ IsErrOf result (Problem.Failed Failure.Write) }
{
    let story = open_story(alloc, name, files)?;
    let answer = answer_for(alloc, &story, search, files);
    files.clear();
    answer
}

/// A certificate for a story, of which someone is told how far the search is.
fn answer_for<W: Watch>(
    alloc: Global,
    story: &Story,
    search: Search,
    watch: &W,
) -> Result<Answer, Problem>
    requires low { IfSome search.frames (λ n. n ≤ 4096) }
    ensures found { IfOk result (λ answer. IsCertificateFor search story.now answer.bytes.items answer.text.items answer.marks) }
    ensures refused { IfErr result (IsUnfound search story.now) }
{
    match look_for(alloc, story, search, watch) {
        Ok(found) => Ok(Answer {
            bytes: found.write(alloc)?,
            text: text_of(alloc, story, &found, search)?,
            marks: found.marks(),
        }),
        Err(error) => Err(unfound(alloc, story, search, error, watch)),
    }
}

/// The certificate that is found for a story, which may mark instructions unless that isn't asked for.
fn look_for<W: Watch>(
    alloc: Global,
    story: &Story,
    search: Search,
    watch: &W,
) -> Result<Found, FindError>
    requires low { IfSome search.frames (λ n. n ≤ 4096) }
    ensures found { IfOk result (IsFoundFor search story.now) }
    ensures failed { IfErr result (FailsFor search story.now) }
{
    if search.strict {
        find_unmarked(alloc, story, search.frames, watch)
    } else {
        find_marked(alloc, story, search.frames, watch)
    }
}

/// What is told of a certificate that is found.
fn text_of(
    alloc: Global,
    story: &Story,
    found: &Found,
    search: Search,
) -> Result<Vec<u8>, AllocError>
    ensures { IfOk result (λ text. IsFoundText search.json search.places story.now found.now text.items) }
{
    let mut text = lead_of(alloc, found, search.json)?;
    if search.places {
        add_places(alloc, story, found, search.json, &mut text)?;
    }
    Ok(text)
}

/// How many instructions it marks, unless the object of the story tells that.
fn lead_of(alloc: Global, found: &Found, json: bool) -> Result<Vec<u8>, AllocError>
    ensures { IfOk result (λ text. text.items ≡ lead_text json found.now) }
{
    let mut text = Vec::new(alloc);
    if !json {
        text.extend_from_slice(Message::of_found(found.marks()).as_slice())?;
    }
    Ok(text)
}

/// Adds what it marks, and why.
fn add_places(
    alloc: Global,
    story: &Story,
    found: &Found,
    json: bool,
    text: &mut Vec<u8>,
) -> Result<(), AllocError>
    ensures { IfOk result (λ _. (places : List ℕ) × ArePlacesOf json story.now found.now places × (text.new.items ≡ text.old.items ++ places)) }
{
    match found {
        Found::Intervals(certificate) => add_marks(alloc, story, certificate, json, true, text),
        Found::Lists(certificate) => add_marks(alloc, story, certificate, json, true, text),
        Found::Marked(certificate) => add_marks(alloc, story, certificate, json, true, text),
    }
}

/// Why no certificate is found for a story, and what is broken in every one that marks nothing, if that is known.
fn unfound<W: Watch>(
    alloc: Global,
    story: &Story,
    search: Search,
    error: FindError,
    watch: &W,
) -> Problem
    requires { FailsFor search story.now error }
    ensures { IsUnfound search story.now result }
{
    match error {
        FindError::OutOfMemory => Problem::Failed(Failure::Memory),
        FindError::NotFound(_) | FindError::RoundLimit => match broken_in_all(alloc, story, watch) {
            Ok(broken) => Problem::Unfound(error, broken),
            Err(_) => Problem::Failed(Failure::Memory),
        },
    }
}
