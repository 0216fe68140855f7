//! Certificates found for many stories, and what is told of each.

ghost use Rattle.std.specs.Prelude.{◌≡◌, ◌≢◌, ◌≤◌, ◌++◌, false, true, IfErr, IfOk, IfSome, IsErrOf, None, Ok, Some, List, ℕ, codes, map, option_map};
ghost use Rattle.zperform.specs.Blaming.{IsUnreadOrUnwritten};
ghost use Rattle.zperform.specs.Contents.{SparesOthers};
ghost use Rattle.zperform.specs.Devices.{FlushesUnless, UsesUnless, held};
ghost use Rattle.zperform.specs.Each.{certificate_for, heading_text};
ghost use Rattle.zperform.specs.Finding.{IsOfStoryOrFound};
ghost use Rattle.zperform.specs.Seeking.{FindEachComesTo, FindOneComesTo, IsKeptSo, IsOfOne, IsUnkept, TellsFind, lowered};
ghost use Rattle.zperform.specs.Verdicts.{IsVerdictText};

use crate::blame::Blame;
use crate::checking::{add_heading, problem_line};
use crate::each::{Telling, ended_by, tell_each};
use crate::files::Files;
use crate::finding::{Answer, Search, answer_of, find_file};
use crate::informing::ENDING;
use crate::outcome::{Failure, Outcome, Problem, Purpose};
use crate::verdict::{Facts, facts_of, verdict_text};
use std::alloc::{AllocError, Global};
use zbatch::{Ended, Wording, name_beside};
use zfault::Sink;

/// How certificates are found, each for its story.
#[derive(Clone, Copy)]
struct Seeking<'a> {
    /// What is looked for.
    search: Search,
    /// The certificate's file; with none it is the one beside each story.
    certificate: Option<&'a str>,
    /// Whether that file may hold something else now.
    force: bool,
}

impl<'a> Telling for Seeking<'a> {
    ghost use Rattle.std.specs.Prelude.{option_map};
    ghost use Rattle.zperform.specs.Seeking.{TellsFind, lowered};

    ghost Tells = { λ seeking. TellsFind (lowered seeking.search) seeking.force (option_map (λ c. c.now) seeking.certificate) };

    fn tell<F: Files>(&self, alloc: Global, name: &str, files: &mut F) -> Option<(Ended, Vec<u8>)> {
        if self.search.json {
            tell_object(alloc, name, *self, files)
        } else {
            tell_lines(alloc, name, *self, files)
        }
    }
}

/// The greatest limit of frames that a certificate may name.
const MOST_FRAMES: u16 = 4096;

/// Finds a certificate for each of these stories, keeps it, and writes what is told of it when that is done. It is kept in the file of a
/// name, or with none in the one beside each story.
pub fn find_each<F: Files, W: Sink>(
    alloc: Global,
    stories: &[&str],
    certificate: Option<&str>,
    search: Search,
    force: bool,
    files: &mut F,
    writer: &mut W,
) -> Outcome
    requires low { IfSome search.frames (λ n. n ≤ 4096) }
    ensures comes { FindEachComesTo search force (option_map (λ c. c.now) certificate.entry) (map (λ story. story.now) stories.now) (held F.known F.failures F.can_fail F.blamed files.old) (held F.known F.failures F.can_fail F.blamed files.new) (W.contents writer.old) (W.contents writer.new) result }
    ensures writer { FlushesUnless W.failures W.waits writer.old writer.new (result ≡ Outcome.Stopped (Problem.Failed Failure.Write)) }
    ensures no_file { result ≢ Outcome.Stopped (Problem.Failed Failure.File) }
    ensures no_input { result ≢ Outcome.Stopped (Problem.Failed Failure.Read) }
{
    let seeking = Seeking {
        search,
        certificate,
        force,
    };
    tell_each(
        alloc,
        stories,
        &seeking,
        search.json,
        Wording::Found,
        files,
        writer,
    )
}

/// Finds a certificate for a story, keeps it in the file of a name, and then says so: in lines, or in an object.
pub fn find_one<F: Files, W: Sink>(
    alloc: Global,
    story: &str,
    certificate: &str,
    search: Search,
    force: bool,
    files: &mut F,
    writer: &mut W,
) -> Outcome
    requires low { IfSome search.frames (λ n. n ≤ 4096) }
    ensures comes { FindOneComesTo search force story.now certificate.now (held F.known F.failures F.can_fail F.blamed files.old) (held F.known F.failures F.can_fail F.blamed files.new) (W.contents writer.old) (W.contents writer.new) result }
    ensures writer { FlushesUnless W.failures W.waits writer.old writer.new (result ≡ Outcome.Stopped (Problem.Failed Failure.Write)) }
    ensures files { search.json ≡ false → UsesUnless F.known F.failures files.old files.new None (Some certificate.now) (result ≡ Outcome.Stopped (Problem.Failed Failure.File)) }
    ensures could { result ≡ Outcome.Stopped (Problem.Failed Failure.File) → IsOfOne search (held F.known F.failures F.can_fail F.blamed files.old) story.now certificate.now }
    ensures blamed { result ≡ Outcome.Stopped (Problem.Failed Failure.File) → IsUnreadOrUnwritten story.now certificate.now (F.blamed files.new) }
    ensures no_input { result ≢ Outcome.Stopped (Problem.Failed Failure.Read) }
{
    if search.json {
        find_each(
            alloc,
            &[story],
            Some(certificate),
            search,
            force,
            files,
            writer,
        )
    } else {
        find_file(alloc, story, certificate, search, files, writer)
    }
}

/// Finds a certificate for a story and keeps it, and makes the lines of that.
fn tell_lines<F: Files>(
    alloc: Global,
    name: &str,
    seeking: Seeking<'_>,
    files: &mut F,
) -> Option<(Ended, Vec<u8>)>
    requires lines { seeking.search.json ≡ false }
    ensures tells { TellsFind (lowered seeking.entry.search) seeking.entry.force (option_map (λ c. c.now) seeking.entry.certificate) (held F.known F.failures F.can_fail F.blamed files.old) (held F.known F.failures F.can_fail F.blamed files.new) name.now (option_map (λ told. (told.0, told.1.items)) result) }
    ensures written { IfSome result (λ told. told.0 ≢ Ended.Unwritten) }
{
    match seek_story(alloc, name, seeking, files) {
        Ok(answer) => match found_lines(alloc, name, &answer.text) {
            Ok(text) => Some((Ended::Well, text)),
            Err(_) => None,
        },
        Err(problem) => match problem_line(alloc, name, &problem, files.blame()) {
            Ok(text) => Some((ended_by(&problem), text)),
            Err(_) => None,
        },
    }
}

/// Finds a certificate for a story and keeps it, and makes the object of that.
fn tell_object<F: Files>(
    alloc: Global,
    name: &str,
    seeking: Seeking<'_>,
    files: &mut F,
) -> Option<(Ended, Vec<u8>)>
    requires object { seeking.search.json ≡ true }
    ensures tells { TellsFind (lowered seeking.entry.search) seeking.entry.force (option_map (λ c. c.now) seeking.entry.certificate) (held F.known F.failures F.can_fail F.blamed files.old) (held F.known F.failures F.can_fail F.blamed files.new) name.now (option_map (λ told. (told.0, told.1.items)) result) }
    ensures written { IfSome result (λ told. told.0 ≢ Ended.Unwritten) }
{
    let Ok(facts) = facts_of(alloc, name, files) else {
        return None;
    };
    match seek_story(alloc, name, seeking, files) {
        Ok(answer) => {
            match found_object(alloc, name, &facts, &answer, files.blame()) {
                Ok(text) => Some((Ended::Well, text)),
                Err(_) => None,
            }
        }
        Err(problem) => {
            match verdict_text(alloc, name, &facts, "found", &Err(problem), files.blame()) {
                Ok(text) => Some((ended_by(&problem), text)),
                Err(_) => None,
            }
        }
    }
}

/// Finds a certificate for a story, and keeps it in the file that is for it.
fn seek_story<F: Files>(
    alloc: Global,
    name: &str,
    seeking: Seeking<'_>,
    files: &mut F,
) -> Result<Answer, Problem>
    ensures kept { IfOk result (λ answer. IsKeptSo (lowered seeking.entry.search) seeking.entry.force (certificate_for (option_map (λ c. c.now) seeking.entry.certificate) name.now) name.now (F.known files.old) (F.known files.new) answer.bytes.items answer.text.items answer.marks) }
    ensures unkept { IfErr result (IsUnkept (lowered seeking.entry.search) seeking.entry.force (F.known files.old name.now) (F.known files.old (certificate_for (option_map (λ c. c.now) seeking.entry.certificate) name.now))) }
    ensures left { IfErr result (λ problem. problem ≢ Problem.Failed Failure.File → F.known files.new ≡ F.known files.old) }
    ensures spared { SparesOthers (certificate_for (option_map (λ c. c.now) seeking.entry.certificate) name.now) (F.known files.old) (F.known files.new) }
    ensures alike { F.can_fail files.new ≡ F.can_fail files.old }
    ensures could { IsErrOf result (Problem.Failed Failure.File) → IsOfStoryOrFound (lowered seeking.entry.search) (held F.known F.failures F.can_fail F.blamed files.old) name.now (certificate_for (option_map (λ c. c.now) seeking.entry.certificate) name.now) }
    ensures blamed { IsErrOf result (Problem.Failed Failure.File) → IsUnreadOrUnwritten name.now (certificate_for (option_map (λ c. c.now) seeking.entry.certificate) name.now) (F.blamed files.new) }
{
    let search = lowered(seeking.search);
    match seeking.certificate {
        Some(certificate) => keep_found(alloc, name, certificate, search, seeking.force, files),
        None => {
            let beside = name_beside(alloc, name, ENDING)?;
            keep_found(alloc, name, beside.as_str(), search, seeking.force, files)
        }
    }
}

/// Finds a certificate for a story, and keeps it in the file of a name.
fn keep_found<F: Files>(
    alloc: Global,
    name: &str,
    certificate: &str,
    search: Search,
    force: bool,
    files: &mut F,
) -> Result<Answer, Problem>
    requires low { IfSome search.frames (λ n. n ≤ 4096) }
    ensures kept { IfOk result (λ answer. IsKeptSo search force certificate.now name.now (F.known files.old) (F.known files.new) answer.bytes.items answer.text.items answer.marks) }
    ensures unkept { IfErr result (IsUnkept search force (F.known files.old name.now) (F.known files.old certificate.now)) }
    ensures left { IfErr result (λ problem. problem ≢ Problem.Failed Failure.File → F.known files.new ≡ F.known files.old) }
    ensures spared { SparesOthers certificate.now (F.known files.old) (F.known files.new) }
    ensures alike { F.can_fail files.new ≡ F.can_fail files.old }
    ensures could { IsErrOf result (Problem.Failed Failure.File) → IsOfStoryOrFound search (held F.known F.failures F.can_fail F.blamed files.old) name.now certificate.now }
    ensures blamed { IsErrOf result (Problem.Failed Failure.File) → IsUnreadOrUnwritten name.now certificate.now (F.blamed files.new) }
{
    if !force && !files.may_replace(certificate, Purpose::Certificate.magic()) {
        return Err(Problem::Occupied(Purpose::Certificate));
    }
    let answer = answer_of(alloc, name, search, files)?;
    if !files.put(certificate, &answer.bytes) {
        return Err(Problem::Failed(Failure::File));
    }
    Ok(answer)
}

/// The search with its limit of frames, where that isn't above the greatest.
fn lowered(search: Search) -> Search
    ensures lowered { result ≡ lowered search }
    ensures low { IfSome result.frames (λ n. n ≤ 4096) }
{
    let frames = match search.frames {
        Some(frames) if frames <= MOST_FRAMES => Some(frames),
        _ => None,
    };
    Search { frames, ..search }
}

/// The lines of a story for which a certificate is found, of which this is said.
fn found_lines(alloc: Global, name: &str, said: &[u8]) -> Result<Vec<u8>, AllocError>
    ensures { IfOk result (λ text. text.items ≡ heading_text name.now ++ said.now) }
{
    let mut text = Vec::new(alloc);
    add_heading(name, &mut text)?;
    text.extend_from_slice(said)?;
    Ok(text)
}

/// The object of a story for which a certificate is found, and behind it what is told of that.
fn found_object(
    alloc: Global,
    name: &str,
    facts: &Facts,
    answer: &Answer,
    blame: Option<&Blame>,
) -> Result<Vec<u8>, AllocError>
    ensures { IfOk result (λ text. (object : List ℕ) × IsVerdictText name.now facts.now (codes "found") (Ok answer.now.marks) (option_map (λ b. b.now) blame.entry) object × (text.items ≡ object ++ answer.now.text.items)) }
{
    let mut text = verdict_text(alloc, name, facts, "found", &Ok(answer.marks), blame)?;
    text.extend_from_slice(&answer.text)?;
    Ok(text)
}
