//! The certificates of many stories checked, and what is told of each.

ghost use Rattle.std.specs.Prelude.{◌≡◌, ◌≢◌, ◌++◌, ◌∷◌, [], false, true, IfOk, IfSome, IsErrOf, map, option_map};
ghost use Rattle.zperform.specs.Accepting.{IsOfEither};
ghost use Rattle.zperform.specs.Blaming.{IsUnreadOf};
ghost use Rattle.zperform.specs.Checking.{CheckEachComesTo, Judges, TellsCheck, answer_text, check_line};
ghost use Rattle.zperform.specs.Devices.{FlushesUnless, held};
ghost use Rattle.zperform.specs.Each.{certificate_for, ended_of, heading_text};
ghost use Rattle.zperform.specs.Wording.{first_words};

use crate::accepting::accept;
use crate::blame::Blame;
use crate::each::{Telling, ended_by, tell_each};
use crate::files::Files;
use crate::informing::ENDING;
use crate::message::Message;
use crate::outcome::{Failure, Outcome, Problem};
use crate::verdict::{facts_of, verdict_text};
use crate::wording::add_first;
use std::alloc::{AllocError, Global};
use zbatch::{Ended, Wording, name_beside};
use zfault::Sink;

/// How certificates are checked, each with its story.
#[derive(Clone, Copy)]
struct Checking<'a> {
    /// The certificate's file; with none it is the one beside each story.
    certificate: Option<&'a str>,
    /// Whether an object is told of each.
    json: bool,
}

impl<'a> Telling for Checking<'a> {
    ghost use Rattle.std.specs.Prelude.{option_map};
    ghost use Rattle.zperform.specs.Checking.{TellsCheck};

    ghost Tells = { λ checking. TellsCheck checking.json (option_map (λ c. c.now) checking.certificate) };

    fn tell<F: Files>(&self, alloc: Global, name: &str, files: &mut F) -> Option<(Ended, Vec<u8>)> {
        if self.json {
            tell_object(alloc, name, self.certificate, files)
        } else {
            tell_line(alloc, name, self.certificate, files)
        }
    }
}

/// Checks the certificate of each of these stories, and writes what is told of it when it is done. The certificate is the one of a name, or
/// with none the one beside each story.
pub fn check_each<F: Files, W: Sink>(
    alloc: Global,
    stories: &[&str],
    certificate: Option<&str>,
    json: bool,
    files: &mut F,
    writer: &mut W,
) -> Outcome
    ensures comes { CheckEachComesTo json (option_map (λ c. c.now) certificate.entry) (map (λ story. story.now) stories.now) (held F.known F.failures F.can_fail F.blamed files.old) (held F.known F.failures F.can_fail F.blamed files.new) (W.contents writer.old) (W.contents writer.new) result }
    ensures writer { FlushesUnless W.failures W.waits writer.old writer.new (result ≡ Outcome.Stopped (Problem.Failed Failure.Write)) }
    ensures no_file { result ≢ Outcome.Stopped (Problem.Failed Failure.File) }
    ensures no_input { result ≢ Outcome.Stopped (Problem.Failed Failure.Read) }
{
    let checking = Checking { certificate, json };
    tell_each(
        alloc,
        stories,
        &checking,
        json,
        Wording::Accepted,
        files,
        writer,
    )
}

/// Checks the certificate of a story, and makes the line of that.
fn tell_line<F: Files>(
    alloc: Global,
    name: &str,
    certificate: Option<&str>,
    files: &mut F,
) -> Option<(Ended, Vec<u8>)>
    ensures tells { TellsCheck false (option_map (λ c. c.now) certificate.entry) (held F.known F.failures F.can_fail F.blamed files.old) (held F.known F.failures F.can_fail F.blamed files.new) name.now (option_map (λ told. (told.0, told.1.items)) result) }
    ensures written { IfSome result (λ told. told.0 ≢ Ended.Unwritten) }
{
    let answer = judge_story(alloc, name, certificate, files);
    match check_line(alloc, name, &answer, files.blame()) {
        Ok(text) => Some((ended_of(&answer), text)),
        Err(_) => None,
    }
}

/// Checks the certificate of a story, and makes the object of that.
fn tell_object<F: Files>(
    alloc: Global,
    name: &str,
    certificate: Option<&str>,
    files: &mut F,
) -> Option<(Ended, Vec<u8>)>
    ensures tells { TellsCheck true (option_map (λ c. c.now) certificate.entry) (held F.known F.failures F.can_fail F.blamed files.old) (held F.known F.failures F.can_fail F.blamed files.new) name.now (option_map (λ told. (told.0, told.1.items)) result) }
    ensures written { IfSome result (λ told. told.0 ≢ Ended.Unwritten) }
{
    let Ok(facts) = facts_of(alloc, name, files) else {
        return None;
    };
    let answer = judge_story(alloc, name, certificate, files);
    match verdict_text(alloc, name, &facts, "accepted", &answer, files.blame()) {
        Ok(text) => Some((ended_of(&answer), text)),
        Err(_) => None,
    }
}

/// How many instructions the certificate of a story marks, if the story is accepted with it.
fn judge_story<F: Files>(
    alloc: Global,
    name: &str,
    certificate: Option<&str>,
    files: &mut F,
) -> Result<usize, Problem>
    ensures judges { Judges (F.known files.old name.now) (F.known files.old (certificate_for (option_map (λ c. c.now) certificate.entry) name.now)) result }
    ensures kept { F.known files.new ≡ F.known files.old }
    ensures alike { F.can_fail files.new ≡ F.can_fail files.old }
    ensures could { IsErrOf result (Problem.Failed Failure.File) → IsOfEither (held F.known F.failures F.can_fail F.blamed files.old) name.now (certificate_for (option_map (λ c. c.now) certificate.entry) name.now) }
    ensures blamed { IsErrOf result (Problem.Failed Failure.File) → IsUnreadOf name.now (certificate_for (option_map (λ c. c.now) certificate.entry) name.now) (F.blamed files.new) }
{
    match certificate {
        Some(certificate) => judge_pair(alloc, name, certificate, files),
        None => {
            let beside = name_beside(alloc, name, ENDING)?;
            judge_pair(alloc, name, beside.as_str(), files)
        }
    }
}

/// The same of a certificate of a name.
fn judge_pair<F: Files>(
    alloc: Global,
    name: &str,
    certificate: &str,
    files: &mut F,
) -> Result<usize, Problem>
    ensures judges { Judges (F.known files.old name.now) (F.known files.old certificate.now) result }
    ensures kept { F.known files.new ≡ F.known files.old }
    ensures alike { F.can_fail files.new ≡ F.can_fail files.old }
    ensures could { IsErrOf result (Problem.Failed Failure.File) → IsOfEither (held F.known F.failures F.can_fail F.blamed files.old) name.now certificate.now }
    ensures blamed { IsErrOf result (Problem.Failed Failure.File) → IsUnreadOf name.now certificate.now (F.blamed files.new) }
{
    let accepted = accept(alloc, name, certificate, files)?;
    Ok(accepted.marks())
}

/// The line of a story.
fn check_line(
    alloc: Global,
    name: &str,
    answer: &Result<usize, Problem>,
    blame: Option<&Blame>,
) -> Result<Vec<u8>, AllocError>
    ensures { IfOk result (λ text. text.items ≡ check_line name.now (option_map (λ b. b.now) blame.entry) answer.now) }
{
    let mut text = Vec::new(alloc);
    add_heading(name, &mut text)?;
    add_answer(alloc, answer, blame, &mut text)?;
    Ok(text)
}

/// The line of what went wrong with a file.
pub fn problem_line(
    alloc: Global,
    name: &str,
    problem: &Problem,
    blame: Option<&Blame>,
) -> Result<Vec<u8>, AllocError>
    ensures { IfOk result (λ text. text.items ≡ heading_text name.now ++ (first_words (option_map (λ b. b.now) blame.entry) problem.now ++ 10 ∷ [])) }
{
    let mut text = Vec::new(alloc);
    add_heading(name, &mut text)?;
    add_problem_line(alloc, problem, blame, &mut text)?;
    Ok(text)
}

/// Adds what stands in front of what is said of a file.
pub fn add_heading(name: &str, text: &mut Vec<u8>) -> Result<(), AllocError>
    ensures { IfOk result (λ _. text.new.items ≡ text.old.items ++ heading_text name.now) }
{
    text.extend_from_slice(name.as_bytes())?;
    text.extend_from_slice(b": ")
}

/// Adds what is said of it.
fn add_answer(
    alloc: Global,
    answer: &Result<usize, Problem>,
    blame: Option<&Blame>,
    text: &mut Vec<u8>,
) -> Result<(), AllocError>
    ensures { IfOk result (λ _. text.new.items ≡ text.old.items ++ answer_text (option_map (λ b. b.now) blame.entry) answer.now) }
{
    match answer {
        Ok(marks) => text.extend_from_slice(Message::of_accepted(*marks).as_slice()),
        Err(problem) => add_problem_line(alloc, problem, blame, text),
    }
}

/// Adds the first line of a problem in words.
fn add_problem_line(
    alloc: Global,
    problem: &Problem,
    blame: Option<&Blame>,
    text: &mut Vec<u8>,
) -> Result<(), AllocError>
    ensures { IfOk result (λ _. text.new.items ≡ text.old.items ++ (first_words (option_map (λ b. b.now) blame.entry) problem.now ++ 10 ∷ [])) }
{
    add_first(alloc, problem, blame, text)?;
    text.push(b'\n')?;
    Ok(())
}

/// How the work on a story ended.
fn ended_of(answer: &Result<usize, Problem>) -> Ended
    ensures ended { result ≡ ended_of answer.now }
    ensures written { result ≢ Ended.Unwritten }
{
    match answer {
        Ok(_) => Ended::Well,
        Err(problem) => ended_by(problem),
    }
}
