//! What came of a story's file, as an object of JSON.

ghost use Rattle.std.specs.Prelude.{◌≡◌, ◌<◌, ◌≤◌, IfOk, IfSome, None, Some, length, decimal, drop, option_map, pos, string_bytes, ◌++◌};
ghost use Rattle.zinfo.specs.Info.{heading_of};
ghost use Rattle.zinfo.specs.Shown.{shown};
ghost use Rattle.zinfo.specs.Text.{place_text};
ghost use Rattle.zjson.specs.Digest.{digest_text};
ghost use Rattle.zlist.specs.Listed.{place_of};
ghost use Rattle.zstory.specs.LoadedStory.{LoadedStory};
ghost use Rattle.zstory.specs.declared.load_error.LoadError.{LoadError};
ghost use Rattle.zperform.specs.Playing.{Holds, IsUnloaded};
ghost use Rattle.zperform.specs.Verdicts.{AreFactsOf, IsVerdictText, address_text, code_text, failure_word, marks_in, of_problem, outcome_word};
ghost use Rattle.zperform.specs.Wording.{words_text};

use crate::accepting::{STORY_LIMIT, load_bytes};
use crate::blame::Blame;
use crate::files::{Files, read_file};
use crate::message::number_of;
use crate::outcome::{Failure, Problem};
use crate::wording::add_words;
use itoa::Buffer;
use std::alloc::{AllocError, Global};
use zfind::{FindError, Obstacle};
use zinfo::{Heading, heading, push_address, push_place, shown_text};
use zjson::{Verdict, digest_text, verdict_line};
use zlist::ListError;

/// What is known of a story's file.
#[derive(Drop)]
pub struct Facts {
    /// The SHA-256 of its bytes, unless it can't be read or is longer than a story may be.
    pub digest: Option<String>,
    /// What the header of its story says, if it holds one.
    pub heading: Option<Heading>,
}

/// What is known of the file of a name: of one that can't be read nothing is.
///
/// # Errors
///
/// Where memory is wanting.
pub fn facts_of<F: Files>(alloc: Global, name: &str, files: &mut F) -> Result<Facts, Problem>
    ensures are { IfOk result (AreFactsOf (F.known files.old name.now) (F.can_fail files.old name.now)) }
    ensures kept { F.known files.new ≡ F.known files.old }
    ensures alike { F.can_fail files.new ≡ F.can_fail files.old }
{
    match read_file(alloc, files, name, STORY_LIMIT) {
        Ok(file) => facts_in(alloc, &file),
        Err(Problem::Failed(Failure::File)) => Ok(Facts {
            digest: None,
            heading: None,
        }),
        Err(problem) => Err(problem),
    }
}

/// What is known of a file of these bytes, of which no more are read than tell that it is too long.
fn facts_in(alloc: Global, file: &[u8]) -> Result<Facts, Problem>
    ensures digest { IfOk result (λ facts. IfSome facts.digest (λ digest. (length file.now < 131073) × (string_bytes digest ≡ digest_text file.now))) }
    ensures undigested { IfOk result (λ facts. facts.digest ≡ None → 131073 ≤ length file.now) }
    ensures heading { IfOk result (λ facts. IfSome facts.heading (λ heading. (story : LoadedStory) × Holds file.now story × (heading ≡ heading_of story))) }
    ensures unheaded { IfOk result (λ facts. facts.heading ≡ None → (error : LoadError) × IsUnloaded file.now (Problem.Refused error)) }
{
    let digest = if file.len() < STORY_LIMIT {
        Some(digest_text(alloc, file)?)
    } else {
        None
    };
    let heading = match load_bytes(alloc, file) {
        Ok(story) => Some(heading(&story)),
        Err(Problem::Refused(_)) => None,
        Err(problem) => return Err(problem),
    };
    Ok(Facts { digest, heading })
}

/// What came of a story's file as one object on a line. `well` is the word where it went well.
pub fn verdict_text(
    alloc: Global,
    name: &str,
    facts: &Facts,
    well: &str,
    answer: &Result<usize, Problem>,
    blame: Option<&Blame>,
) -> Result<Vec<u8>, AllocError>
    ensures { IfOk result (λ text. IsVerdictText name.now facts.now well.now answer.now (option_map (λ b. b.now) blame.entry) text.items) }
{
    let file = String::from_str(alloc, name)?;
    let digest = copied(alloc, &facts.digest)?;
    let serial = serial_of(alloc, facts)?;
    let outcome = String::from_str(alloc, outcome_word(well, answer))?;
    let code = code_of(alloc, answer)?;
    let address = address_of(alloc, answer)?;
    let text = words_of(alloc, answer, blame)?;
    let digest = lent(&digest);
    let serial = lent(&serial);
    let code = lent(&code);
    let address = lent(&address);
    let text = lent(&text);
    let verdict = Verdict {
        file: file.as_str(),
        digest,
        release: release_of(facts),
        serial,
        checksum: checksum_of(facts),
        outcome: outcome.as_str(),
        marks: marks_in(answer),
        code,
        address,
        text,
    };
    verdict_line(alloc, &verdict)
}

/// A text that there may be, once more.
fn copied(alloc: Global, text: &Option<String>) -> Result<Option<String>, AllocError>
    ensures { IfOk result (λ copy. option_map string_bytes copy ≡ option_map string_bytes text.now) }
{
    match text {
        Some(text) => Ok(Some(String::from_str(alloc, text.as_str())?)),
        None => Ok(None),
    }
}

/// A text that there may be, as it is lent.
pub fn lent(text: &Option<String>) -> Option<&str>
    ensures { option_map (λ text. text.now) result ≡ option_map string_bytes text.now }
{
    match text {
        Some(text) => Some(text.as_str()),
        None => None,
    }
}

fn release_of(facts: &Facts) -> Option<u16>
    ensures { result ≡ option_map (λ heading. heading.release) facts.now.heading }
{
    match &facts.heading {
        Some(heading) => Some(heading.release),
        None => None,
    }
}

fn checksum_of(facts: &Facts) -> Option<u16>
    ensures { result ≡ option_map (λ heading. heading.checksum) facts.now.heading }
{
    match &facts.heading {
        Some(heading) => Some(heading.checksum),
        None => None,
    }
}

/// The serial number as a text.
fn serial_of(alloc: Global, facts: &Facts) -> Result<Option<String>, AllocError>
    ensures { IfOk result (λ serial. option_map string_bytes serial ≡ option_map (λ heading. shown heading.serial) facts.now.heading) }
{
    match &facts.heading {
        Some(heading) => Ok(Some(shown_text(alloc, &heading.serial)?)),
        None => Ok(None),
    }
}

/// What it came to, in a word.
fn outcome_word<'a>(well: &'a str, answer: &Result<usize, Problem>) -> &'a str
    ensures { result.now ≡ outcome_word well.now answer.now }
{
    match answer {
        Ok(_) => well,
        Err(Problem::Failed(_)) => "failed",
        Err(_) => "refused",
    }
}

fn marks_in(answer: &Result<usize, Problem>) -> Option<usize>
    ensures { result ≡ marks_in answer.now }
{
    match answer {
        Ok(marks) => Some(*marks),
        Err(_) => None,
    }
}

/// The code of what went wrong, if something did.
fn code_of(alloc: Global, answer: &Result<usize, Problem>) -> Result<Option<String>, AllocError>
    ensures { IfOk result (λ code. option_map string_bytes code ≡ of_problem (λ problem. Some (code_text problem)) answer.now) }
{
    match answer {
        Ok(_) => Ok(None),
        Err(problem) => Ok(Some(code_text(alloc, problem)?)),
    }
}

/// The code of a problem, or the word of a failure.
fn code_text(alloc: Global, problem: &Problem) -> Result<String, AllocError>
    ensures { IfOk result (λ code. string_bytes code ≡ code_text problem.now) }
{
    match problem {
        Problem::Refused(error) => numbered(alloc, "L", error.number()),
        Problem::Unreadable(error) => numbered(alloc, "K", error.number()),
        Problem::BreaksStory(rule) => numbered(alloc, "S", rule.number()),
        Problem::BreaksInstruction(_, rule) => numbered(alloc, "I", rule.number()),
        Problem::Unlisted(error) => numbered(alloc, "U", number_of(*error)),
        Problem::Unfound(error, _) => numbered(alloc, "G", error.number()),
        Problem::Occupied(purpose) => numbered(alloc, "N", purpose.number()),
        Problem::Packed(error) => numbered(alloc, "C", error.number()),
        Problem::Failed(failure) => String::from_str(alloc, failure_word(*failure)),
    }
}

/// The code of a letter and a number.
pub fn numbered(alloc: Global, letter: &str, number: u8) -> Result<String, AllocError>
    ensures { IfOk result (λ code. string_bytes code ≡ letter.now ++ decimal number) }
{
    let mut code = String::from_str(alloc, letter)?;
    code.push_str(Buffer::new().format(number))?;
    Ok(code)
}

fn failure_word(failure: Failure) -> &'static str
    ensures { result.now ≡ failure_word failure }
{
    match failure {
        Failure::File => "file",
        Failure::Read => "read",
        Failure::Write => "write",
        Failure::Memory => "memory",
    }
}

/// Where what went wrong is, if it has a place.
fn address_of(alloc: Global, answer: &Result<usize, Problem>) -> Result<Option<String>, AllocError>
    ensures { IfOk result (λ address. option_map string_bytes address ≡ of_problem address_text answer.now) }
{
    match answer {
        Ok(_) => Ok(None),
        Err(problem) => place_in(alloc, problem),
    }
}

/// Where a problem is.
fn place_in(alloc: Global, problem: &Problem) -> Result<Option<String>, AllocError>
    ensures { IfOk result (λ address. option_map string_bytes address ≡ address_text problem.now) }
{
    match problem {
        Problem::BreaksInstruction(address, _) => address_string(alloc, *address),
        Problem::Unlisted(error) => fault_place(alloc, *error),
        Problem::Unfound(FindError::NotFound(Obstacle::Place(place, _)), _) => {
            place_string(alloc, *place)
        }
        _ => Ok(None),
    }
}

/// Where what is at fault with a listing is.
fn fault_place(alloc: Global, error: ListError) -> Result<Option<String>, AllocError>
    ensures { IfOk result (λ address. option_map string_bytes address ≡ Some (place_text (place_of error))) }
{
    match error {
        ListError::Decode(place, _) => place_string(alloc, place),
        ListError::TwoRoutines(address) | ListError::ComputedJump(address) => {
            address_string(alloc, address)
        }
        ListError::OutOfMemory => address_string(alloc, 0),
    }
}

fn place_string(alloc: Global, place: i32) -> Result<Option<String>, AllocError>
    ensures { IfOk result (λ text. option_map string_bytes text ≡ Some (place_text place)) }
{
    let mut text = String::new(alloc);
    push_place(place, &mut text)?;
    Ok(Some(text))
}

fn address_string(alloc: Global, address: u32) -> Result<Option<String>, AllocError>
    ensures { IfOk result (λ text. option_map string_bytes text ≡ Some (place_text (pos address))) }
{
    let mut text = String::new(alloc);
    push_address(address, &mut text)?;
    Ok(Some(text))
}

/// What a problem's code means, or which file failed: what stands behind the colon where it is told in words.
fn words_of(
    alloc: Global,
    answer: &Result<usize, Problem>,
    blame: Option<&Blame>,
) -> Result<Option<String>, AllocError>
    ensures { IfOk result (λ text. option_map string_bytes text ≡ of_problem (λ problem. Some (shown (drop 2 (words_text (option_map (λ b. b.now) blame.entry) problem)))) answer.now) }
{
    let Err(problem) = answer else {
        return Ok(None);
    };
    let mut words = Vec::new(alloc);
    add_words(alloc, problem, blame, &mut words)?;
    Ok(Some(shown_text(alloc, behind_colon(&words))?))
}

/// What stands behind a colon and a space.
fn behind_colon(words: &[u8]) -> &[u8]
    ensures { result.now ≡ drop 2 words.now }
{
    &words[words.len().min(2)..]
}
