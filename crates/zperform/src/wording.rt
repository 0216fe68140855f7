//! What is said in words: behind a code what it means.

ghost use Rattle.std.specs.Prelude.{◌≡◌, ◌++◌, IfOk, decimal, option_map};
ghost use Rattle.zperform.specs.Wording.{blamed_text, fault_line, first_words, problem_line, short_text, unfound_words, words_text, worded_line};

use crate::blame::Blame;
use crate::message::{Message, number_of};
use crate::outcome::{Failure, Outcome, Problem};
use itoa::Buffer;
use std::alloc::{AllocError, Global};
use zexplain::in_short;
use zfault::Fault;
use zfind::{FindError, Obstacle};
use zplayer::End;

/// How the line of an outcome is told.
#[derive(Clone, Copy, Debug, PartialEq, Eq)]
pub enum Speech {
    /// By its code alone, as programs read it.
    Codes,
    /// With what the code means behind it, and which file failed.
    Words,
}

/// The lines of an outcome, with what its code means; empty where there is nothing to say. Of a file that failed it says which, and why.
pub fn worded(
    alloc: Global,
    outcome: &Outcome,
    blame: Option<&Blame>,
) -> Result<Vec<u8>, AllocError>
    ensures { IfOk result (λ text. text.items ≡ worded_line (option_map (λ b. b.now) blame.entry) outcome.now) }
{
    let mut text = Vec::new(alloc);
    match outcome {
        Outcome::Stopped(problem) => add_problem(alloc, problem, blame, &mut text)?,
        Outcome::Played(End::Fault(fault, place)) => add_fault(alloc, *fault, *place, &mut text)?,
        _ => text.extend_from_slice(Message::of(outcome).as_slice())?,
    }
    Ok(text)
}

/// Adds the line of a fault, with what it is.
fn add_fault(alloc: Global, fault: Fault, place: i32, text: &mut Vec<u8>) -> Result<(), AllocError>
    ensures { IfOk result (λ _. text.new.items ≡ text.old.items ++ fault_line fault place) }
{
    text.extend_from_slice(Message::of_fault(fault, place).as_slice())?;
    add_short(alloc, "F", fault.number(), text)?;
    text.push(b'\n')?;
    Ok(())
}

/// Adds the lines of a problem: what its code means stands in the first.
fn add_problem(
    alloc: Global,
    problem: &Problem,
    blame: Option<&Blame>,
    text: &mut Vec<u8>,
) -> Result<(), AllocError>
    ensures { IfOk result (λ _. text.new.items ≡ text.old.items ++ problem_line (option_map (λ b. b.now) blame.entry) problem.now) }
{
    add_first(alloc, problem, blame, text)?;
    text.extend_from_slice(Message::rest_of(problem).as_slice())?;
    text.push(b'\n')?;
    Ok(())
}

/// Adds the first line of a problem without its end, with what its code means.
pub fn add_first(
    alloc: Global,
    problem: &Problem,
    blame: Option<&Blame>,
    text: &mut Vec<u8>,
) -> Result<(), AllocError>
    ensures { IfOk result (λ _. text.new.items ≡ text.old.items ++ first_words (option_map (λ b. b.now) blame.entry) problem.now) }
{
    text.extend_from_slice(Message::first_of(problem).as_slice())?;
    add_words(alloc, problem, blame, text)
}

/// Adds what a problem's code means, or which file failed.
pub fn add_words(
    alloc: Global,
    problem: &Problem,
    blame: Option<&Blame>,
    text: &mut Vec<u8>,
) -> Result<(), AllocError>
    ensures { IfOk result (λ _. text.new.items ≡ text.old.items ++ words_text (option_map (λ b. b.now) blame.entry) problem.now) }
{
    match problem {
        Problem::Refused(error) => add_short(alloc, "L", error.number(), text),
        Problem::Unreadable(error) => add_short(alloc, "K", error.number(), text),
        Problem::BreaksStory(rule) => add_short(alloc, "S", rule.number(), text),
        Problem::BreaksInstruction(_, rule) => add_short(alloc, "I", rule.number(), text),
        Problem::Unlisted(error) => add_short(alloc, "U", number_of(*error), text),
        Problem::Unfound(error, _) => add_unfound(alloc, *error, text),
        Problem::Occupied(purpose) => add_short(alloc, "N", purpose.number(), text),
        Problem::Packed(error) => add_short(alloc, "C", error.number(), text),
        Problem::Failed(failure) => add_failure(alloc, *failure, blame, text),
    }
}

/// Adds why no certificate was found: the rule that is broken, if that ended the search.
fn add_unfound(alloc: Global, error: FindError, text: &mut Vec<u8>) -> Result<(), AllocError>
    ensures { IfOk result (λ _. text.new.items ≡ text.old.items ++ unfound_words error) }
{
    match error {
        FindError::NotFound(Obstacle::Place(_, rule)) => {
            add_short(alloc, "I", rule.number(), text)
        }
        FindError::NotFound(Obstacle::Story(rule)) => { add_short(alloc, "S", rule.number(), text) }
        FindError::RoundLimit | FindError::OutOfMemory => {
            add_short(alloc, "G", error.number(), text)
        }
    }
}

/// Adds what failed.
fn add_failure(
    alloc: Global,
    failure: Failure,
    blame: Option<&Blame>,
    text: &mut Vec<u8>,
) -> Result<(), AllocError>
    ensures { IfOk result (λ _. text.new.items ≡ text.old.items ++ words_text (option_map (λ b. b.now) blame.entry) (Problem.Failed failure)) }
{
    match failure {
        Failure::File => add_blame(blame, text),
        Failure::Read => add_short(alloc, "P", 1, text),
        Failure::Write => add_short(alloc, "P", 2, text),
        Failure::Memory => Ok(()),
    }
}

/// Adds which file failed, and why, if that is known.
fn add_blame(blame: Option<&Blame>, text: &mut Vec<u8>) -> Result<(), AllocError>
    ensures { IfOk result (λ _. text.new.items ≡ text.old.items ++ blamed_text (option_map (λ b. b.now) blame.entry)) }
{
    let Some(blame) = blame else {
        return Ok(());
    };
    text.extend_from_slice(b": ")?;
    text.extend_from_slice(blame.action.text().as_bytes())?;
    text.extend_from_slice(b" '")?;
    text.extend_from_slice(blame.name.as_slice())?;
    text.extend_from_slice(b"': ")?;
    text.extend_from_slice(blame.cause.text(blame.action).as_bytes())
}

/// Adds what the code of a letter and a number means, in a few words.
pub fn add_short(
    alloc: Global,
    letter: &str,
    number: u8,
    text: &mut Vec<u8>,
) -> Result<(), AllocError>
    ensures { IfOk result (λ _. text.new.items ≡ text.old.items ++ short_text (letter.now ++ decimal number)) }
{
    let mut code = String::from_str(alloc, letter)?;
    code.push_str(Buffer::new().format(number))?;
    let Some(words) = in_short(code.as_str()) else {
        return Ok(());
    };
    text.extend_from_slice(b": ")?;
    text.extend_from_slice(words.as_bytes())
}
