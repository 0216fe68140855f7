//! What codes mean.

ghost use Rattle.std.specs.Prelude.{◌≡◌, ◌≢◌, ◌++◌, IfOk, None, Some, flat_map, option_map};
ghost use Rattle.zjson.specs.Answers.{explained_line};
ghost use Rattle.zperform.specs.Devices.{FlushesUnless};
ghost use Rattle.zperform.specs.Finding.{ExplainComesTo, all_objects, codes_text, objects_of_certificates, objects_of_debugging, objects_of_play, objects_of_stories};

use crate::outcome::{Failure, Outcome, Problem};
use crate::performing::write_done;
use std::alloc::{AllocError, Global};
use zexplain::{
    DEBUGGING, DECODING, FAULTS, FINDING, FITTING, KEEPING, LISTING, LOADING, PLAYING, READING,
    RULES, SAVING, TEXTS, UNPACKING, all_codes, explanation,
};
use zfault::Sink;
use zjson::explained_line;

/// Writes the text of a code, if it is one, or with none a line of each code there is.
pub fn explain_code<W: Sink>(
    alloc: Global,
    code: Option<&str>,
    json: bool,
    writer: &mut W,
) -> Outcome
    ensures comes { ExplainComesTo (option_map (λ c. c.now) code.entry) json (W.contents writer.old) (W.contents writer.new) result }
    ensures writer { FlushesUnless W.failures W.waits writer.old writer.new (result ≡ Outcome.Stopped (Problem.Failed Failure.Write)) }
    ensures no_file { result ≢ Outcome.Stopped (Problem.Failed Failure.File) }
    ensures no_input { result ≢ Outcome.Stopped (Problem.Failed Failure.Read) }
{
    match told_of(alloc, code, json) {
        Ok(Some(text)) => write_done(&text, Outcome::Explained, writer),
        Ok(None) => Outcome::NoSuchCode,
        Err(_) => Outcome::Stopped(Problem::Failed(Failure::Memory)),
    }
}

/// What is told of codes, unless there is no such code.
fn told_of(alloc: Global, code: Option<&str>, json: bool) -> Result<Option<Vec<u8>>, AllocError>
    ensures { IfOk result (λ text. option_map (λ t. t.items) text ≡ codes_text (option_map (λ c. c.now) code.entry) json) }
{
    match code {
        Some(code) => one_told(alloc, code, json),
        None => Ok(Some(all_told(alloc, json)?)),
    }
}

/// What is told of all codes.
fn all_told(alloc: Global, json: bool) -> Result<Vec<u8>, AllocError>
    ensures { IfOk result (λ text. Some text.items ≡ codes_text None json) }
{
    if json {
        all_objects(alloc)
    } else {
        all_codes(alloc)
    }
}

/// An object for each code with its text.
fn all_objects(alloc: Global) -> Result<Vec<u8>, AllocError>
    ensures { IfOk result (λ text. text.items ≡ all_objects) }
{
    let mut text = Vec::new(alloc);
    add_stories(alloc, &mut text)?;
    add_certificates(alloc, &mut text)?;
    add_play(alloc, &mut text)?;
    add_debugging(alloc, &mut text)?;
    Ok(text)
}

fn add_stories(alloc: Global, text: &mut Vec<u8>) -> Result<(), AllocError>
    ensures { IfOk result (λ _. text.new.items ≡ text.old.items ++ objects_of_stories) }
{
    add_objects(alloc, &LOADING, text)?;
    add_objects(alloc, &DECODING, text)?;
    add_objects(alloc, &TEXTS, text)?;
    add_objects(alloc, &LISTING, text)?;
    Ok(())
}

fn add_certificates(alloc: Global, text: &mut Vec<u8>) -> Result<(), AllocError>
    ensures { IfOk result (λ _. text.new.items ≡ text.old.items ++ objects_of_certificates) }
{
    add_objects(alloc, &READING, text)?;
    add_objects(alloc, &FITTING, text)?;
    add_objects(alloc, &FINDING, text)?;
    add_objects(alloc, &RULES, text)?;
    Ok(())
}

fn add_play(alloc: Global, text: &mut Vec<u8>) -> Result<(), AllocError>
    ensures { IfOk result (λ _. text.new.items ≡ text.old.items ++ objects_of_play) }
{
    add_objects(alloc, &FAULTS, text)?;
    add_objects(alloc, &SAVING, text)?;
    add_objects(alloc, &UNPACKING, text)?;
    add_objects(alloc, &PLAYING, text)?;
    add_objects(alloc, &KEEPING, text)?;
    Ok(())
}

fn add_debugging(alloc: Global, text: &mut Vec<u8>) -> Result<(), AllocError>
    ensures { IfOk result (λ _. text.new.items ≡ text.old.items ++ objects_of_debugging) }
{
    add_objects(alloc, &DEBUGGING, text)
}

/// Adds an object for each of these codes with its text.
fn add_objects(
    alloc: Global,
    entries: &[(&str, &str)],
    text: &mut Vec<u8>,
) -> Result<(), AllocError>
    ensures { IfOk result (λ _. text.new.items ≡ text.old.items ++ flat_map (λ e. explained_line e.0.now e.1.now) entries.now) }
{
    for entry in entries {
        add_object(alloc, entry.0, entry.1, text)?;
    }
    Ok(())
}

/// Adds the object of a code.
fn add_object(
    alloc: Global,
    code: &str,
    meaning: &str,
    text: &mut Vec<u8>,
) -> Result<(), AllocError>
    ensures { IfOk result (λ _. text.new.items ≡ text.old.items ++ explained_line code.now meaning.now) }
{
    let object = explained_line(alloc, code, meaning)?;
    text.extend_from_slice(&object)
}

/// What is told of one, if it is one.
fn one_told(alloc: Global, code: &str, json: bool) -> Result<Option<Vec<u8>>, AllocError>
    ensures { IfOk result (λ text. option_map (λ t. t.items) text ≡ codes_text (Some code.now) json) }
{
    let Some(text) = explanation(code) else {
        return Ok(None);
    };
    if json {
        return Ok(Some(explained_line(alloc, code, text)?));
    }
    let mut told = Vec::new(alloc);
    told.extend_from_slice(text.as_bytes())?;
    Ok(Some(told))
}
