//! What the codes mean in a few words.

ghost use Rattle.std.specs.Prelude.{◌≡◌, ◌++◌, IfOk, OnOk, flat_map, option_map};
ghost use Rattle.std.specs.Io.BufRead.{strip_last};
ghost use Rattle.zexplain.specs.Short.{all_codes, codes_of_certificates, codes_of_debugging, codes_of_play, codes_of_stories, first_line, heading, in_short_of, shortened};

use crate::certificates::{FINDING, FITTING, READING};
use crate::debugging::DEBUGGING;
use crate::explaining::explanation;
use crate::faults::FAULTS;
use crate::playing::{KEEPING, PLAYING, SAVING, UNPACKING};
use crate::rules::RULES;
use crate::stories::{DECODING, LISTING, LOADING, TEXTS};
use std::alloc::{AllocError, Global};

/// What a code means in a few words: its explanation's first line, without the code, its colon and the space in front, and without a full stop
/// at its end; `None` where there is no such code. Its letter may be small, as in `i5`.
pub fn in_short(code: &str) -> Option<&'static str>
    ensures text { option_map (λ text. text.now) result ≡ in_short_of code.now }
{
    Some(shortened(first_line(explanation(code)?)))
}

/// The first line of what each code means, as `I5: an operand that has to be an object may be none, most often 0.`, each with its end, in the
/// order L, J, E, U, K, S, G, I, F, Q, C, P, N, B. Fails only for want of memory.
pub fn all_codes(alloc: Global) -> Result<Vec<u8>, AllocError>
    ensures { IfOk result (λ text. text.items ≡ all_codes) }
{
    let mut text = Vec::new(alloc);
    push_stories(&mut text)?;
    push_certificates(&mut text)?;
    push_play(&mut text)?;
    push_debugging(&mut text)?;
    Ok(text)
}

fn push_stories(text: &mut Vec<u8>) -> Result<(), AllocError>
    ensures { OnOk result (text.new.items ≡ text.old.items ++ codes_of_stories) }
{
    push_headings(&LOADING, text)?;
    push_headings(&DECODING, text)?;
    push_headings(&TEXTS, text)?;
    push_headings(&LISTING, text)?;
    Ok(())
}

fn push_certificates(text: &mut Vec<u8>) -> Result<(), AllocError>
    ensures { OnOk result (text.new.items ≡ text.old.items ++ codes_of_certificates) }
{
    push_headings(&READING, text)?;
    push_headings(&FITTING, text)?;
    push_headings(&FINDING, text)?;
    push_headings(&RULES, text)?;
    Ok(())
}

fn push_play(text: &mut Vec<u8>) -> Result<(), AllocError>
    ensures { OnOk result (text.new.items ≡ text.old.items ++ codes_of_play) }
{
    push_headings(&FAULTS, text)?;
    push_headings(&SAVING, text)?;
    push_headings(&UNPACKING, text)?;
    push_headings(&PLAYING, text)?;
    push_headings(&KEEPING, text)?;
    Ok(())
}

fn push_debugging(text: &mut Vec<u8>) -> Result<(), AllocError>
    ensures { OnOk result (text.new.items ≡ text.old.items ++ codes_of_debugging) }
{
    push_headings(&DEBUGGING, text)
}

/// Adds the first line of each entry's text, with its end.
fn push_headings(entries: &[(&str, &str)], text: &mut Vec<u8>) -> Result<(), AllocError>
    ensures { OnOk result (text.new.items ≡ text.old.items ++ flat_map (λ e. heading e.1.now) entries.now) }
{
    for entry in entries {
        push_heading(entry.1, text)?;
    }
    Ok(())
}

fn push_heading(entry: &str, text: &mut Vec<u8>) -> Result<(), AllocError>
    ensures { OnOk result (text.new.items ≡ text.old.items ++ heading entry.now) }
{
    text.extend_from_slice(first_line(entry).as_bytes())?;
    text.push(b'\n')?;
    Ok(())
}

/// A text up to its first end of line.
fn first_line(text: &str) -> &str
    ensures { result.now ≡ first_line text.now }
{
    match text.split_once('\n') {
        Some((line, _)) => line,
        None => text,
    }
}

/// A line without its first word, and without a full stop at its end.
fn shortened(line: &str) -> &str
    ensures { result.now ≡ shortened line.now }
{
    match line.split_once(' ') {
        Some((_, meaning)) => without_stop(meaning),
        None => "",
    }
}

fn without_stop(line: &str) -> &str
    ensures { result.now ≡ strip_last 46 line.now }
{
    match line.strip_suffix('.') {
        Some(line) => line,
        None => line,
    }
}
