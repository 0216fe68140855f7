//! What is said of many files at the end.

ghost use Rattle.std.specs.Prelude.{◌≡◌, ◌+◌, ◌<◌, ◌^◌, ◌++◌, IfOk, OnOk, codes, decimal};
ghost use Rattle.zbatch.specs.Summary.{part_text, summary_text, total, word_of};

use crate::tally::Tally;
use itoa::Buffer;
use std::alloc::{AllocError, Global};

/// What it is called where it went well.
#[derive(Clone, Copy, Debug, PartialEq, Eq)]
pub enum Wording {
    /// A certificate was accepted.
    Accepted,
    /// A certificate was found.
    Found,
}

impl Wording {
    fn word(self) -> &'static str
        ensures { result.now ≡ word_of self }
    {
        match self {
            Wording::Accepted => "accepted",
            Wording::Found => "found",
        }
    }
}

/// The line that says how many files there were, for how many it went well, and how many are refused and failed, where some are. Fails
/// only for want of memory.
pub fn summary_line(alloc: Global, tally: &Tally, wording: Wording) -> Result<Vec<u8>, AllocError>
    requires { total tally.now < 2 ^ 64 }
    ensures { IfOk result (λ text. text.items ≡ summary_text tally.now wording) }
{
    let mut text = Vec::new(alloc);
    let total = tally.well + tally.refused + tally.failed;
    add_count(
        total,
        if total == 1 { " file: " } else { " files: " },
        &mut text,
    )?;
    add_count(tally.well, " ", &mut text)?;
    text.extend_from_slice(wording.word().as_bytes())?;
    add_part(tally.refused, " refused", &mut text)?;
    add_part(tally.failed, " failed", &mut text)?;
    text.push(b'\n')?;
    Ok(text)
}

fn add_count(count: usize, word: &str, text: &mut Vec<u8>) -> Result<(), AllocError>
    ensures { OnOk result (text.new.items ≡ text.old.items ++ decimal count ++ word.now) }
{
    text.extend_from_slice(Buffer::new().format(count).as_bytes())?;
    text.extend_from_slice(word.as_bytes())
}

/// Adds a count that isn't 0, behind a comma.
fn add_part(count: usize, word: &str, text: &mut Vec<u8>) -> Result<(), AllocError>
    ensures { OnOk result (text.new.items ≡ text.old.items ++ part_text count word.now) }
{
    if count == 0 {
        return Ok(());
    }
    text.extend_from_slice(b", ")?;
    add_count(count, word, text)
}
