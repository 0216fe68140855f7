//! The objects that the commands answer with.

ghost use Rattle.std.specs.Prelude.{◌≡◌, IfOk, option_map};
ghost use Rattle.zjson.specs.Answers.{explained_line, instruction_line, listed_line, verdict_line};

use crate::object::{Member, Value, line_of};
use std::alloc::{AllocError, Global};

/// What came of a file.
#[derive(Clone, Copy)]
pub struct Verdict<'a> {
    /// The name of the story's file.
    pub file: &'a str,
    /// The digest of its bytes, where they could be read.
    pub digest: Option<&'a str>,
    /// The release that its header states, where a story was loaded.
    pub release: Option<u16>,
    /// The serial number that it states, as a text, where a story was loaded.
    pub serial: Option<&'a str>,
    /// The checksum that it states, where a story was loaded.
    pub checksum: Option<u16>,
    /// What it came to, in a word: `accepted`, `found`, `refused` or `failed`.
    pub outcome: &'a str,
    /// How many instructions the certificate marks, where it is accepted or found.
    pub marks: Option<usize>,
    /// The code of what is refused, as `I5`, and of a failure `file`, `read`, `write` or `memory`.
    pub code: Option<&'a str>,
    /// Where that is, in hexadecimal digits, as `00387`.
    pub address: Option<&'a str>,
    /// What the code means, in a few words.
    pub text: Option<&'a str>,
}

/// What came of a file, as one object on a line: `file`, `sha256`, `release`, `serial`, `checksum`, `outcome`, `marks`, `code`, `address`,
/// `text`. What there isn't is null. Fails only for want of memory.
pub fn verdict_line(alloc: Global, verdict: &Verdict<'_>) -> Result<Vec<u8>, AllocError>
    ensures { IfOk result (λ line. line.items ≡ verdict_line verdict.now) }
{
    let members = [
        Member::new("file", Value::Text(verdict.file)),
        Member::new("sha256", Value::of_text(verdict.digest)),
        Member::new("release", Value::of_number(widened(verdict.release))),
        Member::new("serial", Value::of_text(verdict.serial)),
        Member::new("checksum", Value::of_number(widened(verdict.checksum))),
        Member::new("outcome", Value::Text(verdict.outcome)),
        Member::new("marks", Value::of_number(counted(verdict.marks))),
        Member::new("code", Value::of_text(verdict.code)),
        Member::new("address", Value::of_text(verdict.address)),
        Member::new("text", Value::of_text(verdict.text)),
    ];
    line_of(alloc, &members)
}

fn widened(word: Option<u16>) -> Option<u64>
    ensures { result ≡ word }
{
    Some(u64::from(word?))
}

fn counted(count: Option<usize>) -> Option<u64>
    ensures { result ≡ count }
{
    Some(count? as u64)
}

/// An instruction that a certificate lists.
#[derive(Clone, Copy)]
pub struct Listed<'a> {
    /// Its address in hexadecimal digits.
    pub address: &'a str,
    /// The number of its routine.
    pub routine: u16,
    /// Its opcode, if an instruction stands there.
    pub opcode: Option<&'a str>,
    /// Whether it is marked.
    pub marked: bool,
    /// The code of the rule that is broken first there, if one is.
    pub rule: Option<&'a str>,
}

/// An instruction that a certificate lists, as one object on a line: `address`, `routine`, `opcode`, `marked`, `rule`. What there isn't is
/// null. Fails only for want of memory.
pub fn listed_line(alloc: Global, listed: &Listed<'_>) -> Result<Vec<u8>, AllocError>
    ensures { IfOk result (λ line. line.items ≡ listed_line listed.now.address.now listed.now.routine (option_map (λ text. text.now) listed.now.opcode) listed.now.marked (option_map (λ text. text.now) listed.now.rule)) }
{
    let members = [
        Member::new("address", Value::Text(listed.address)),
        Member::new("routine", Value::Number(u64::from(listed.routine))),
        Member::new("opcode", Value::of_text(listed.opcode)),
        Member::new("marked", Value::Flag(listed.marked)),
        Member::new("rule", Value::of_text(listed.rule)),
    ];
    line_of(alloc, &members)
}

/// A listed instruction as one object on a line: `address` in hexadecimal digits, the number of its routine, and its `opcode`. Fails only
/// for want of memory.
pub fn instruction_line<'a>(
    alloc: Global,
    address: &'a str,
    routine: u16,
    opcode: &'a str,
) -> Result<Vec<u8>, AllocError>
    ensures { IfOk result (λ line. line.items ≡ instruction_line address.now routine opcode.now) }
{
    let members = [
        Member::new("address", Value::Text(address)),
        Member::new("routine", Value::Number(u64::from(routine))),
        Member::new("opcode", Value::Text(opcode)),
    ];
    line_of(alloc, &members)
}

/// What a code means as one object on a line: `code`, `text`. Fails only for want of memory.
pub fn explained_line<'a>(
    alloc: Global,
    code: &'a str,
    text: &'a str,
) -> Result<Vec<u8>, AllocError>
    ensures { IfOk result (λ line. line.items ≡ explained_line code.now text.now) }
{
    let members = [
        Member::new("code", Value::Text(code)),
        Member::new("text", Value::Text(text)),
    ];
    line_of(alloc, &members)
}
