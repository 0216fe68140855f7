//! Texts and numbers that stand in elements.

ghost use Rattle.std.specs.Prelude.{◌≡◌, ◌+◌, ◌-◌, ◌*◌, ◌^◌, ◌<◌, ◌≤◌, ◌&&◌, nat_lt, nat_le, [], ◌∷◌};
ghost use Rattle.zdebug.specs.Steps.{Answers, Leads};
ghost use Rattle.zdebug.specs.Words.{is_digit, goes_on, decimal, number_of, entity, joined, text_of};
ghost use Rattle.zdebug.specs.Cutting.{parts};

use crate::cutting::{cut, is, unblanked};
use crate::error::DebugError;
use std::alloc::Global;

/// The limit of numbers.
const LIMIT: u64 = 0x1_0000_0000;

fn is_digit(byte: u8) -> bool
    ensures { result ≡ is_digit byte }
{
    byte >= b'0' && byte <= b'9'
}

/// The number that a digit makes of the digits before it.
fn with_digit(number: u32, byte: u8) -> Result<u32, DebugError>
    ensures { Answers (λ n. n) result (goes_on number (byte ∷ [])) }
{
    if !is_digit(byte) {
        return Err(DebugError::NotNumber);
    }
    let next = u64::from(number) * 10 + u64::from(byte - b'0');
    if next >= LIMIT {
        return Err(DebugError::NotNumber);
    }
    Ok(next as u32)
}

/// The decimal number that digits are, below 2 ^ 32.
fn decimal(digits: &[u8]) -> Result<u32, DebugError>
    ensures { Answers (λ n. n) result (decimal digits.now) }
{
    if digits.is_empty() {
        return Err(DebugError::NotNumber);
    }
    let mut number = 0;
    for byte in digits {
        number = with_digit(number, *byte)?;
    }
    Ok(number)
}

/// The number that a text is, behind blanks.
pub fn number_of(text: &[u8]) -> Result<u32, DebugError>
    ensures { Answers (λ n. n) result (number_of text.now) }
{
    decimal(unblanked(text))
}

/// The byte that an entity of a name stands for.
fn entity(name: &[u8]) -> Result<u8, DebugError>
    ensures { Answers (λ n. n) result (entity name.now) }
{
    if is(name, b"amp") {
        Ok(b'&')
    } else if is(name, b"lt") {
        Ok(b'<')
    } else if is(name, b"gt") {
        Ok(b'>')
    } else if is(name, b"quot") {
        Ok(b'"')
    } else if is(name, b"apos") {
        Ok(b'\'')
    } else {
        Err(DebugError::Entity)
    }
}

/// Adds what a part of a text says that stands behind a `&`.
fn push_part(text: &mut Vec<u8>, part: &[u8]) -> Result<(), DebugError>
    ensures { Leads text.new.items result (joined text.old.items (part.now ∷ [])) }
{
    match cut(part, b';') {
        None => Err(DebugError::Entity),
        Some((name, rest)) => {
            text.push(entity(name)?)?;
            text.extend_from_slice(rest)?;
            Ok(())
        }
    }
}

/// Adds what the parts of a text say that stand behind each `&`.
fn push_parts(text: &mut Vec<u8>, bytes: &[u8]) -> Result<(), DebugError>
    ensures { Leads text.new.items result (joined text.old.items (parts 38 bytes.now)) }
{
    let mut rest = bytes;
    while let Some((part, behind)) = cut(rest, b'&') {
        push_part(text, part)?;
        rest = behind;
    }
    push_part(text, rest)
}

/// What a text says, with its entities replaced.
pub fn text_of(alloc: Global, bytes: &[u8]) -> Result<Vec<u8>, DebugError>
    ensures { Answers (λ v. v.items) result (text_of bytes.now) }
{
    let mut text = Vec::new(alloc);
    match cut(bytes, b'&') {
        None => text.extend_from_slice(bytes)?,
        Some((first, others)) => {
            text.extend_from_slice(first)?;
            push_parts(&mut text, others)?;
        }
    }
    Ok(text)
}
