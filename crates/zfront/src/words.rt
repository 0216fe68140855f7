//! What is told of the words of a line.

ghost use Rattle.std.specs.Prelude.{◌≡◌, ◌<◌, ◌≤◌, ◌++◌, ◌∷◌, ◌+◌, ◌==◌, codes, if◌then◌else◌, IfOk, None, OnOk, Some, drop, length, option_copied, string_bytes, take};
ghost use Rattle.std.specs.List.{prefix_len, take_while};
ghost use Rattle.std.specs.Option.{option_and_then, option_map};
ghost use Rattle.zfront.specs.Sourced.{address_at, bracketed, is_digit, kind_of, known_of, named, number_at, own_address, pair_told, parts, placed, text_told};
ghost use Rattle.zfront.specs.Told.{left_length, left_parts, left_told, space_before, words_joined};

use crate::cutting::{behind, cut, front, is};
use crate::digits::{ADDRESS_DIGITS, address_at, digits, number_at};
use std::alloc::{AllocError, Global};
use zdebug::{DebugInfo, Named, name_text, source_text};

/// What a word says that a number is the number of.
fn kind_of(word: &[u8]) -> Option<Named>
    ensures { result ≡ kind_of word.now }
{
    if is(word, b"global") {
        Some(Named::Global)
    } else if is(word, b"object") {
        Some(Named::Object)
    } else if is(word, b"attribute") {
        Some(Named::Attribute)
    } else if is(word, b"property") {
        Some(Named::Property)
    } else {
        None
    }
}

/// Adds a text in brackets, behind a space.
fn push_bracketed(text: &[u8], told: &mut Vec<u8>) -> Result<(), AllocError>
    ensures { OnOk result (told.new.items ≡ told.old.items ++ bracketed text.now) }
{
    told.extend_from_slice(b" (")?;
    told.extend_from_slice(text)?;
    told.extend_from_slice(b")")?;
    Ok(())
}

/// The place of an address, if there is one.
fn place_of(
    alloc: Global,
    info: &DebugInfo,
    address: Option<u32>,
) -> Result<Option<String>, AllocError>
    ensures { IfOk result (λ place. option_map string_bytes place ≡ option_and_then (known_of info.now).place address) }
{
    match address {
        None => Ok(None),
        Some(address) => source_text(alloc, info, address),
    }
}

/// What is told of `at` and a word that begins with an address.
fn placed(alloc: Global, info: &DebugInfo, word: &[u8]) -> Result<Option<Vec<u8>>, AllocError>
    ensures { IfOk result (λ told. option_map (λ v. v.items) told ≡ placed (known_of info.now) word.now) }
{
    match place_of(alloc, info, address_at(word))? {
        None => Ok(None),
        Some(place) => Ok(Some(word_placed(alloc, word, place.as_bytes())?)),
    }
}

/// `at`, an address with its place, and what stands behind the address.
fn word_placed(alloc: Global, word: &[u8], place: &[u8]) -> Result<Vec<u8>, AllocError>
    ensures { IfOk result (λ told. told.items ≡ codes "at " ++ take 5 word.now ++ bracketed place.now ++ drop 5 word.now) }
{
    let mut told = Vec::new(alloc);
    told.extend_from_slice(b"at ")?;
    told.extend_from_slice(front(word, ADDRESS_DIGITS))?;
    push_bracketed(place, &mut told)?;
    told.extend_from_slice(behind(word, ADDRESS_DIGITS))?;
    Ok(told)
}

/// The name of what has the number in front of a word.
fn name_at(
    alloc: Global,
    info: &DebugInfo,
    kind: Named,
    word: &[u8],
) -> Result<Option<String>, AllocError>
    ensures { IfOk result (λ name. option_map string_bytes name ≡ option_and_then ((known_of info.now).name kind) (number_at word.now)) }
{
    match number_at(word) {
        None => Ok(None),
        Some(number) => name_text(alloc, info, kind, number),
    }
}

/// What is told of a kind and a word that begins with a number.
fn named(
    alloc: Global,
    info: &DebugInfo,
    word: &[u8],
    next: &[u8],
    kind: Option<Named>,
) -> Result<Option<Vec<u8>>, AllocError>
    ensures { IfOk result (λ told. option_map (λ v. v.items) told ≡ named (known_of info.now) word.now next.now kind) }
{
    let Some(kind) = kind else {
        return Ok(None);
    };
    match name_at(alloc, info, kind, next)? {
        None => Ok(None),
        Some(name) => Ok(Some(word_named(alloc, word, next, name.as_bytes())?)),
    }
}

/// A name, its kind and its number in brackets, and what stands behind the number.
fn word_named(alloc: Global, word: &[u8], next: &[u8], name: &[u8]) -> Result<Vec<u8>, AllocError>
    ensures { IfOk result (λ told. told.items ≡ name.now ++ bracketed (word.now ++ codes " " ++ take_while is_digit next.now) ++ drop (prefix_len is_digit next.now) next.now) }
{
    let count = digits(next);
    let mut told = Vec::new(alloc);
    told.extend_from_slice(name)?;
    told.extend_from_slice(b" (")?;
    told.extend_from_slice(word)?;
    told.extend_from_slice(b" ")?;
    told.extend_from_slice(&next[..count])?;
    told.extend_from_slice(b")")?;
    told.extend_from_slice(&next[count..])?;
    Ok(told)
}

/// A word and the next one, where something is told of both.
fn pair_told(
    alloc: Global,
    info: &DebugInfo,
    word: &[u8],
    next: &[u8],
) -> Result<Option<Vec<u8>>, AllocError>
    ensures { IfOk result (λ told. option_map (λ v. v.items) told ≡ pair_told (known_of info.now) word.now next.now) }
{
    if is(word, b"at") {
        placed(alloc, info, next)
    } else {
        named(alloc, info, word, next, kind_of(word))
    }
}

/// The first word of a line, and what stands behind it and a space, if there is one.
fn first_word(line: &[u8]) -> (&[u8], Option<&[u8]>)
    ensures parts { parts 32 line.now ≡ result.0.now ∷ left_parts (option_copied result.1) }
    ensures shorter { left_length (option_copied result.1) ≤ length line.now }
{
    match cut(line, b' ') {
        None => (line, None),
        Some((word, behind)) => (word, Some(behind)),
    }
}

/// Adds the space in front of what is left, if anything is.
fn push_space(left: Option<&[u8]>, told: &mut Vec<u8>) -> Result<(), AllocError>
    ensures { OnOk result (told.new.items ≡ told.old.items ++ space_before (option_copied left.entry)) }
{
    if left.is_some() {
        told.push(b' ')?;
    }
    Ok(())
}

/// Adds what is told of a word and of the next one, or of it alone, and answers what is left behind that.
#[tactic(auto, using(crate::proofs::Lines::front_one, crate::proofs::Lines::front_two))]
fn push_pair<'a>(
    alloc: Global,
    info: &DebugInfo,
    word: &[u8],
    behind: &'a [u8],
    told: &mut Vec<u8>,
) -> Result<Option<&'a [u8]>, AllocError>
    ensures given { IfOk result (λ left. told.old.items ++ words_joined (known_of info.now) (word.now ∷ parts 32 behind.now) ≡ told.new.items ++ left_told (known_of info.now) (option_copied left)) }
    ensures shorter { IfOk result (λ left. left_length (option_copied left) ≤ length behind.now + 1) }
{
    let (next, others) = first_word(behind);
    match pair_told(alloc, info, word, next)? {
        None => {
            told.extend_from_slice(word)?;
            told.push(b' ')?;
            Ok(Some(behind))
        }
        Some(text) => {
            told.extend_from_slice(&text)?;
            push_space(others, told)?;
            Ok(others)
        }
    }
}

/// Adds what is told of the first word, or of the first two, and answers what is left behind them.
#[tactic(auto, using(crate::proofs::Lines::front_last, crate::proofs::Lines::front_more))]
fn push_front<'a>(
    alloc: Global,
    info: &DebugInfo,
    line: &'a [u8],
    told: &mut Vec<u8>,
) -> Result<Option<&'a [u8]>, AllocError>
    ensures given { IfOk result (λ left. told.old.items ++ left_told (known_of info.now) (Some line.now) ≡ told.new.items ++ left_told (known_of info.now) (option_copied left)) }
    ensures shorter { IfOk result (λ left. left_length (option_copied left) < length line.now + 1) }
{
    let (word, behind) = first_word(line);
    match behind {
        None => {
            told.extend_from_slice(word)?;
            Ok(None)
        }
        Some(behind) => push_pair(alloc, info, word, behind, told),
    }
}

/// Adds the words of a line, told.
fn push_words(
    alloc: Global,
    info: &DebugInfo,
    line: &[u8],
    told: &mut Vec<u8>,
) -> Result<(), AllocError>
    ensures { OnOk result (told.new.items ≡ told.old.items ++ left_told (known_of info.now) (Some line.now)) }
{
    let mut left = Some(line);
    while let Some(rest) = left {
        left = push_front(alloc, info, rest, told)?;
    }
    Ok(())
}

/// The address that a line begins with.
#[tactic(auto, using(crate::proofs::Lines::own_none, crate::proofs::Lines::own_some))]
fn own_address(line: &[u8]) -> Option<u32>
    ensures { result ≡ own_address (parts 32 line.now) }
{
    let (word, behind) = first_word(line);
    match behind {
        None => None,
        Some(_) => whole_address(word),
    }
}

/// The address that a word is.
fn whole_address(word: &[u8]) -> Option<u32>
    ensures { result ≡ (if length word.now == 5 then address_at word.now else None) }
{
    if word.len() != ADDRESS_DIGITS {
        return None;
    }
    address_at(word)
}

/// Adds a line that is no object, told.
pub(crate) fn push_text(
    alloc: Global,
    info: &DebugInfo,
    line: &[u8],
    told: &mut Vec<u8>,
) -> Result<(), AllocError>
    ensures { OnOk result (told.new.items ≡ told.old.items ++ text_told (known_of info.now) line.now) }
{
    let own = place_of(alloc, info, own_address(line))?;
    push_words(alloc, info, line, told)?;
    if let Some(place) = own {
        push_bracketed(place.as_bytes(), told)?;
    }
    Ok(())
}
