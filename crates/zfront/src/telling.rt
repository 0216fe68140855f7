//! What is told of the source in a line.

ghost use Rattle.std.specs.Prelude.{◌≡◌, ◌≤◌, ◌++◌, IfOk, OnOk, length};
ghost use Rattle.zfront.specs.Sourced.{end_of, known_of, body_told, line_told};

use crate::cutting::place_of;
use crate::digits::begins_with;
use crate::members::push_object;
use crate::words::push_text;
use std::alloc::{AllocError, Global};
use zdebug::DebugInfo;

/// Adds a line, told.
fn push_told(
    alloc: Global,
    info: &DebugInfo,
    line: &[u8],
    told: &mut Vec<u8>,
) -> Result<(), AllocError>
    ensures { OnOk result (told.new.items ≡ told.old.items ++ body_told (known_of info.now) line.now) }
{
    if begins_with(line, b'{') {
        push_object(alloc, info, line, told)
    } else {
        push_text(alloc, info, line, told)
    }
}

/// Where a line ends.
#[tactic(auto, using(crate::proofs::Lines::end_none, crate::proofs::Lines::end_some))]
fn end_of(line: &[u8]) -> usize
    ensures end { result ≡ end_of line.now }
    ensures within { result ≤ length line.now }
{
    match place_of(line, b'\n') {
        None => line.len(),
        Some(place) => place,
    }
}

/// A line with what debug information says of the source, in time that is linear in it but for the look-ups. Its end, if it has one, stays where it is.
///
/// Behind an address that the line begins with, or that the word `at` stands before, its place is told, as `(jetty.inf:120, JettyEnter)`; in an object of JSON
/// as a member of its own. The words `global`, `object`, `attribute` and `property` and a number are told as `noun (global 33)`. What isn't known
/// stays as it is. Want of memory is the only error.
pub fn line_told(alloc: Global, info: &DebugInfo, line: &[u8]) -> Result<Vec<u8>, AllocError>
    ensures { IfOk result (λ told. told.items ≡ line_told (known_of info.now) line.now) }
{
    let end = end_of(line);
    let mut told = Vec::new(alloc);
    push_told(alloc, info, &line[..end], &mut told)?;
    told.extend_from_slice(&line[end..])?;
    Ok(told)
}
