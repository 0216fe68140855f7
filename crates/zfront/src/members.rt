//! What is told of an object of JSON.

ghost use Rattle.std.specs.Prelude.{◌≡◌, ◌++◌, IfOk, OnOk, string_bytes};
ghost use Rattle.std.specs.Option.{option_map};
ghost use Rattle.zfront.specs.Sourced.{is_member, known_of, member_place, member_told, object_told, with_source};

use crate::cutting::{behind, cut, front, is};
use crate::digits::{address_at, begins_with};
use std::alloc::{AllocError, Global};
use zdebug::{DebugInfo, source_object};

/// What the member of an address begins with.
const MEMBER: &[u8; 11] = b"\"address\":\"";

/// How long that is, where the quote behind its address stands, and how long it is with that.
const ADDRESS_AT: usize = 11;

const QUOTE_AT: usize = 16;

const MEMBER_END: usize = 17;

/// Whether a part begins with the member of an address.
fn is_member(part: &[u8]) -> bool
    ensures { result ≡ is_member part.now }
{
    is(front(part, ADDRESS_AT), MEMBER) && begins_with(behind(part, QUOTE_AT), b'"')
}

/// The place of the member of an address, as an object.
fn member_place(alloc: Global, info: &DebugInfo, part: &[u8]) -> Result<Option<String>, AllocError>
    ensures { IfOk result (λ object. option_map string_bytes object ≡ member_place (known_of info.now) part.now) }
{
    if !is_member(part) {
        return Ok(None);
    }
    match address_at(behind(part, ADDRESS_AT)) {
        None => Ok(None),
        Some(address) => source_object(alloc, info, address),
    }
}

/// Adds a part of an object, and its place behind the member of an address.
fn push_with_source(
    alloc: Global,
    info: &DebugInfo,
    part: &[u8],
    told: &mut Vec<u8>,
) -> Result<(), AllocError>
    ensures { OnOk result (told.new.items ≡ told.old.items ++ with_source part.now (member_place (known_of info.now) part.now)) }
{
    match member_place(alloc, info, part)? {
        None => told.extend_from_slice(part)?,
        Some(object) => {
            told.extend_from_slice(front(part, MEMBER_END))?;
            told.extend_from_slice(b",\"source\":")?;
            told.extend_from_slice(object.as_bytes())?;
            told.extend_from_slice(behind(part, MEMBER_END))?;
        }
    }
    Ok(())
}

/// Adds what stands between two commas of an object, told.
fn push_member(
    alloc: Global,
    info: &DebugInfo,
    part: &[u8],
    told: &mut Vec<u8>,
) -> Result<(), AllocError>
    ensures { OnOk result (told.new.items ≡ told.old.items ++ member_told (known_of info.now) part.now) }
{
    if begins_with(part, b'{') {
        told.extend_from_slice(front(part, 1))?;
        push_with_source(alloc, info, behind(part, 1), told)
    } else {
        push_with_source(alloc, info, part, told)
    }
}

/// Adds an object, told.
#[tactic(auto, using(crate::proofs::Lines::object_uncut, crate::proofs::Lines::object_cut))]
pub(crate) fn push_object(
    alloc: Global,
    info: &DebugInfo,
    line: &[u8],
    told: &mut Vec<u8>,
) -> Result<(), AllocError>
    ensures { OnOk result (told.new.items ≡ told.old.items ++ object_told (known_of info.now) line.now) }
{
    let mut rest = line;
    while let Some((part, behind)) = cut(rest, b',') {
        push_member(alloc, info, part, told)?;
        told.push(b',')?;
        rest = behind;
    }
    push_member(alloc, info, rest, told)
}
