//! Places in the source and names, as text.

ghost use Rattle.std.specs.Prelude.{◌≡◌, IfOk, string_bytes};
ghost use Rattle.std.specs.Option.{option_map};
ghost use Rattle.zdebug.specs.Shown.{shown};
ghost use Rattle.zdebug.specs.Spots.{spot_of_place};
ghost use Rattle.zdebug.specs.Telling.{name_text, source_object, source_text, spot_object, spot_text};

use crate::info::DebugInfo;
use crate::naming::{Named, named_in};
use crate::place::Place;
use crate::shown::{push_escaped, push_shown};
use itoa::Buffer;
use std::alloc::{AllocError, Global};

/// Where in the source the code at a byte address of the story comes from, as `jetty.inf:120, JettyEnter`: the file as it was given to the
/// compiler, the line, of which the first is 1, and the routine. None where [`DebugInfo::place_of`] has no place.
///
/// Of the names printable characters of ASCII but the backslash stand for themselves, and any other byte is `\x` and two lower-case
/// hexadecimal digits. Fails only for want of memory.
pub fn source_text(
    alloc: Global,
    info: &DebugInfo,
    address: u32,
) -> Result<Option<String>, AllocError>
    ensures { IfOk result (λ told. option_map string_bytes told ≡ source_text info.now address) }
{
    match info.place_of(address) {
        None => Ok(None),
        Some(place) => Ok(Some(text_of_place(alloc, place)?)),
    }
}

/// The same place as an object of JSON, as `{"file":"jetty.inf","line":120,"routine":"JettyEnter"}`. None where [`source_text`] has none.
///
/// The names are told as there, and then a quotation mark and a backslash have a backslash in front: the object is valid JSON, all of ASCII.
/// Fails only for want of memory.
pub fn source_object(
    alloc: Global,
    info: &DebugInfo,
    address: u32,
) -> Result<Option<String>, AllocError>
    ensures { IfOk result (λ told. option_map string_bytes told ≡ source_object info.now address) }
{
    match info.place_of(address) {
        None => Ok(None),
        Some(place) => Ok(Some(object_of_place(alloc, place)?)),
    }
}

/// The name of what has a number, as `noun`: of a global variable by the number that instructions have for it, 16 to 255, and of the others
/// as by [`DebugInfo::object`], [`DebugInfo::attribute`] and [`DebugInfo::property`]. None where no record has the number.
///
/// The name is told as by [`source_text`]. Fails only for want of memory.
pub fn name_text(
    alloc: Global,
    info: &DebugInfo,
    named: Named,
    number: u32,
) -> Result<Option<String>, AllocError>
    ensures { IfOk result (λ told. option_map string_bytes told ≡ name_text info.now named number) }
{
    match named_in(info, named, number) {
        None => Ok(None),
        Some(name) => Ok(Some(text_of_name(alloc, name)?)),
    }
}

fn text_of_place(alloc: Global, place: Place<'_>) -> Result<String, AllocError>
    ensures { IfOk result (λ text. string_bytes text ≡ spot_text (spot_of_place place.entry)) }
{
    let mut text = String::new(alloc);
    push_shown(place.file, &mut text)?;
    text.push_str(":")?;
    text.push_str(Buffer::new().format(place.line))?;
    text.push_str(", ")?;
    push_shown(place.routine, &mut text)?;
    Ok(text)
}

fn object_of_place(alloc: Global, place: Place<'_>) -> Result<String, AllocError>
    ensures { IfOk result (λ text. string_bytes text ≡ spot_object (spot_of_place place.entry)) }
{
    let mut text = String::new(alloc);
    text.push_str("{\"file\":\"")?;
    push_escaped(place.file, &mut text)?;
    text.push_str("\",\"line\":")?;
    text.push_str(Buffer::new().format(place.line))?;
    text.push_str(",\"routine\":\"")?;
    push_escaped(place.routine, &mut text)?;
    text.push_str("\"}")?;
    Ok(text)
}

fn text_of_name(alloc: Global, name: &[u8]) -> Result<String, AllocError>
    ensures { IfOk result (λ text. string_bytes text ≡ shown name.now) }
{
    let mut text = String::new(alloc);
    push_shown(name, &mut text)?;
    Ok(text)
}
