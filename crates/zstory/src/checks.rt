//! What speaks against a file's stated part.

ghost use Rattle.std.specs.Prelude.{◌≤◌, ◌+◌, length, ◌<◌, ◌⊎◌, ◌↔◌, IsTrue, OnOk, IfErr};
ghost use Rattle.zstory.specs.Header.{static_base};
ghost use Rattle.zstory.specs.Refusal.{IsFlaw, IsLowest, HasNone, NoneBelow};

use crate::bytes::word_at;
use crate::dictionary::Entries;
use crate::header;
use crate::header::{DEFAULTS_LENGTH, GLOBALS_LENGTH};
use crate::load_error::LoadError;

/// The least length of a dictionary entry, which is that of its text (Z 13.3).
const TEXT_LENGTH: usize = 4;

/// Whether a table isn't wholly in dynamic memory behind the header.
fn is_misplaced(place: usize, length: usize, static_base: usize) -> bool
    requires place { place < 65536 }
    requires length { length < 65536 }
    ensures { IsTrue result ↔ ((place < 64) ⊎ (static_base < place + length)) }
{
    place < header::LENGTH || static_base < place + length
}

/// Looks for what speaks against a file's stated part, in the order of the refusals.
pub(crate) fn check_part(memory: &[u8]) -> Result<(), LoadError>
    requires { 64 ≤ length memory.now }
    ensures none { OnOk result (HasNone (IsFlaw memory.now)) }
    ensures lowest { IfErr result (IsLowest (IsFlaw memory.now)) }
{
    let static_base = usize::from(word_at(memory, header::STATIC_BASE));
    if static_base < header::LENGTH || memory.len() < static_base {
        return Err(LoadError::StaticBase);
    }
    let globals = usize::from(word_at(memory, header::GLOBALS));
    if is_misplaced(globals, GLOBALS_LENGTH, static_base) {
        return Err(LoadError::Globals);
    }
    let object_table = usize::from(word_at(memory, header::OBJECT_TABLE));
    if is_misplaced(object_table, DEFAULTS_LENGTH, static_base) {
        return Err(LoadError::Objects);
    }
    check_dictionary(memory)?;
    let first_instruction = usize::from(word_at(memory, header::FIRST_INSTRUCTION));
    if first_instruction < header::LENGTH || memory.len() <= first_instruction {
        return Err(LoadError::FirstInstruction);
    }
    Ok(())
}

fn check_dictionary(memory: &[u8]) -> Result<(), LoadError>
    requires header { 64 ≤ length memory.now }
    requires before { NoneBelow (IsFlaw memory.now) LoadError.Dictionary }
    ensures ok { OnOk result (NoneBelow (IsFlaw memory.now) LoadError.FirstInstruction) }
    ensures lowest { IfErr result (IsLowest (IsFlaw memory.now)) }
{
    let place = usize::from(word_at(memory, header::DICTIONARY));
    if place < usize::from(word_at(memory, header::STATIC_BASE)) {
        return Err(LoadError::Dictionary);
    }
    match Entries::read(memory) {
        Some(entries) => check_entries(&entries),
        None => Err(LoadError::Dictionary),
    }
}

/// Looks at the length of the entries, and then at their order.
fn check_entries(entries: &Entries) -> Result<(), LoadError>
    requires before { NoneBelow (IsFlaw entries.now.memory.now) LoadError.EntryLength }
    ensures ok { OnOk result (NoneBelow (IsFlaw entries.now.memory.now) LoadError.FirstInstruction) }
    ensures lowest { IfErr result (IsLowest (IsFlaw entries.now.memory.now)) }
{
    if entries.length() < TEXT_LENGTH {
        return Err(LoadError::EntryLength);
    }
    if !entries.are_ordered() {
        return Err(LoadError::DictionaryOrder);
    }
    Ok(())
}
