//! The entries of the object table.

ghost use Rattle.std.specs.Prelude.{◌≡◌, ◌+◌, ◌*◌, ◌≤◌, ◌<◌, length};
ghost use Rattle.zstory.specs.Bytes.{word_at};
ghost use Rattle.zstory.specs.Objects.{object_place, property_table};
ghost use Rattle.zobj.specs.Entries.{HasEntry, entry_byte, with_entry_byte};

use byteorder::{BigEndian, ByteOrder};
use zstory::{DEFAULTS_LENGTH, OBJECT_ENTRY_LENGTH};

/// Where the header has the address of the object table.
pub(crate) const OBJECT_TABLE: usize = 0x0a;

/// Where in its entry the address of an object's property table stands (Z 12.3.1).
const PROPERTY_TABLE: usize = 7;

/// The word whose high byte stands at a place (Z 2.1).
#[inline(always)]
pub(crate) fn word_at(memory: &[u8], at: usize) -> u16
    requires { at + 2 ≤ length memory.now }
    ensures { result ≡ word_at memory.now at }
{
    BigEndian::read_u16(&memory[at..])
}

/// Where the entry of an object begins.
#[inline(always)]
fn entry_place(memory: &[u8], object: u8) -> usize
    requires { HasEntry memory.now object }
    ensures { result ≡ object_place memory.now object }
{
    usize::from(word_at(memory, OBJECT_TABLE))
        + DEFAULTS_LENGTH
        + OBJECT_ENTRY_LENGTH * (usize::from(object) - 1)
}

/// A byte of an object's entry.
#[inline(always)]
pub(crate) fn entry_byte(memory: &[u8], object: u8, k: usize) -> u8
    requires entry { HasEntry memory.now object }
    requires inside { k < 9 }
    ensures { result ≡ entry_byte memory.now object k }
{
    memory[entry_place(memory, object) + k]
}

/// Replaces a byte of an object's entry.
#[inline(always)]
pub(crate) fn set_entry_byte(memory: &mut [u8], object: u8, k: usize, byte: u8)
    requires entry { HasEntry memory.old object }
    requires inside { k < 9 }
    ensures { memory.new ≡ with_entry_byte object k byte memory.old }
{
    let place = entry_place(memory, object) + k;
    memory[place] = byte;
}

/// The address of an object's property table, which may be anywhere.
#[inline(always)]
pub(crate) fn property_table(memory: &[u8], object: u8) -> usize
    requires { HasEntry memory.now object }
    ensures value { result ≡ property_table memory.now object }
    ensures word { result < 65536 }
{
    usize::from(word_at(memory, entry_place(memory, object) + PROPERTY_TABLE))
}
