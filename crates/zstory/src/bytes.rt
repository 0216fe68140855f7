//! Words as they lie in memory.

ghost use Rattle.std.specs.Prelude.{◌≡◌, ◌+◌, ◌≤◌, length};
ghost use Rattle.zstory.specs.Bytes.{word_at};

use byteorder::{BigEndian, ByteOrder};

/// The word whose high byte stands at a place (Z 2.1).
pub(crate) fn word_at(memory: &[u8], at: usize) -> u16
    requires { at + 2 ≤ length memory.now }
    ensures { result ≡ word_at memory.now at }
{
    BigEndian::read_u16(&memory[at..])
}
